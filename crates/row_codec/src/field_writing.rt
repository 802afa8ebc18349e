//! Parts of rows, written at the end of bytes.
ghost use Rattle.std.specs.Prelude.{◌≡◌, ◌++◌, OnOk};
ghost use Rattle.std.specs.Str.{IsUtf8};
ghost use Rattle.row_codec.specs.Parts.{IsShort, AreShortTexts, AreShortSettings, AreShortDevices, AreUtf8};
ghost use Rattle.row_codec.specs.Parts.{AreTypedSettings, AreTypedDevices};
ghost use Rattle.row_codec.specs.FieldSpelling.{text_bytes, number_bytes, texts_bytes, settings_bytes, devices_bytes};
ghost use Rattle.row_codec.specs.FieldSpelling.{boolean_byte, kind_byte, driver_byte};

use config_lists::{Config, Devices};
use records::Driver;
use size_values::{Kind, NoMemory, Seq, Text};
use std::alloc::Global;

/// A text: its length as four bytes, and its bytes.
#[tactic(auto, unfolding(crate::specs::FieldSpelling::text_bytes))]
pub fn put_text(out: &mut Vec<u8>, text: &str) -> Result<(), NoMemory>
    requires { IsShort text.now }
    ensures bytes { OnOk result (out.new.items ≡ out.old.items ++ text_bytes text.now) }
    ensures utf8 { IsUtf8 text.now }
{
    out.extend_from_slice(&(text.len() as u32).to_be_bytes())?;
    out.extend_from_slice(text.as_bytes())?;
    Ok(())
}

/// A number, as eight bytes.
#[tactic(auto, unfolding(crate::specs::FieldSpelling::number_bytes))]
pub fn put_number(out: &mut Vec<u8>, number: u64) -> Result<(), NoMemory>
    ensures { OnOk result (out.new.items ≡ out.old.items ++ number_bytes number) }
{
    out.extend_from_slice(&number.to_be_bytes())?;
    Ok(())
}

/// A list of texts with its count.
pub fn put_texts(out: &mut Vec<u8>, texts: &Seq<Text>) -> Result<(), NoMemory>
    requires { AreShortTexts texts.now }
    ensures bytes { OnOk result (out.new.items ≡ out.old.items ++ texts_bytes texts.now) }
    ensures typed { OnOk result (AreUtf8 texts.now) }
{
    out.extend_from_slice(&(texts.len() as u32).to_be_bytes())?;
    for text in texts.view() {
        put_text(out, text.view())?;
    }
    Ok(())
}

/// Settings with their count, in the order of their keys.
pub fn put_settings(out: &mut Vec<u8>, config: &Config) -> Result<(), NoMemory>
    requires { AreShortSettings config.now }
    ensures bytes { OnOk result (out.new.items ≡ out.old.items ++ settings_bytes config.now) }
    ensures typed { OnOk result (AreTypedSettings config.now) }
{
    let count = config.len();
    out.extend_from_slice(&(count as u32).to_be_bytes())?;
    for place in 0..count {
        put_text(out, config.key_at(place))?;
        put_text(out, config.value_at(place))?;
    }
    Ok(())
}

/// Devices with their count, in the order of their names.
pub fn put_devices(out: &mut Vec<u8>, devices: &Devices) -> Result<(), NoMemory>
    requires { AreShortDevices devices.now }
    ensures bytes { OnOk result (out.new.items ≡ out.old.items ++ devices_bytes devices.now) }
    ensures typed { OnOk result (AreTypedDevices devices.now) }
{
    let count = devices.len();
    out.extend_from_slice(&(count as u32).to_be_bytes())?;
    for place in 0..count {
        put_text(out, devices.name_at(place))?;
        put_settings(out, devices.device_at(place))?;
    }
    Ok(())
}

/// 1 for true and 0 for false.
pub fn boolean_byte(boolean: bool) -> u8
    ensures { result ≡ boolean_byte boolean }
{
    if boolean { 1 } else { 0 }
}

/// The kind of an instance, as one byte.
pub fn kind_byte(kind: Kind) -> u8
    ensures { result ≡ kind_byte kind }
{
    match kind {
        Kind::Container => 0,
        Kind::Machine => 1,
    }
}

/// The driver of a pool, as one byte.
pub fn driver_byte(driver: Driver) -> u8
    ensures { result ≡ driver_byte driver }
{
    match driver {
        Driver::Dir => 0,
        Driver::Btrfs => 1,
        Driver::Lvm => 2,
        Driver::Zfs => 3,
    }
}
