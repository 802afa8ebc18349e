//! Lists of texts, settings and devices, read from the front of bytes.
ghost use Rattle.std.specs.Prelude.{◌≡◌, ◌≢◌, [], IfOk};
ghost use Rattle.config_lists.specs.Entries.{KeysRise};
ghost use Rattle.row_codec.specs.FieldReading.{Gives, IsRead, IsLast, last_of, added, is_next, next_at, next_filled_at};
ghost use Rattle.row_codec.specs.FieldReading.{filled_at, text_at, items_at, texts_at, setting_at, settings_at, device_at};
ghost use Rattle.row_codec.specs.FieldReading.{devices_at, shape_at};

use crate::parts::{Shape, count_at, stops_at, str_at, text_at};
use crate::unreadable::Unreadable;
use config_lists::{Config, Devices};
use size_values::{Or, Seq, Text};
use std::alloc::Global;

fn add_text<'b>(
    alloc: Global,
    texts: &mut Seq<Text>,
    bytes: &'b [u8],
) -> Result<&'b [u8], Or<Unreadable>>
    ensures { Gives (λ rest. (texts.new, rest.now)) result (added texts.old (text_at bytes.now)) }
{
    let (text, rest) = text_at(alloc, bytes)?;
    texts.push(text)?;
    Ok(rest)
}

fn texts_from(alloc: Global, count: u32, bytes: &[u8]) -> Result<(Seq<Text>, &[u8]), Or<Unreadable>>
    ensures { Gives (λ x. (x.0, x.1.now)) result (items_at (λ before. text_at) count None bytes.now) }
{
    let mut texts = Seq::new(alloc);
    let mut rest = bytes;
    for _ in 0..count {
        rest = add_text(alloc, &mut texts, rest)?;
    }
    Ok((texts, rest))
}

#[tactic(auto, unfolding(crate::specs::FieldReading::list_at))]
pub(crate) fn texts_at(alloc: Global, bytes: &[u8]) -> Result<(Seq<Text>, &[u8]), Or<Unreadable>>
    ensures { Gives (λ x. (x.0, x.1.now)) result (texts_at bytes.now) }
{
    let (count, rest) = count_at(bytes)?;
    texts_from(alloc, count, rest)
}

/// Whether a key is above all keys of the settings.
fn is_next_key(config: &Config, key: &str) -> bool
    ensures next { result ≡ is_next (last_of config.now) key.now }
    ensures rising { KeysRise config.now }
{
    let len = config.len();
    len == 0 || config.key_at(len - 1) < key
}

#[tactic(auto, unfolding(crate::specs::FieldReading::next_at, crate::specs::FieldReading::next_filled_at))]
fn key_at<'b>(config: &Config, bytes: &'b [u8]) -> Result<(&'b str, &'b [u8]), Unreadable>
    ensures read { IsRead (λ x. (x.0.now, x.1.now)) result (next_filled_at (last_of config.now) bytes.now) }
    ensures filled { IfOk result (λ x. x.0.now ≢ []) }
    ensures last { IfOk result (λ x. IsLast config.now x.0.now) }
{
    let (key, rest) = str_at(bytes)?;
    if !is_next_key(config, key) || key.is_empty() {
        return Err(stops_at(bytes));
    }
    Ok((key, rest))
}

#[tactic(auto, unfolding(crate::specs::FieldReading::filled_at))]
fn value_at(bytes: &[u8]) -> Result<(&str, &[u8]), Unreadable>
    ensures read { IsRead (λ x. (x.0.now, x.1.now)) result (filled_at bytes.now) }
    ensures filled { IfOk result (λ x. x.0.now ≢ []) }
{
    let (value, rest) = str_at(bytes)?;
    if value.is_empty() {
        return Err(stops_at(bytes));
    }
    Ok((value, rest))
}

#[tactic(auto, using(crate::proofs::FieldRising::put_after), unfolding(crate::specs::FieldReading::setting_at))]
fn add_setting<'b>(config: &mut Config, bytes: &'b [u8]) -> Result<&'b [u8], Or<Unreadable>>
    ensures { Gives (λ rest. (
      config.new,
      rest.now,
    )) result (added config.old (setting_at (last_of config.old) bytes.now)) }
{
    let (key, rest) = key_at(config, bytes)?;
    let (value, rest) = value_at(rest)?;
    config.set(key, value)?;
    Ok(rest)
}

fn settings_from(alloc: Global, count: u32, bytes: &[u8]) -> Result<(Config, &[u8]), Or<Unreadable>>
    ensures { Gives (λ x. (x.0, x.1.now)) result (items_at setting_at count None bytes.now) }
{
    let mut config = Config::new(alloc);
    let mut rest = bytes;
    for _ in 0..count {
        rest = add_setting(&mut config, rest)?;
    }
    Ok((config, rest))
}

/// Settings whose keys rise, neither key nor value empty.
#[tactic(auto, unfolding(crate::specs::FieldReading::list_at))]
pub fn settings_at(alloc: Global, bytes: &[u8]) -> Result<(Config, &[u8]), Or<Unreadable>>
    ensures { Gives (λ x. (x.0, x.1.now)) result (settings_at bytes.now) }
{
    let (count, rest) = count_at(bytes)?;
    settings_from(alloc, count, rest)
}

/// Whether a name is above all names of the devices.
fn is_next_name(devices: &Devices, name: &str) -> bool
    ensures next { result ≡ is_next (last_of devices.now) name.now }
    ensures rising { KeysRise devices.now }
{
    let len = devices.len();
    len == 0 || devices.name_at(len - 1) < name
}

#[tactic(auto, unfolding(crate::specs::FieldReading::next_at))]
fn name_at<'b>(devices: &Devices, bytes: &'b [u8]) -> Result<(&'b str, &'b [u8]), Unreadable>
    ensures read { IsRead (λ x. (x.0.now, x.1.now)) result (next_at (last_of devices.now) bytes.now) }
    ensures last { IfOk result (λ x. IsLast devices.now x.0.now) }
{
    let (name, rest) = str_at(bytes)?;
    if !is_next_name(devices, name) {
        return Err(stops_at(bytes));
    }
    Ok((name, rest))
}

#[tactic(auto, using(crate::proofs::FieldRising::put_after), unfolding(crate::specs::FieldReading::device_at))]
fn add_device<'b>(
    alloc: Global,
    devices: &mut Devices,
    bytes: &'b [u8],
) -> Result<&'b [u8], Or<Unreadable>>
    ensures { Gives (λ rest. (
      devices.new,
      rest.now,
    )) result (added devices.old (device_at (last_of devices.old) bytes.now)) }
{
    let (name, rest) = name_at(devices, bytes)?;
    let (config, rest) = settings_at(alloc, rest)?;
    devices.put(name, config)?;
    Ok(rest)
}

fn devices_from(alloc: Global, count: u32, bytes: &[u8]) -> Result<(Devices, &[u8]), Or<Unreadable>>
    ensures { Gives (λ x. (x.0, x.1.now)) result (items_at device_at count None bytes.now) }
{
    let mut devices = Devices::new(alloc);
    let mut rest = bytes;
    for _ in 0..count {
        rest = add_device(alloc, &mut devices, rest)?;
    }
    Ok((devices, rest))
}

/// Devices whose names rise, each with its settings.
#[tactic(auto, unfolding(crate::specs::FieldReading::list_at))]
pub fn devices_at(alloc: Global, bytes: &[u8]) -> Result<(Devices, &[u8]), Or<Unreadable>>
    ensures { Gives (λ x. (x.0, x.1.now)) result (devices_at bytes.now) }
{
    let (count, rest) = count_at(bytes)?;
    devices_from(alloc, count, rest)
}

/// The profiles, settings and devices of an instance or a snapshot.
#[tactic(auto, unfolding(crate::specs::FieldReading::shape_at))]
pub fn shape_at(alloc: Global, bytes: &[u8]) -> Result<(Shape, &[u8]), Or<Unreadable>>
    ensures { Gives (λ x. (x.0, x.1.now)) result (shape_at bytes.now) }
{
    let (profiles, rest) = texts_at(alloc, bytes)?;
    match settings_at(alloc, rest) {
        Ok((config, rest)) => match devices_at(alloc, rest) {
            Ok((devices, rest)) => {
                let shape = Shape {
                    profiles,
                    config,
                    devices,
                };
                Ok((shape, rest))
            }
            Err(why) => {
                drop(config);
                drop(profiles);
                Err(why)
            }
        },
        Err(why) => {
            drop(profiles);
            Err(why)
        }
    }
}
