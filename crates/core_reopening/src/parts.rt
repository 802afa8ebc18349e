//! What the parts of a row have by their types: functions that do nothing but look.
ghost use Rattle.std.specs.Str.{IsUtf8};
ghost use Rattle.row_codec.specs.Parts.{AreUtf8, AreTypedSettings, AreTypedDevices};

use config_lists::{Config, Devices};
use size_values::{Seq, Text};

/// The bytes of a string are UTF-8.
fn string_is_utf8(string: &str)
    ensures { IsUtf8 string.now }
{
    let _ = string.as_bytes();
}

/// A text is.
pub(crate) fn text_is_utf8(text: &Text)
    ensures { IsUtf8 text.now }
{
    let _ = text.view();
}

/// Each text of a list is.
pub(crate) fn texts_are_utf8(texts: &Seq<Text>)
    ensures { AreUtf8 texts.now }
{
    for text in texts.view() {
        text_is_utf8(text);
    }
}

/// Keys rise, no key or value is empty, and each is UTF-8.
pub(crate) fn settings_are_typed(config: &Config)
    ensures { AreTypedSettings config.now }
{
    for place in 0..config.len() {
        string_is_utf8(config.key_at(place));
        string_is_utf8(config.value_at(place));
    }
}

/// Names rise, each is UTF-8, and the settings of each device are as those of a row.
pub(crate) fn devices_are_typed(devices: &Devices)
    ensures { AreTypedDevices devices.now }
{
    for place in 0..devices.len() {
        string_is_utf8(devices.name_at(place));
        settings_are_typed(devices.device_at(place));
    }
}
