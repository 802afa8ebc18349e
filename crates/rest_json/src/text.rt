//! JSON that is written as it is made, without a map of its members before it.
ghost use Rattle.std.specs.Prelude.{◌≡◌, ◌∷◌, ◌++◌, [], false, IfOk};
ghost use Rattle.json.specs.Print.{quoted};
ghost use Rattle.serde_json.specs.Data.{boolean};
ghost use Rattle.serde_json.specs.View.{view};
ghost use Rattle.serde_json.specs.Written.{comma_if, compact_text, has_float};
ghost use Rattle.rest_json.specs.Ids.{id_text, operation_url};
ghost use Rattle.rest_json.specs.Moments.{moment_text};
ghost use Rattle.rest_json.specs.Objects.{whole};
ghost use Rattle.rest_json.specs.Settings.{settings_data, devices_data, texts_data};

use crate::ids::{id_text, operation_url};
use crate::moments::moment_text;
use config_lists::{Config, Devices};
use json::Writer;
use serde_json::Value;
use size_values::{NoMemory, Seq, Text};
use std::alloc::Global;
use std::marker::Model;

/// JSON that is being written, from its front on. Each call takes the text and gives it back with more after it, so
/// that where memory ends its caller has none to let go. Contracts see its bytes.
#[derive(Drop)]
pub struct JsonText {
    alloc: Global,
    bytes: Vec<u8>,
    /// Where a text is quoted before it is added: a writer over all bytes would fill much of the room after them anew
    /// for each text.
    quoted: Vec<u8>,
}

impl Model for JsonText {
    ghost use Rattle.std.specs.Prelude.{List, ℕ};

    ghost Value = { List ℕ };

    ghost view = { λ t. t.bytes.items };
}

impl JsonText {
    /// Nothing yet, with room for so many bytes.
    pub fn new(alloc: Global, room: usize) -> Result<JsonText, NoMemory>
        ensures { IfOk result (λ t. t ≡ []) }
    {
        let bytes = Vec::with_capacity(alloc, room)?;
        Ok(JsonText {
            alloc,
            bytes,
            quoted: Vec::new(alloc),
        })
    }

    /// The bytes.
    pub fn into_bytes(self) -> Seq<u8>
        ensures { result ≡ self }
    {
        Seq::from_vec(self.bytes)
    }

    /// With bytes that stand for themselves: brackets, colons, commas, and keys in their quotes.
    pub fn plain(mut self, text: &str) -> Result<JsonText, NoMemory>
        ensures { IfOk result (λ t. t ≡ self ++ text.now) }
    {
        self.bytes.extend_from_slice(text.as_bytes())?;
        Ok(self)
    }

    /// With a comma, where something stands before.
    pub fn comma(self, later: bool) -> Result<JsonText, NoMemory>
        ensures { IfOk result (λ t. t ≡ self ++ comma_if later) }
    {
        if later {
            return self.plain(",");
        }
        Ok(self)
    }

    /// With a text as a JSON string.
    #[tactic(auto, unfolding(json::specs::Print::print_from))]
    pub fn string(mut self, text: &str) -> Result<JsonText, NoMemory>
        ensures { IfOk result (λ t. t ≡ self ++ quoted text.now) }
    {
        self.quoted.clear();
        let mut writer = Writer::new(self.quoted);
        writer.string(text)?;
        let quoted = writer.into_inner();
        self.bytes.extend_from_slice(&quoted)?;
        Ok(JsonText {
            alloc: self.alloc,
            bytes: self.bytes,
            quoted,
        })
    }

    /// With a whole number.
    #[tactic(auto, unfolding(json::specs::Print::print_from))]
    pub fn number(mut self, number: u64) -> Result<JsonText, NoMemory>
        ensures { IfOk result (λ t. t ≡ self ++ compact_text (whole number)) }
    {
        self.quoted.clear();
        let mut writer = Writer::new(self.quoted);
        writer.u64(number)?;
        let quoted = writer.into_inner();
        self.bytes.extend_from_slice(&quoted)?;
        Ok(JsonText {
            alloc: self.alloc,
            bytes: self.bytes,
            quoted,
        })
    }

    /// With `true` or `false`.
    pub fn boolean(self, value: bool) -> Result<JsonText, NoMemory>
        ensures { IfOk result (λ t. t ≡ self ++ compact_text (boolean value)) }
    {
        if value {
            return self.plain("true");
        }
        self.plain("false")
    }

    /// With a moment as its text.
    pub fn moment(self, moment: u64) -> Result<JsonText, NoMemory>
        ensures { IfOk result (λ t. t ≡ self ++ quoted (moment_text moment)) }
    {
        let text = moment_text(self.alloc, moment)?;
        self.string(text.view())
    }

    /// With the id of an operation.
    pub fn id(self, boot: u64, number: u64) -> Result<JsonText, NoMemory>
        ensures { IfOk result (λ t. t ≡ self ++ quoted (id_text boot number)) }
    {
        let text = id_text(self.alloc, boot, number)?;
        self.string(text.view())
    }

    /// With the URL of an operation.
    pub fn url(self, boot: u64, number: u64) -> Result<JsonText, NoMemory>
        ensures { IfOk result (λ t. t ≡ self ++ quoted (operation_url boot number)) }
    {
        let url = operation_url(self.alloc, boot, number)?;
        self.string(url.view())
    }

    /// With a value that was made before.
    pub fn value(mut self, value: &Value) -> Result<JsonText, NoMemory>
        requires { has_float (view value.now) ≡ false }
        ensures { IfOk result (λ t. t ≡ self ++ compact_text (view value.now)) }
    {
        let text = value.to_vec(self.alloc)?;
        self.bytes.extend_from_slice(&text)?;
        Ok(self)
    }

    /// With a member whose value is a text, and a comma before it where another member stands there.
    fn member(self, later: bool, key: &str, value: &str) -> Result<JsonText, NoMemory>
        ensures { IfOk result (λ t. t ≡ self
            ++ (comma_if later ++ (quoted key.now ++ 58 ∷ quoted value.now))) }
    {
        self.comma(later)?.string(key)?.plain(":")?.string(value)
    }

    /// With settings, as an object of texts.
    pub fn settings(self, config: &Config) -> Result<JsonText, NoMemory>
        ensures { IfOk result (λ t. t ≡ self ++ compact_text (settings_data config.now)) }
    {
        let mut text = self.plain("{")?;
        let mut later = false;
        for place in 0..config.len() {
            text = text.member(later, config.key_at(place), config.value_at(place))?;
            later = true;
        }
        text.plain("}")
    }

    /// With the name of a device and its settings.
    fn device(self, later: bool, name: &str, config: &Config) -> Result<JsonText, NoMemory>
        ensures { IfOk result (λ t. t ≡ self
            ++ (comma_if later ++ (quoted name.now ++ 58 ∷ compact_text (settings_data config.now)))) }
    {
        self.comma(later)?
            .string(name)?
            .plain(":")?
            .settings(config)
    }

    /// With devices, as an object of their settings.
    pub fn devices(self, devices: &Devices) -> Result<JsonText, NoMemory>
        ensures { IfOk result (λ t. t ≡ self ++ compact_text (devices_data devices.now)) }
    {
        let mut text = self.plain("{")?;
        let mut later = false;
        for place in 0..devices.len() {
            text = text.device(later, devices.name_at(place), devices.device_at(place))?;
            later = true;
        }
        text.plain("}")
    }

    /// With texts, as a list.
    #[tactic(auto, unfolding(crate::specs::Settings::texts_data))]
    pub fn texts(self, texts: &Seq<Text>) -> Result<JsonText, NoMemory>
        ensures { IfOk result (λ t. t ≡ self ++ compact_text (texts_data texts.now)) }
    {
        let mut text = self.plain("[")?;
        let mut later = false;
        for item in texts.view() {
            text = text.comma(later)?.string(item.view())?;
            later = true;
        }
        text.plain("]")
    }
}
