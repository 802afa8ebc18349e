ghost use Rattle.std.specs.Prelude.{◌≡◌, IfOk, option_map, unwrap_or};
ghost use Rattle.serde_json.specs.View.{view};
ghost use Rattle.rest_bodies.specs.Keys.{word_of};
ghost use Rattle.rest_bodies.specs.Members.{json_in, if_object, object_in, text_at, is_word, name_at};

use crate::given::Given;
use crate::keys::Key;
use crate::sent::SentBody;
use serde_json::Value;
use size_values::{NoMemory, Text};
use std::alloc::Global;

/// The JSON value that a body spells, if it is one.
#[tactic(auto, using(crate::proofs::Spelled::json_in_text, crate::proofs::Spelled::json_in_other))]
fn json_in(alloc: Global, body: &[u8]) -> Result<Option<Value>, NoMemory>
    ensures { IfOk result (λ o. option_map view o ≡ json_in body.now) }
{
    match Value::from_slice(alloc, body) {
        Ok(value) => Ok(Some(value)),
        Err(error) => {
            if error.is_memory() {
                return Err(NoMemory);
            }
            Ok(None)
        }
    }
}

#[tactic(auto, unfolding(crate::specs::Members::if_object))]
fn if_object(value: Value) -> Option<Value>
    ensures { option_map view result ≡ if_object (view value) }
{
    if value.as_object().is_some() {
        Some(value)
    } else {
        None
    }
}

/// The JSON object that a body spells, if it is one (RFC 8259). Of a member that comes twice the last counts.
#[tactic(auto, unfolding(crate::specs::Members::object_in))]
pub fn object_in(alloc: Global, body: &[u8]) -> Result<Option<Value>, NoMemory>
    ensures { IfOk result (λ o. option_map view o ≡ object_in body.now) }
{
    match json_in(alloc, body)? {
        Some(value) => Ok(if_object(value)),
        None => Ok(None),
    }
}

pub(crate) fn copy_of(alloc: Global, text: Option<&str>) -> Result<Option<Text>, NoMemory>
    ensures { IfOk result (λ o. o ≡ option_map (λ s. s.now) text.entry) }
{
    match text {
        Some(text) => Ok(Some(Text::from_text(alloc, text)?)),
        None => Ok(None),
    }
}

/// The text of a field, as it stands in the body.
#[tactic(auto, unfolding(crate::specs::Members::text_at))]
pub(crate) fn str_at<'a>(key: Key, body: &Given<'a>) -> Option<&'a str>
    ensures { option_map (λ s. s.now) result ≡ text_at (word_of key) (view body.now) }
{
    match body.member(key) {
        Some(value) => value.as_str(),
        None => None,
    }
}

/// The text of a field, if it is given.
pub(crate) fn text_at(alloc: Global, key: Key, body: &Given) -> Result<Option<Text>, NoMemory>
    ensures { IfOk result (λ o. o ≡ text_at (word_of key) (view body.now)) }
{
    copy_of(alloc, str_at(key, body))
}

/// Whether a value is this text.
#[tactic(auto, unfolding(crate::specs::Members::is_word))]
pub(crate) fn is_word(word: &str, value: &Value) -> bool
    ensures { result ≡ is_word word.now (view value.now) }
{
    match value.as_str() {
        Some(text) => text == word,
        None => false,
    }
}

/// The name among the members of a value, empty where there is none.
pub(crate) fn name_in(alloc: Global, given: &Given) -> Result<Text, NoMemory>
    ensures { IfOk result (λ t. t ≡ name_at (view given.now)) }
{
    match text_at(alloc, Key::Name, given)? {
        Some(name) => Ok(name),
        None => Ok(Text::new(alloc)),
    }
}

/// The name in a body, which is there in a body that was judged.
pub fn name_at(alloc: Global, body: &SentBody) -> Result<Text, NoMemory>
    ensures { IfOk result (λ t. t ≡ name_at (view body.now)) }
{
    name_in(alloc, body.members())
}
