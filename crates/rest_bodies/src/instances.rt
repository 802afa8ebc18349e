ghost use Rattle.std.specs.Prelude.{◌≡◌, IfOk, option_and_then, option_map, is_some, codes};
ghost use Rattle.serde_json.specs.View.{view};
ghost use Rattle.rest_bodies.specs.Instances.{kind_of, kind_in, kind_at, is_false, ephemeral_at, text_fault};
ghost use Rattle.rest_bodies.specs.Members.{non_null_member};
ghost use Rattle.rest_bodies.specs.Instances.{needed_fault, named_fault, image_fault, typed_fault, source_fault};
ghost use Rattle.rest_bodies.specs.Instances.{image_name, instance_made, instance_origin, restore_at};

use crate::copies::copied_fault;
use crate::given::Given;
use crate::keys::Key;
use crate::members::{is_word, str_at, text_at};
use crate::origins::has_word;
use crate::sent::SentBody;
use records::Origin;
use serde_json::Value;
use size_values::{Kind, NoMemory, Text};
use std::alloc::Global;

#[tactic(auto, unfolding(crate::specs::Instances::kind_of))]
fn kind_of(name: &str) -> Option<Kind>
    ensures { result ≡ kind_of name.now }
{
    if name == "container" {
        return Some(Kind::Container);
    }
    if name == "virtual-machine" {
        return Some(Kind::Machine);
    }
    None
}

/// The kind of instance that a value names.
#[tactic(auto, unfolding(crate::specs::Instances::kind_in))]
pub(crate) fn kind_in(value: &Value) -> Option<Kind>
    ensures { result ≡ kind_in (view value.now) }
{
    match value.as_str() {
        Some(name) => kind_of(name),
        None => None,
    }
}

/// The kind of instance in a body, if one is given.
#[tactic(auto, unfolding(crate::specs::Instances::kind_at))]
pub(crate) fn kind_at(body: &SentBody) -> Option<Kind>
    ensures { result ≡ kind_at (view body.now) }
{
    match body.field(Key::Type) {
        Some(value) => kind_in(value),
        None => None,
    }
}

/// Whether a value is `false`, which a number is not.
#[tactic(auto, unfolding(crate::specs::Instances::is_false))]
pub(crate) fn is_false(value: &Value) -> bool
    ensures { result ≡ is_false (view value.now) }
{
    match value.as_bool() {
        Some(boolean) => !boolean,
        None => false,
    }
}

/// Whether a body says that the instance goes when it stops, if it says so at all.
#[tactic(auto, unfolding(crate::specs::Instances::ephemeral_at))]
pub(crate) fn ephemeral_at(body: &SentBody) -> Option<bool>
    ensures { result ≡ ephemeral_at (view body.now) }
{
    match body.field(Key::Ephemeral) {
        Some(value) => value.as_bool(),
        None => None,
    }
}

fn text_fault(key: &'static str, value: &Value) -> Option<&'static str>
    ensures { option_map (λ k. k.now) result ≡ text_fault key.now (view value.now) }
{
    if value.as_str().is_some() {
        None
    } else {
        Some(key)
    }
}

/// The key of a text that has to be there, if it is not.
fn needed_fault(key: &'static str, field: Option<&Value>) -> Option<&'static str>
    ensures { option_map (λ k. k.now) result ≡ needed_fault key.now (option_map (λ m. view m.now) field.entry) }
{
    match field {
        Some(value) => text_fault(key, value),
        None => Some(key),
    }
}

/// The fault of the names of an image. A fingerprint that is given is the one that counts, and then the alias is not
/// looked at.
fn named_fault(fingerprint: Option<&Value>, source: &Given) -> Option<&'static str>
    ensures { option_map (λ k. k.now) result
        ≡ named_fault (option_map (λ m. view m.now) fingerprint.entry) (view source.now) }
{
    match fingerprint {
        Some(value) => text_fault("fingerprint", value),
        None => needed_fault("alias", source.member(Key::Alias)),
    }
}

fn image_fault(source: &Given) -> Option<&'static str>
    ensures { option_map (λ k. k.now) result ≡ image_fault (view source.now) }
{
    named_fault(source.member(Key::Fingerprint), source)
}

#[tactic(auto, unfolding(crate::specs::Instances::typed_fault))]
fn typed_fault(source: &Given) -> Option<&'static str>
    ensures { option_map (λ k. k.now) result ≡ typed_fault (view source.now) }
{
    let word = source.member(Key::Type);
    if has_word("none", word) {
        return None;
    }
    if has_word("image", word) {
        return image_fault(source);
    }
    if has_word("copy", word) {
        return copied_fault(source);
    }
    Some("type")
}

/// The key of the first part of an instance's source that is at fault, or that of the source where it is no object.
#[tactic(auto, unfolding(crate::specs::Instances::source_fault))]
fn source_fault(source: &Given) -> Option<&'static str>
    ensures { option_map (λ k. k.now) result ≡ source_fault (view source.now) }
{
    if source.is_object() {
        typed_fault(source)
    } else {
        Some("source")
    }
}

/// The key of the first part of a body's source that is at fault.
pub(crate) fn fault_in_source(body: &SentBody) -> Option<&'static str>
    ensures { option_map (λ k. k.now) result
        ≡ option_and_then source_fault (non_null_member (codes "source") (view body.now)) }
{
    match body.source() {
        Some(source) => source_fault(source),
        None => None,
    }
}

/// The name of the image that a source asks for: its fingerprint, or else its alias.
#[tactic(auto, unfolding(crate::specs::Instances::image_name))]
fn image_name<'a>(source: &Given<'a>) -> &'a str
    ensures { result.now ≡ image_name (view source.now) }
{
    if let Some(fingerprint) = str_at(Key::Fingerprint, source) {
        return fingerprint;
    }
    match str_at(Key::Alias, source) {
        Some(alias) => alias,
        None => "",
    }
}

#[tactic(auto, unfolding(crate::specs::Instances::instance_made))]
fn instance_made(alloc: Global, source: &Given) -> Result<Origin, NoMemory>
    ensures { IfOk result (λ o. o ≡ instance_made (view source.now)) }
{
    if has_word("image", source.member(Key::Type)) {
        return Ok(Origin::Image(Text::from_text(alloc, image_name(source))?));
    }
    Ok(Origin::None)
}

/// What the body of a new instance that is no copy makes it from: an image, or nothing.
#[tactic(auto, unfolding(crate::specs::Instances::instance_origin))]
pub(crate) fn instance_origin(alloc: Global, body: &SentBody) -> Result<Origin, NoMemory>
    ensures { IfOk result (λ o. o ≡ instance_origin (view body.now)) }
{
    match body.source() {
        Some(source) => instance_made(alloc, source),
        None => Ok(Origin::None),
    }
}

/// The snapshot that an instance is put back to, if the body names one. The other fields of such a body are ignored.
#[tactic(auto, unfolding(crate::specs::Instances::restore_at))]
pub fn restore_at(alloc: Global, body: &SentBody) -> Result<Option<Text>, NoMemory>
    ensures { IfOk result (λ o. o ≡ restore_at (view body.now)) }
{
    text_at(alloc, Key::Restore, body.members())
}

/// Whether a body puts an instance back to a snapshot.
#[tactic(auto, unfolding(crate::specs::Instances::restore_at))]
pub(crate) fn is_restoration(body: &SentBody) -> bool
    ensures { result ≡ is_some (restore_at (view body.now)) }
{
    str_at(Key::Restore, body.members()).is_some()
}
