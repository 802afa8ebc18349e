ghost use Rattle.std.specs.Prelude.{◌≡◌, IfOk, option_map};
ghost use Rattle.serde_json.specs.View.{view};
ghost use Rattle.records.specs.Forms.{has_slash};
ghost use Rattle.rest_bodies.specs.Copies.{is_part, two_parts, copied_in, copied_at, copied_fault};
ghost use Rattle.rest_bodies.specs.Copies.{copied_from, copy_origin};

use crate::given::Given;
use crate::keys::Key;
use crate::members::str_at;
use crate::sent::SentBody;
use records::Origin;
use size_values::{NoMemory, Text};
use std::alloc::Global;

fn has_slash(text: &str) -> bool
    ensures { result ≡ has_slash text.now }
{
    text.as_bytes().iter().any(|byte| *byte == b'/')
}

/// Whether a text can stand between slashes.
#[tactic(auto, unfolding(crate::specs::Copies::is_part))]
fn is_part(text: &str) -> bool
    ensures { result ≡ is_part text.now }
{
    !text.is_empty() && !has_slash(text)
}

fn two_parts<'a>(name: &'a str, snapshot: &'a str) -> Option<(&'a str, &'a str)>
    ensures { option_map (λ names. (names.0.now, names.1.now)) result ≡ two_parts name.now snapshot.now }
{
    if is_part(name) && is_part(snapshot) {
        Some((name, snapshot))
    } else {
        None
    }
}

/// The name of an instance and that of its snapshot, in a text `NAME` or `NAME/SNAPSHOT`. The snapshot is empty where
/// the instance itself is meant.
#[tactic(auto, unfolding(crate::specs::Copies::copied_in))]
fn copied_in(text: &str) -> Option<(&str, &str)>
    ensures { option_map (λ names. (names.0.now, names.1.now)) result ≡ copied_in text.now }
{
    if is_part(text) {
        return Some((text, ""));
    }
    match text.split_once('/') {
        Some((name, snapshot)) => two_parts(name, snapshot),
        None => None,
    }
}

/// What the source of a copy names, if it does.
#[tactic(auto, unfolding(crate::specs::Copies::copied_at))]
fn copied_at<'a>(source: &Given<'a>) -> Option<(&'a str, &'a str)>
    ensures { option_map (λ names. (names.0.now, names.1.now)) result ≡ copied_at (view source.now) }
{
    match str_at(Key::Source, source) {
        Some(text) => copied_in(text),
        None => None,
    }
}

/// The key of the text that names what is copied, where it is at fault.
pub(crate) fn copied_fault(source: &Given) -> Option<&'static str>
    ensures { option_map (λ k. k.now) result ≡ copied_fault (view source.now) }
{
    if copied_at(source).is_some() {
        None
    } else {
        Some("source")
    }
}

fn copied_from(alloc: Global, names: Option<(&str, &str)>) -> Result<Origin, NoMemory>
    ensures { IfOk result (λ o. o ≡ copied_from (option_map (λ names. (names.0.now, names.1.now)) names.entry)) }
{
    let Some((name, snapshot)) = names else {
        return Ok(Origin::None);
    };
    let from = Text::from_text(alloc, name)?;
    let snapshot = Text::from_text(alloc, snapshot)?;
    Ok(Origin::Copy {
        from,
        snapshot,
        pool: Text::new(alloc),
    })
}

/// What the body of a copy makes the new instance from: the instance or the snapshot that its `source` names.
#[tactic(auto, unfolding(crate::specs::Copies::copy_origin))]
pub(crate) fn copy_origin(alloc: Global, body: &SentBody) -> Result<Origin, NoMemory>
    ensures { IfOk result (λ o. o ≡ copy_origin (view body.now)) }
{
    match body.source() {
        Some(source) => copied_from(alloc, copied_at(source)),
        None => Ok(Origin::None),
    }
}
