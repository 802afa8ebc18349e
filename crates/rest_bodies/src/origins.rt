ghost use Rattle.std.specs.Prelude.{◌≡◌, IfOk, Some, false, option_map, codes};
ghost use Rattle.std.specs.Option.{option_map_or};
ghost use Rattle.serde_json.specs.View.{view};
ghost use Rattle.rest_bodies.specs.Members.{non_null_member};
ghost use Rattle.rest_bodies.specs.Origins.{may_be_text, has_word, is_copy_source, asks_for_copy, fits_source};
ghost use Rattle.rest_bodies.specs.Origins.{source_pool, volume_copied, volume_origin};

use crate::given::Given;
use crate::keys::Key;
use crate::members::{is_word, name_in, str_at};
use crate::sent::SentBody;
use records::Origin;
use serde_json::Value;
use size_values::{NoMemory, Text};
use std::alloc::Global;

fn may_be_text(field: Option<&Value>) -> bool
    ensures { result ≡ may_be_text (option_map (λ m. view m.now) field.entry) }
{
    match field {
        Some(value) => value.as_str().is_some(),
        None => true,
    }
}

pub(crate) fn has_word(word: &str, field: Option<&Value>) -> bool
    ensures { result ≡ has_word word.now (option_map (λ m. view m.now) field.entry) }
{
    match field {
        Some(value) => is_word(word, value),
        None => false,
    }
}

/// Whether a source is an object with the type `copy`, whatever else it says.
fn is_copy_source(source: &Given) -> bool
    ensures { result ≡ is_copy_source (view source.now) }
{
    has_word("copy", source.member(Key::Type))
}

/// Whether a body asks for a copy of an object, whatever else it says.
#[tactic(auto, unfolding(crate::specs::Origins::asks_for_copy))]
pub fn asks_for_copy(body: &SentBody) -> bool
    ensures { result ≡ asks_for_copy (view body.now) }
{
    match body.source() {
        Some(source) => is_copy_source(source),
        None => false,
    }
}

/// Whether a value is the source of a volume: an object with the type `copy`, the name of a volume, and maybe its pool.
#[tactic(auto, unfolding(crate::specs::Origins::fits_source))]
fn fits_source(source: &Given) -> bool
    ensures { result ≡ fits_source (view source.now) }
{
    is_copy_source(source)
        && str_at(Key::Name, source).is_some()
        && may_be_text(source.member(Key::Pool))
}

/// Whether the source of a body is that of a volume.
pub(crate) fn has_volume_source(body: &SentBody) -> bool
    ensures { result ≡ option_map_or fits_source (non_null_member (codes "source") (view body.now)) false }
{
    match body.source() {
        Some(source) => fits_source(source),
        None => false,
    }
}

/// The pool that a source names. Only where it names none, not where its text is empty, the path's pool is meant.
fn source_pool<'a>(source: &Given<'a>, pool: &'a str) -> &'a str
    ensures { result.now ≡ source_pool (view source.now) pool.now }
{
    match str_at(Key::Pool, source) {
        Some(named) => named,
        None => pool,
    }
}

fn volume_copied(alloc: Global, source: &Given, pool: &str) -> Result<Origin, NoMemory>
    ensures { IfOk result (λ o. o ≡ volume_copied (Some (view source.now)) pool.now) }
{
    let pool = Text::from_text(alloc, source_pool(source, pool))?;
    let from = name_in(alloc, source)?;
    Ok(Origin::Copy {
        from,
        snapshot: Text::new(alloc),
        pool,
    })
}

/// What the body of a new volume makes it from, in the pool of its path: a copy of the volume that its `source` names,
/// or nothing where it has no `source`.
#[tactic(auto, unfolding(crate::specs::Origins::volume_origin))]
pub(crate) fn volume_origin(alloc: Global, body: &SentBody, pool: &str) -> Result<Origin, NoMemory>
    ensures { IfOk result (λ o. o ≡ volume_origin (view body.now) pool.now) }
{
    match body.source() {
        Some(source) => volume_copied(alloc, source, pool),
        None => Ok(Origin::None),
    }
}
