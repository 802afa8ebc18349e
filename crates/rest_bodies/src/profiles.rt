ghost use Rattle.std.specs.Prelude.{◌≡◌, ◌++◌, IfOk, OnOk, option_map, length};
ghost use Rattle.serde_json.specs.View.{view, items_view};
ghost use Rattle.serde_json.specs.Find.{as_str};
ghost use Rattle.records.specs.Forms.{most_profiles};
ghost use Rattle.rest_bodies.specs.Profiles.{is_text, are_texts, is_here, is_among, comes_again, are_distinct};
ghost use Rattle.rest_bodies.specs.Profiles.{are_names, fits_profiles, text_in, texts_in, profiles_in, profiles_at};

use crate::keys::Key;
use crate::sent::SentBody;
use serde_json::Value;
use size_values::{NoMemory, Seq, Text};
use std::alloc::Global;

fn is_text(value: &Value) -> bool
    ensures { result ≡ is_text (view value.now) }
{
    value.as_str().is_some()
}

fn are_texts(values: &[Value]) -> bool
    ensures { result ≡ are_texts (items_view values.now) }
{
    for value in values {
        if !is_text(value) {
            return false;
        }
    }
    true
}

fn is_here(text: &str, value: &Value) -> bool
    ensures { result ≡ is_here text.now (as_str (view value.now)) }
{
    match value.as_str() {
        Some(found) => text == found,
        None => false,
    }
}

/// Whether one of these values is the text.
fn is_among(text: &str, values: &[Value]) -> bool
    ensures { result ≡ is_among text.now (items_view values.now) }
{
    for value in values {
        if is_here(text, value) {
            return true;
        }
    }
    false
}

fn comes_again(value: &Value, more: &[Value]) -> bool
    ensures { result ≡ comes_again (as_str (view value.now)) (items_view more.now) }
{
    match value.as_str() {
        Some(text) => is_among(text, more),
        None => false,
    }
}

/// Whether no text comes twice. The work grows with the square, so long lists are not asked about.
fn are_distinct(values: &[Value]) -> bool
    ensures { result ≡ are_distinct (items_view values.now) }
{
    for index in 0..values.len() {
        if comes_again(&values[index], &values[index + 1..]) {
            return false;
        }
    }
    true
}

fn are_names(values: &[Value]) -> bool
    ensures { result ≡ are_names (length values.now) (items_view values.now) }
{
    values.len() <= 64 && are_texts(values) && are_distinct(values)
}

/// Whether a value is a list of texts, each once, at most 64.
#[tactic(auto, unfolding(crate::specs::Profiles::fits_profiles), using(crate::proofs::Counted::counted))]
pub(crate) fn fits_profiles(value: &Value) -> bool
    ensures { result ≡ fits_profiles (view value.now) }
{
    match value.as_array() {
        Some(values) => are_names(values),
        None => false,
    }
}

/// Adds a text. What is no text adds nothing.
fn push_text(texts: &mut Seq<Text>, alloc: Global, value: &Value) -> Result<(), NoMemory>
    ensures { OnOk result (texts.new ≡ texts.old ++ text_in (as_str (view value.now))) }
{
    let Some(text) = value.as_str() else {
        return Ok(());
    };
    texts.push(Text::from_text(alloc, text)?)
}

fn texts_in(alloc: Global, values: &[Value]) -> Result<Seq<Text>, NoMemory>
    ensures { IfOk result (λ texts. texts ≡ texts_in (items_view values.now)) }
{
    let mut texts = Seq::new(alloc);
    for value in values {
        push_text(&mut texts, alloc, value)?;
    }
    Ok(texts)
}

#[tactic(auto, unfolding(crate::specs::Profiles::profiles_in))]
fn profiles_in(alloc: Global, value: &Value) -> Result<Seq<Text>, NoMemory>
    ensures { IfOk result (λ texts. texts ≡ profiles_in (view value.now)) }
{
    match value.as_array() {
        Some(values) => texts_in(alloc, values),
        None => Ok(Seq::new(alloc)),
    }
}

/// The profiles that a body names, if it has the field.
#[tactic(auto, unfolding(crate::specs::Profiles::profiles_at))]
pub(crate) fn profiles_at(alloc: Global, body: &SentBody) -> Result<Option<Seq<Text>>, NoMemory>
    ensures { IfOk result (λ o. o ≡ profiles_at (view body.now)) }
{
    match body.field(Key::Profiles) {
        Some(value) => Ok(Some(profiles_in(alloc, value)?)),
        None => Ok(None),
    }
}
