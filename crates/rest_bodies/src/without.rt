//! Bodies read without some of their members: those that the command `incus` sends with a value that says nothing.
ghost use Rattle.std.specs.Prelude.{◌≡◌, [], false, IfOk, option_and_then, option_map, unwrap_or, codes};
ghost use Rattle.serde_json.specs.Find.{as_bool, as_str, get};
ghost use Rattle.serde_json.specs.View.{view};
ghost use Rattle.rest_bodies.specs.Origins.{has_word};
ghost use Rattle.rest_bodies.specs.Without.{without, without_empty, without_untyped_source, without_start};
ghost use Rattle.rest_bodies.specs.Without.{own_snapshot, with_text, with_own_snapshot};

use crate::members::{copy_of, is_word};
use serde_json::Value;
use size_values::NoMemory;
use std::alloc::Global;

/// The body without the member of a key.
fn without(body: Value, key: &str) -> Value
    ensures { view result ≡ without key.now (view body) }
{
    match body {
        Value::Object(mut members) => {
            drop(members.remove(key));
            Value::Object(members)
        }
        other => other,
    }
}

/// Whether the member of a key is the empty text.
fn is_empty_at(body: &Value, key: &str) -> bool
    ensures { result ≡ has_word [] (get key.now (view body.now)) }
{
    match body.get(key) {
        Some(value) => is_word("", value),
        None => false,
    }
}

/// The body without the member of a key, if that is the empty text.
#[tactic(auto, unfolding(crate::specs::Without::without_empty))]
pub fn without_empty(body: Value, key: &str) -> Value
    ensures { view result ≡ without_empty key.now (view body) }
{
    if is_empty_at(&body, key) {
        without(body, key)
    } else {
        body
    }
}

/// Whether the source of a body has the empty text for its type.
fn has_untyped_source(body: &Value) -> bool
    ensures { result ≡ has_word [] (option_and_then (get (codes "type")) (get (codes "source") (view body.now))) }
{
    match body.get("source") {
        Some(source) => is_empty_at(source, "type"),
        None => false,
    }
}

/// The body without its source, if the source's type is the empty text.
#[tactic(auto, unfolding(crate::specs::Without::without_untyped_source))]
pub fn without_untyped_source(body: Value) -> Value
    ensures { view result ≡ without_untyped_source (view body) }
{
    if has_untyped_source(&body) {
        without(body, "source")
    } else {
        body
    }
}

/// Whether a body says that a new instance starts.
fn says_start(body: &Value) -> bool
    ensures { result ≡ unwrap_or (option_and_then as_bool (get (codes "start") (view body.now))) false }
{
    match body.get("start") {
        Some(value) => value.as_bool().unwrap_or(false),
        None => false,
    }
}

/// The body without its `start`, if that is true.
#[tactic(auto, unfolding(crate::specs::Without::without_start))]
pub fn without_start(body: Value) -> Value
    ensures { view result ≡ without_start (view body) }
{
    if says_start(&body) {
        without(body, "start")
    } else {
        body
    }
}

/// The snapshot in a text `INSTANCE/SNAPSHOT` that begins with the name of this instance.
#[tactic(auto, unfolding(crate::specs::Without::own_snapshot))]
fn own_snapshot<'a>(instance: &str, text: &'a str) -> Option<&'a str>
    ensures { option_map (λ s. s.now) result ≡ own_snapshot instance.now text.now }
{
    match text.split_once('/') {
        Some((name, snapshot)) => {
            if name == instance {
                Some(snapshot)
            } else {
                None
            }
        }
        None => None,
    }
}

/// The body with a text at a key.
fn with_text(alloc: Global, body: Value, key: &str, text: &str) -> Result<Value, NoMemory>
    ensures { IfOk result (λ v. view v ≡ with_text key.now (view body) text.now) }
{
    match body {
        Value::Object(mut members) => {
            let text = Value::String(String::from_str(alloc, text)?);
            serde_json::put(&mut members, alloc, key, text)?;
            Ok(Value::Object(members))
        }
        other => Ok(other),
    }
}

/// The snapshot that the `restore` of a body names behind this instance.
fn restored<'a>(instance: &str, body: &'a Value) -> Option<&'a str>
    ensures { option_map (λ s. s.now) result
        ≡ option_and_then (own_snapshot instance.now) (option_and_then as_str (get (codes "restore") (view body.now))) }
{
    match body.get("restore") {
        Some(value) => match value.as_str() {
            Some(text) => own_snapshot(instance, text),
            None => None,
        },
        None => None,
    }
}

/// The body with the snapshot alone, if its `restore` names it behind its instance, which is this one.
#[tactic(auto, unfolding(crate::specs::Without::with_own_snapshot))]
pub fn with_own_snapshot(alloc: Global, body: Value, instance: &str) -> Result<Value, NoMemory>
    ensures { IfOk result (λ v. view v ≡ with_own_snapshot instance.now (view body)) }
{
    let snapshot = copy_of(alloc, restored(instance, &body))?;
    match snapshot {
        Some(snapshot) => with_text(alloc, body, "restore", snapshot.view()),
        None => Ok(body),
    }
}
