//! Events as they are printed.
ghost use Rattle.std.specs.Prelude.{◌≡◌, ◌++◌, Some, codes, IfOk, option_map, unwrap_or};
ghost use Rattle.std.specs.Option.{option_and_then};
ghost use Rattle.serde_json.specs.Find.{get};
ghost use Rattle.serde_json.specs.View.{view};
ghost use Rattle.client_events.specs.Columns.{columns_of, event_line, life_told, operation_told};
ghost use Rattle.client_events.specs.Columns.{printed, rest_of, spaced, text_at, told_by};

use crate::members::text_at;
use rest_bodies::object_in;
use serde_json::Value;
use size_values::{NoMemory, Seq, Text};
use std::alloc::Global;

/// How events are printed, each with a line feed behind it.
#[derive(Clone, Copy, Debug, PartialEq, Eq)]
pub enum EventForm {
    /// `TIME TYPE PROJECT WHAT`, with `-` where an event has no project. An operation is told by `ID STATUS`, and its
    /// description where it has one; a change of an object by `ACTION SOURCE`; and events of other types by `-`.
    Columns,
    /// The text as the server sent it.
    AsSent,
}

/// Two texts with a space between them.
fn both(alloc: Global, first: &str, second: &str) -> Result<Text, NoMemory>
    ensures { IfOk result (λ text. text ≡ first.now ++ codes " " ++ second.now) }
{
    let mut text = String::from_str(alloc, first)?;
    text.push_str(" ")?;
    text.push_str(second)?;
    Ok(Text::from_string(text))
}

/// The same, where both are there.
fn spaced(
    alloc: Global,
    first: Option<&str>,
    second: Option<&str>,
) -> Result<Option<Text>, NoMemory>
    ensures { IfOk result (λ text. text
        ≡ spaced (option_map (λ t. t.now) first.entry) (option_map (λ t. t.now) second.entry)) }
{
    match (first, second) {
        (Some(first), Some(second)) => Ok(Some(both(alloc, first, second)?)),
        _ => Ok(None),
    }
}

/// An operation by its id and its status, and its description where it has one.
fn operation_told(alloc: Global, body: &Value) -> Result<Option<Text>, NoMemory>
    ensures { IfOk result (λ text. text ≡ operation_told (view body.now)) }
{
    match spaced(alloc, text_at("id", body), text_at("status", body))? {
        Some(told) => match text_at("description", body) {
            Some(more) => Ok(Some(both(alloc, told.view(), more)?)),
            None => Ok(Some(told)),
        },
        None => Ok(None),
    }
}

/// What was done, and to which object.
fn life_told(alloc: Global, body: &Value) -> Result<Option<Text>, NoMemory>
    ensures { IfOk result (λ text. text ≡ life_told (view body.now)) }
{
    spaced(alloc, text_at("action", body), text_at("source", body))
}

/// What the metadata of an operation's event tell.
fn operation_at(alloc: Global, event: &Value) -> Result<Option<Text>, NoMemory>
    ensures { IfOk result (λ text. text ≡ option_and_then operation_told (get (codes "metadata") (view event.now))) }
{
    match event.get("metadata") {
        Some(body) => operation_told(alloc, body),
        None => Ok(None),
    }
}

/// What the metadata of the event of a change tell.
fn life_at(alloc: Global, event: &Value) -> Result<Option<Text>, NoMemory>
    ensures { IfOk result (λ text. text ≡ option_and_then life_told (get (codes "metadata") (view event.now))) }
{
    match event.get("metadata") {
        Some(body) => life_told(alloc, body),
        None => Ok(None),
    }
}

/// What an event of this type tells.
fn told_by(alloc: Global, kind: &str, event: &Value) -> Result<Option<Text>, NoMemory>
    ensures { IfOk result (λ text. text ≡ told_by kind.now (view event.now)) }
{
    if kind == "operation" {
        operation_at(alloc, event)
    } else if kind == "lifecycle" {
        life_at(alloc, event)
    } else {
        Ok(Some(Text::from_text(alloc, "-")?))
    }
}

/// The project of an event, or a dash where it has none.
fn project_of(event: &Value) -> &str
    ensures { result.now ≡ unwrap_or (text_at (codes "project") (view event.now)) (codes "-") }
{
    match text_at("project", event) {
        Some(project) => project,
        None => "-",
    }
}

/// What an event of this type tells, behind its project.
fn rest_of(alloc: Global, kind: &str, event: &Value) -> Result<Option<Text>, NoMemory>
    ensures { IfOk result (λ text. text ≡ rest_of kind.now (view event.now)) }
{
    match told_by(alloc, kind, event)? {
        Some(told) => Ok(Some(both(alloc, project_of(event), told.view())?)),
        None => Ok(None),
    }
}

/// What an event of this time and this type is in columns.
fn columns_at(
    alloc: Global,
    time: &str,
    kind: &str,
    event: &Value,
) -> Result<Option<Text>, NoMemory>
    ensures { IfOk result (λ text. text
        ≡ spaced (Some (time.now ++ codes " " ++ kind.now)) (rest_of kind.now (view event.now))) }
{
    match rest_of(alloc, kind, event)? {
        Some(rest) => {
            let front = both(alloc, time, kind)?;
            Ok(Some(both(alloc, front.view(), rest.view())?))
        }
        None => Ok(None),
    }
}

/// Time, type, project and what the event tells, if it is one.
fn columns_of(alloc: Global, event: &Value) -> Result<Option<Text>, NoMemory>
    ensures { IfOk result (λ text. text ≡ columns_of (view event.now)) }
{
    match (text_at("timestamp", event), text_at("type", event)) {
        (Some(time), Some(kind)) => columns_at(alloc, time, kind, event),
        _ => Ok(None),
    }
}

/// Bytes with a line feed behind them.
fn ended(alloc: Global, bytes: &[u8]) -> Result<Seq<u8>, NoMemory>
    ensures { IfOk result (λ line. line ≡ bytes.now ++ codes "\n") }
{
    let mut line = Seq::of_bytes(alloc, bytes)?;
    line.push(b'\n')?;
    Ok(line)
}

/// What is printed of an event.
fn printed(alloc: Global, form: EventForm, text: &[u8], columns: &Text) -> Result<Seq<u8>, NoMemory>
    ensures { IfOk result (λ line. line ≡ printed form text.now columns.now) }
{
    match form {
        EventForm::Columns => ended(alloc, columns.view().as_bytes()),
        EventForm::AsSent => ended(alloc, text),
    }
}

/// What is printed of the text of an event, if it is one.
pub(crate) fn event_line(
    alloc: Global,
    form: EventForm,
    text: &[u8],
) -> Result<Option<Seq<u8>>, NoMemory>
    ensures { IfOk result (λ line. line ≡ event_line form text.now) }
{
    let Some(event) = object_in(alloc, text)? else {
        return Ok(None);
    };
    match columns_of(alloc, &event)? {
        Some(columns) => Ok(Some(printed(alloc, form, text, &columns)?)),
        None => Ok(None),
    }
}
