//! What the metadata of replies say, in rows.
ghost use Rattle.std.specs.Prelude.{◌≡◌, [], ◌∷◌, IfOk, Some};
ghost use Rattle.std.specs.Option.{option_and_then};
ghost use Rattle.serde_json.specs.Find.{as_array, as_object};
ghost use Rattle.serde_json.specs.View.{items_view, members_view, view};
ghost use Rattle.client_words.specs.declared.words.Asks.TheVariants as asks;
ghost use Rattle.client_steps.specs.Rows.{heading_of, instance_row, instance_rows, limit_row, limit_rows, rows_of, two};

use crate::cells::{Cells, headings, three, two};
use crate::members::{limit_at, text_at, usage_at};
use client_words::Asks;
use serde_json::{Map, Value};
use size_values::{NoMemory, Seq};
use std::alloc::Global;

/// An instance, by its name and its status.
fn instance_row(alloc: Global, value: &Value) -> Result<Option<Cells>, NoMemory>
    ensures { IfOk result (λ row. row ≡ instance_row (view value.now)) }
{
    match (text_at("name", value), text_at("status", value)) {
        (Some(name), Some(status)) => Ok(Some(two(alloc, name, status)?)),
        _ => Ok(None),
    }
}

/// Instances, where each has its form.
fn instance_rows(alloc: Global, values: &[Value]) -> Result<Option<Seq<Cells>>, NoMemory>
    ensures { IfOk result (λ rows. rows ≡ instance_rows (items_view values.now)) }
{
    let mut rows = Seq::new(alloc);
    for value in values {
        match instance_row(alloc, value)? {
            Some(row) => rows.push(row)?,
            None => return Ok(None),
        }
    }
    Ok(Some(rows))
}

/// A key with what is used of it and its limit.
fn limit_row(alloc: Global, key: &str, value: &Value) -> Result<Option<Cells>, NoMemory>
    ensures { IfOk result (λ row. row ≡ limit_row key.now (view value.now)) }
{
    match (usage_at(value), limit_at(value)) {
        (Some(usage), Some(limit)) => Ok(Some(three(alloc, key, usage, limit)?)),
        _ => Ok(None),
    }
}

/// Keys with what is used of them and their limits, where each has its form.
fn limit_rows(alloc: Global, members: &Map<String, Value>) -> Result<Option<Seq<Cells>>, NoMemory>
    ensures { IfOk result (λ rows. rows ≡ limit_rows (members_view members.now.entries)) }
{
    let mut rows = Seq::new(alloc);
    for (key, value) in members.iter() {
        match limit_row(alloc, key, value)? {
            Some(row) => rows.push(row)?,
            None => return Ok(None),
        }
    }
    Ok(Some(rows))
}

/// The instances of a list.
fn listed_rows(alloc: Global, body: &Value) -> Result<Option<Seq<Cells>>, NoMemory>
    ensures { IfOk result (λ rows. rows ≡ option_and_then instance_rows (as_array (view body.now))) }
{
    match body.as_array() {
        Some(values) => instance_rows(alloc, values),
        None => Ok(None),
    }
}

/// The resources of a project.
fn resource_rows(alloc: Global, body: &Value) -> Result<Option<Seq<Cells>>, NoMemory>
    ensures { IfOk result (λ rows. rows ≡ rows_of asks.Limits (view body.now)) }
{
    match body.get("resources").and_then(Value::as_object) {
        Some(members) => limit_rows(alloc, members),
        None => Ok(None),
    }
}

/// One row of two cells.
fn one_row(alloc: Global, first: &str, second: &str) -> Result<Option<Seq<Cells>>, NoMemory>
    ensures { IfOk result (λ rows. rows ≡ Some (two first.now second.now ∷ [])) }
{
    let mut rows = Seq::new(alloc);
    rows.push(two(alloc, first, second)?)?;
    Ok(Some(rows))
}

/// An operation with its status.
fn waited_rows(alloc: Global, id: &str, body: &Value) -> Result<Option<Seq<Cells>>, NoMemory>
    ensures { IfOk result (λ rows. rows ≡ rows_of (asks.Wait id.now) (view body.now)) }
{
    match text_at("status", body) {
        Some(status) => one_row(alloc, id, status),
        None => Ok(None),
    }
}

/// What a command tells once all of its requests were answered well, by the metadata of the last reply; None where that has
/// not the form that it has behind such a request.
pub(crate) fn rows_of(
    alloc: Global,
    asks: &Asks,
    body: &Value,
) -> Result<Option<Seq<Cells>>, NoMemory>
    ensures { IfOk result (λ rows. rows ≡ rows_of asks.now (view body.now)) }
{
    match asks {
        Asks::List { .. } => listed_rows(alloc, body),
        Asks::Launch { name } => one_row(alloc, name.view(), "Running"),
        Asks::Start { name } => one_row(alloc, name.view(), "Running"),
        Asks::Stop { name } => one_row(alloc, name.view(), "Stopped"),
        Asks::Delete { name } => one_row(alloc, name.view(), "deleted"),
        Asks::Wait { id } => waited_rows(alloc, id.view(), body),
        Asks::Cancel { id } => one_row(alloc, id.view(), "cancelled"),
        Asks::Limits => resource_rows(alloc, body),
    }
}

/// What the columns hold.
pub(crate) fn heading_of(alloc: Global, asks: &Asks) -> Result<Cells, NoMemory>
    ensures { IfOk result (λ row. row ≡ heading_of asks.now) }
{
    match asks {
        Asks::Limits => headings(alloc, "KEY", "USAGE", "LIMIT"),
        Asks::Wait { .. } => two(alloc, "ID", "STATUS"),
        Asks::Cancel { .. } => two(alloc, "ID", "STATUS"),
        _ => two(alloc, "NAME", "STATUS"),
    }
}
