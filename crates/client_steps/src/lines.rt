//! What is printed.
ghost use Rattle.std.specs.Prelude.{◌≡◌, ◌++◌, ◌∷◌, IfOk, None, false, codes, option_map, replicate, string_bytes};
ghost use Rattle.std.specs.Str.{byte};
ghost use Rattle.serde_json.specs.Find.{as_object};
ghost use Rattle.serde_json.specs.View.{members_view, view};
ghost use Rattle.serde_json.specs.Written.{compact_text};
ghost use Rattle.client_steps.specs.Rows.{heading_of};
ghost use Rattle.client_steps.specs.Lines.{error_line, kept_parts, line, lines, no_widths, padded, parts_behind};
ghost use Rattle.client_steps.specs.Lines.{rest_of_line, says_parts, text_of, unsaid_parts, widest, widths_of, worded};
ghost use Rattle.client_steps.specs.Lines.{worded_as};

use crate::cells::{Cells, decimal};
use crate::rows::heading_of;
use client_replies::Metadata;
use client_words::{Asks, Format};
use serde_json::{Map, Value};
use size_values::{NoMemory, Text};
use std::alloc::Global;

/// How many bytes the cells before the last one of a row are wide.
#[derive(Clone, Copy)]
pub struct Widths {
    pub first: usize,
    pub second: usize,
}

/// No width at all, so that cells stand as they are.
const NO_WIDTHS: Widths = Widths {
    first: 0,
    second: 0,
};

/// Adds spaces.
fn push_spaces(text: &mut String, count: usize) -> Result<(), NoMemory>
    ensures { IfOk result (λ _. string_bytes text.new ≡ string_bytes text.old ++ replicate count (byte " ")) }
{
    for _space in 0..count {
        text.push(' ')?;
    }
    Ok(())
}

/// Adds a cell with spaces behind it, up to a width.
fn push_padded(text: &mut String, width: usize, cell: &str) -> Result<(), NoMemory>
    ensures { IfOk result (λ _. string_bytes text.new ≡ string_bytes text.old ++ padded width cell.now) }
{
    text.push_str(cell)?;
    push_spaces(text, width.saturating_sub(cell.len()))
}

/// Adds the cells behind the first one.
fn push_rest(text: &mut String, width: usize, row: &Cells) -> Result<(), NoMemory>
    ensures { IfOk result (λ _. string_bytes text.new
        ≡ string_bytes text.old ++ rest_of_line width row.now.second row.now.third) }
{
    match &row.third {
        Some(third) => {
            push_padded(text, width, row.second.view())?;
            text.push_str(" ")?;
            text.push_str(third.view())?;
        }
        None => text.push_str(row.second.view())?,
    }
    Ok(())
}

/// Adds a row as a line.
fn push_line(text: &mut String, widths: Widths, row: &Cells) -> Result<(), NoMemory>
    ensures { IfOk result (λ _. string_bytes text.new ≡ string_bytes text.old ++ line widths row.now) }
{
    push_padded(text, widths.first, row.first.view())?;
    text.push_str(" ")?;
    push_rest(text, widths.second, row)?;
    text.push_str("\n")?;
    Ok(())
}

/// Adds rows as lines.
fn push_lines(text: &mut String, widths: Widths, rows: &[Cells]) -> Result<(), NoMemory>
    ensures { IfOk result (λ _. string_bytes text.new ≡ string_bytes text.old ++ lines widths rows.now) }
{
    for row in rows {
        push_line(text, widths, row)?;
    }
    Ok(())
}

/// As wide as the longest cell of each column of a heading and its rows.
fn widths_of(heading: &Cells, rows: &[Cells]) -> Widths
    ensures { result ≡ widths_of (heading.now ∷ rows.now) }
{
    let mut first = heading.first.view().len();
    let mut second = heading.second.view().len();
    for row in rows {
        first = first.max(row.first.view().len());
        second = second.max(row.second.view().len());
    }
    Widths { first, second }
}

/// The rows as they are.
fn plain_text(alloc: Global, rows: &[Cells]) -> Result<Text, NoMemory>
    ensures { IfOk result (λ text. text ≡ lines no_widths rows.now) }
{
    let mut text = String::new(alloc);
    push_lines(&mut text, NO_WIDTHS, rows)?;
    Ok(Text::from_string(text))
}

/// The rows under a heading.
fn table_text(alloc: Global, heading: &Cells, rows: &[Cells]) -> Result<Text, NoMemory>
    ensures { IfOk result (λ text. text
        ≡ lines (widths_of (heading.now ∷ rows.now)) (heading.now ∷ rows.now)) }
{
    let widths = widths_of(heading, rows);
    let mut text = String::new(alloc);
    push_line(&mut text, widths, heading)?;
    push_lines(&mut text, widths, rows)?;
    Ok(Text::from_string(text))
}

/// The rows under the heading of a command.
fn table_of(alloc: Global, asks: &Asks, rows: &[Cells]) -> Result<Text, NoMemory>
    ensures { IfOk result (λ text. text
        ≡ lines (widths_of (heading_of asks.now ∷ rows.now)) (heading_of asks.now ∷ rows.now)) }
{
    let heading = heading_of(alloc, asks)?;
    let text = table_text(alloc, &heading, rows);
    drop(heading);
    text
}

/// The metadata as it came, in a line of its own.
fn json_text(alloc: Global, metadata: &Metadata) -> Result<Text, NoMemory>
    ensures { IfOk result (λ text. text ≡ compact_text (view metadata.now) ++ codes "\n") }
{
    let text = metadata.text(alloc)?;
    Text::joined(alloc, text.view(), "\n")
}

/// The rows of a command, or the metadata that they were read of.
pub(crate) fn text_of(
    alloc: Global,
    format: Format,
    asks: &Asks,
    rows: &[Cells],
    metadata: &Metadata,
) -> Result<Text, NoMemory>
    ensures { IfOk result (λ text. text ≡ text_of format (heading_of asks.now) rows.now (view metadata.now)) }
{
    match format {
        Format::Plain => plain_text(alloc, rows),
        Format::Table => table_of(alloc, asks, rows),
        Format::Json => json_text(alloc, metadata),
    }
}

/// A number in decimal, or a dash where there is none.
fn number_text(alloc: Global, number: Option<u64>) -> Result<Text, NoMemory>
    ensures { IfOk result (λ text. text ≡ worded_as None number) }
{
    match number {
        Some(number) => decimal(alloc, number),
        None => Text::from_text(alloc, "-"),
    }
}

/// Adds a value in words: a text as it is, a number that is not negative in decimal, and a dash for anything else.
fn push_worded(alloc: Global, text: &mut String, value: &Value) -> Result<(), NoMemory>
    ensures { IfOk result (λ _. string_bytes text.new ≡ string_bytes text.old ++ worded (view value.now)) }
{
    match value.as_str() {
        Some(said) => text.push_str(said)?,
        None => {
            let said = number_text(alloc, value.as_u64())?;
            text.push_str(said.view())?;
        }
    }
    Ok(())
}

/// Adds a key with its value in words, behind a mark.
fn push_part(
    alloc: Global,
    text: &mut String,
    mark: &str,
    key: &str,
    value: &Value,
) -> Result<(), NoMemory>
    ensures { IfOk result (λ _. string_bytes text.new
        ≡ string_bytes text.old ++ mark.now ++ key.now ++ codes " " ++ worded (view value.now)) }
{
    text.push_str(mark)?;
    text.push_str(key)?;
    text.push_str(" ")?;
    push_worded(alloc, text, value)
}

/// Adds the members of an object in words.
fn push_parts(
    alloc: Global,
    text: &mut String,
    members: &Map<String, Value>,
) -> Result<(), NoMemory>
    ensures { IfOk result (λ _. string_bytes text.new
        ≡ string_bytes text.old ++ parts_behind (codes ": ") (members_view members.now.entries)) }
{
    let mut mark = ": ";
    for (key, value) in members.iter() {
        push_part(alloc, text, mark, key, value)?;
        mark = ", ";
    }
    Ok(())
}

/// Adds the parts that an error keeps.
fn push_kept(alloc: Global, text: &mut String, kept: &Value) -> Result<(), NoMemory>
    ensures { IfOk result (λ _. string_bytes text.new
        ≡ string_bytes text.old ++ kept_parts (as_object (view kept.now))) }
{
    match kept.as_object() {
        Some(members) => push_parts(alloc, text, members),
        None => Ok(()),
    }
}

/// Whether a text says the parts that are kept: it goes on behind a colon.
fn says_parts(text: &str) -> bool
    ensures { result ≡ says_parts text.now }
{
    text.as_bytes().iter().any(|byte| *byte == b':')
}

/// Adds the parts that an error keeps, if there are some.
fn push_unsaid(alloc: Global, text: &mut String, kept: Option<&Metadata>) -> Result<(), NoMemory>
    ensures { IfOk result (λ _. string_bytes text.new
        ≡ string_bytes text.old ++ unsaid_parts false (option_map (λ m. view m.now) kept.entry)) }
{
    match kept {
        Some(kept) => push_kept(alloc, text, kept.value()),
        None => Ok(()),
    }
}

/// What is printed where something went wrong, with the parts that are kept, unless the text says them.
pub(crate) fn error_line(
    alloc: Global,
    text: &str,
    kept: Option<&Metadata>,
) -> Result<Text, NoMemory>
    ensures { IfOk result (λ line. line ≡ error_line text.now (option_map (λ m. view m.now) kept.entry)) }
{
    let mut line = String::from_str(alloc, "error: ")?;
    line.push_str(text)?;
    if !says_parts(text) {
        push_unsaid(alloc, &mut line, kept)?;
    }
    line.push_str("\n")?;
    Ok(Text::from_string(line))
}
