//! What the header of a run says.

use crate::tables::{Fault, Table};
use size_values::NoMemory;
use std::alloc::Global;

/// A header: the words of the command line, how the run ends, and its settings.
#[derive(Clone, Copy)]
pub(crate) struct Header<'a> {
    pub line: &'a str,
    pub words: &'a str,
    pub end: &'a str,
    pub settings: &'a str,
}

/// The header that a line says, after its `~`.
pub(crate) fn header_of(line: &str) -> Header<'_> {
    let (run, settings) = line.split_once(" / ").unwrap_or((line, ""));
    let (words, end) = run.split_once(" = ").unwrap_or((run, ""));
    Header {
        line,
        words,
        end,
        settings,
    }
}

/// The value of the setting of this name; the empty text where there is none.
pub(crate) fn value_of<'a>(settings: &'a str, name: &str) -> &'a str {
    for setting in settings.split(" / ") {
        match setting.split_once(' ') {
            Some((first, value)) if first == name => return value,
            _ => {}
        }
    }
    ""
}

/// The place or the number that a text says, and the places from one to another one.
fn places_of(text: &str) -> Option<(u64, u64)> {
    let (first, last) = text.split_once("..")?;
    match (first.parse::<u64>(), last.parse::<u64>()) {
        (Ok(first), Ok(last)) if first <= last => Some((first, last)),
        _ => None,
    }
}

/// What goes wrong in the runs of a table that a setting of this name asks for.
fn fault_of(name: &str) -> Option<Fault> {
    match name {
        "cut" => Some(Fault::Cut),
        "reads" => Some(Fault::Read),
        "writes" => Some(Fault::Write),
        "fail-keeper" => Some(Fault::Keeper),
        "fail-host" => Some(Fault::Host),
        "entries" => Some(Fault::Entry),
        _ => None,
    }
}

/// The table that a setting asks for, if it asks for one.
fn table_in(setting: &str) -> Option<Table> {
    let (name, value) = setting.split_once(' ')?;
    let fault = fault_of(name)?;
    if value == "each" {
        return Some(Table { fault, range: None });
    }
    if fault != Fault::Cut {
        return None;
    }
    let range = places_of(value)?;
    Some(Table {
        fault,
        range: Some(range),
    })
}

/// The table that the settings ask for, if they ask for one.
pub(crate) fn table_of(settings: &str) -> Option<Table> {
    for setting in settings.split(" / ") {
        if let Some(table) = table_in(setting) {
            return Some(table);
        }
    }
    None
}

/// Whether a text says numbers of calls, with a comma between them.
fn are_numbers(text: &str) -> bool {
    for number in text.split(',') {
        if !matches!(number.parse::<u64>(), Ok(1..)) {
            return false;
        }
    }
    true
}

/// Whether it is a setting.
fn is_setting(setting: &str) -> bool {
    let (name, value) = setting.split_once(' ').unwrap_or((setting, ""));
    match name {
        "piece" => matches!(value.parse::<usize>(), Ok(1..)),
        "reads" | "writes" => value == "each" || are_numbers(value),
        _ => table_in(setting).is_some(),
    }
}

/// The first of the settings that is none, or that asks for a second table.
pub(crate) fn bad_setting(settings: &str) -> Option<&str> {
    let mut has_table = false;
    for setting in settings.split(" / ").filter(|setting| !setting.is_empty()) {
        let is_table = table_in(setting).is_some();
        if !is_setting(setting) || (has_table && is_table) {
            return Some(setting);
        }
        has_table = has_table || is_table;
    }
    None
}

/// The numbers of a text, with a comma between them.
pub(crate) fn numbers_of(alloc: Global, text: &str) -> Result<Vec<u64>, NoMemory> {
    let mut numbers = Vec::new(alloc);
    for number in text.split(',') {
        if let Ok(number) = number.parse::<u64>() {
            numbers.push(number)?;
        }
    }
    Ok(numbers)
}

/// Appends the words of a text, with a space between them.
fn push_words(alloc: Global, words: &mut Vec<String>, text: &str) -> Result<(), NoMemory> {
    for word in text.split(' ').filter(|word| !word.is_empty()) {
        words.push(String::from_str(alloc, word)?)?;
    }
    Ok(())
}

/// Appends one word.
fn push_word(alloc: Global, words: &mut Vec<String>, word: &str) -> Result<(), NoMemory> {
    words.push(String::from_str(alloc, word)?)?;
    Ok(())
}

/// The words of a text; those in double quotes as they stand.
pub(crate) fn words_of(alloc: Global, text: &str) -> Result<Vec<String>, NoMemory> {
    let mut words = Vec::new(alloc);
    for (place, part) in text.split('"').enumerate() {
        if place % 2 == 1 {
            push_word(alloc, &mut words, part)?;
        } else {
            push_words(alloc, &mut words, part)?;
        }
    }
    Ok(words)
}
