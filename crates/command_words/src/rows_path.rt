//! Where rows are kept, as the options of a program say.
ghost use Rattle.std.specs.Prelude.{◌≡◌, true, option_map, IfOk};
ghost use Rattle.std.specs.Option.{option_map_or};
ghost use Rattle.clap.specs.Words.{found_of, rows_of};
ghost use Rattle.command_words.specs.RowsPaths.{are_values, is_file, is_given, is_one_file, is_path, rows_path};
ghost use Rattle.command_words.specs.RowsPaths.{store_options};

use crate::reading::value_of;
use clap::ArgMatches;
use size_values::{NoMemory, Text};
use std::alloc::Global;

/// Where rows are kept: in memory, in the SQLite file at a path, or in the journal at a path. No path is empty.
#[derive(Drop)]
pub enum RowsPath {
    Memory,
    Database(Text),
    Journal(Text),
}

/// Whether a value may be the path of a file.
fn is_path(value: &str) -> bool
    ensures { result ≡ is_path value.now }
{
    !value.is_empty()
}

/// Whether an option has a value that may be the path of a file, if it is given.
pub(crate) fn takes_path(value: Option<&str>) -> bool
    ensures { result ≡ option_map_or is_path (option_map (λ v. v.now) value.entry) true }
{
    match value {
        Some(value) => is_path(value),
        None => true,
    }
}

/// Whether the options `--db` and `--journal` have values that they take.
pub(crate) fn are_store_values(given: &ArgMatches<'_>) -> bool
    ensures { result ≡ are_values store_options (rows_of (found_of given.now)) }
{
    takes_path(value_of(given, "db")) && takes_path(value_of(given, "journal"))
}

/// Whether an option of this name is given.
pub(crate) fn is_given(name: &str, given: &ArgMatches<'_>) -> bool
    ensures { result ≡ is_given name.now (rows_of (found_of given.now)) }
{
    value_of(given, name).is_some()
}

/// Whether the options `--db` and `--journal` name one file at most.
pub(crate) fn is_one_file(given: &ArgMatches<'_>) -> bool
    ensures { result ≡ is_one_file (rows_of (found_of given.now)) }
{
    !(is_given("db", given) && is_given("journal", given))
}

/// Whether they name a file.
pub(crate) fn is_file(given: &ArgMatches<'_>) -> bool
    ensures { result ≡ is_file (rows_of (found_of given.now)) }
{
    is_given("db", given) || is_given("journal", given)
}

/// Where the options say that rows are kept.
pub(crate) fn rows_path(alloc: Global, given: &ArgMatches<'_>) -> Result<RowsPath, NoMemory>
    ensures { IfOk result (λ path. path ≡ rows_path (rows_of (found_of given.now))) }
{
    if let Some(path) = value_of(given, "db") {
        return Ok(RowsPath::Database(Text::from_text(alloc, path)?));
    }
    match value_of(given, "journal") {
        Some(path) => Ok(RowsPath::Journal(Text::from_text(alloc, path)?)),
        None => Ok(RowsPath::Memory),
    }
}
