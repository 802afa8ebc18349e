//! What the words say of the outside.
ghost use Rattle.std.specs.Prelude.{◌≡◌, [], map, is_some, IfOk, string_bytes, if◌then◌else◌};
ghost use Rattle.std.specs.Option.{option_and_then, option_map_or};
ghost use Rattle.clap.specs.Words.{found_of, rows_of, subcommand_rows_of};
ghost use Rattle.command_words.specs.RunWords.{failing_calls, words_of_command, no_setup, setup_of_options, setup_of};

use crate::reading::value_of;
use crate::rows_path::{RowsPath, rows_path};
use crate::run_program::parsed_command;
use crate::run_values::call_numbers_said;
use crate::run_words::command_words_of;
use clap::ArgMatches;
use size_values::{NoMemory, Seq};
use std::alloc::Global;

/// Where the rows are kept, and which calls of the host and of the keeper are to fail. Calls are numbered from 1.
#[derive(Drop)]
pub struct Setup {
    pub rows: RowsPath,
    pub fail_host: Seq<u64>,
    pub fail_keeper: Seq<u64>,
}

/// The numbers of the calls that the option of this name lists.
fn failing_calls(alloc: Global, given: &ArgMatches<'_>, name: &str) -> Result<Seq<u64>, NoMemory>
    ensures { IfOk result (λ calls. calls ≡ failing_calls (rows_of (found_of given.now)) name.now) }
{
    match value_of(given, name) {
        Some(value) => call_numbers_said(alloc, value),
        None => Ok(Seq::new(alloc)),
    }
}

/// What the options of a command say of the outside.
fn setup_of_options(alloc: Global, given: &ArgMatches<'_>) -> Result<Setup, NoMemory>
    ensures { IfOk result (λ setup. setup ≡ setup_of_options (rows_of (found_of given.now))) }
{
    let rows = rows_path(alloc, given)?;
    let fail_host = failing_calls(alloc, given, "fail-host")?;
    let fail_keeper = failing_calls(alloc, given, "fail-keeper")?;
    Ok(Setup {
        rows,
        fail_host,
        fail_keeper,
    })
}

/// Rows in memory, and no failing calls. It takes no memory.
fn no_setup(alloc: Global) -> Setup
    ensures { result ≡ no_setup }
{
    Setup {
        rows: RowsPath::Memory,
        fail_host: Seq::new(alloc),
        fail_keeper: Seq::new(alloc),
    }
}

/// What the words say of the outside, where they name a command that says something.
fn setup_of_command(alloc: Global, given: &ArgMatches<'_>) -> Result<Setup, NoMemory>
    ensures { IfOk result (λ setup. setup ≡ (if is_some
        (option_and_then (λ command. words_of_command command.0 command.1) (subcommand_rows_of given.now))
        then setup_of_options (option_map_or (λ command. command.1) (subcommand_rows_of given.now) []) else no_setup)) }
{
    if command_words_of(given).is_none() {
        return Ok(no_setup(alloc));
    }
    match given.subcommand() {
        Some((_, values)) => setup_of_options(alloc, values),
        None => Ok(no_setup(alloc)),
    }
}

/// The same, where the words name a command.
fn setup_of_matches(alloc: Global, given: &Option<ArgMatches<'_>>) -> Result<Setup, NoMemory>
    ensures { IfOk result (λ setup. setup ≡ (if is_some
        (option_and_then (λ command. words_of_command command.0 command.1)
        (option_and_then subcommand_rows_of given.now))
        then setup_of_options (option_map_or (λ command. command.1) (option_and_then subcommand_rows_of given.now) [])
        else no_setup)) }
{
    match given {
        Some(given) => setup_of_command(alloc, given),
        None => Ok(no_setup(alloc)),
    }
}

/// The file that the words name in `--db` or `--journal`, and the calls that they list in `--fail-host` and
/// `--fail-keeper`; no file and no calls where they are not read.
#[tactic(auto, unfolding(crate::specs::RunWords::words_of))]
pub fn setup_of(alloc: Global, words: &[String]) -> Result<Setup, NoMemory>
    ensures { IfOk result (λ setup. setup ≡ setup_of (map (λ w. string_bytes w) words.now)) }
{
    let given = parsed_command(alloc, words)?;
    let setup = setup_of_matches(alloc, &given);
    drop(given);
    setup
}
