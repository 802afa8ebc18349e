//! What the words say.
ghost use Rattle.std.specs.Prelude.{◌≡◌, ◌<◌, ◌≤◌, true, map, option_map, is_some, codes, IfOk, IfSome, string_bytes};
ghost use Rattle.std.specs.Option.{option_and_then, option_map_or};
ghost use Rattle.clap.specs.Words.{first_of, found_of, rows_of, subcommand_rows_of};
ghost use Rattle.size_values.specs.Moments.{moment_limit};
ghost use Rattle.command_words.specs.RowsPaths.{are_values};
ghost use Rattle.command_words.specs.Values.{are_call_numbers, boot_said, dialect_said, moment_said, pace_said};
ghost use Rattle.command_words.specs.RunWords.{AreInRange, check_command_words, drill_command_words};
ghost use Rattle.command_words.specs.RunWords.{make_command_words, run_command_words, run_options, run_words_in};
ghost use Rattle.command_words.specs.RunWords.{stream_numbers, words_of, words_of_command};

use crate::reading::value_of;
use crate::rows_path::{are_store_values, is_file, is_given, is_one_file, takes_path};
use crate::run_program::parsed_command;
use crate::run_values::{
    are_call_numbers, boot_said, count_said, dialect_said, moment_said, pace_said, seed_said,
};
use clap::ArgMatches;
use rest_json::Dialect;
use size_values::NoMemory;
use std::alloc::Global;

/// How many steps of its work the worker takes after each reply, before the next request is read.
#[derive(Clone, Copy, PartialEq, Eq)]
pub enum Pace {
    /// At most so many, from 0 to 1,000,000.
    Steps(u32),
    /// As many as there are, until nothing is left to do.
    All,
}

/// What the words of a run say of the run itself.
#[derive(Clone, Copy, PartialEq, Eq)]
pub struct RunWords {
    /// The moment at which the clock stands still. Without one the clock that is handed in is read.
    pub now: Option<u64>,
    pub pace: Pace,
    /// The word of this start. Without one the word that is handed in is used.
    pub boot: Option<u64>,
    pub dialect: Dialect,
}

/// A command of the program, with what its words say.
#[derive(Clone, Copy, PartialEq, Eq)]
pub enum CommandWords {
    /// Answers the requests on standard input.
    Run(RunWords),
    /// Writes requests that make so many instances, at most 10,000, whose settings follow from the seed.
    Make { seed: u64, count: u32 },
    /// Answers these requests, and tells what they came to.
    Drill { seed: u64, count: u32 },
    /// Tells what is kept.
    Check,
}

fn takes_pace(value: Option<&str>) -> bool
    ensures { result ≡ option_map_or (λ v. is_some (pace_said v)) (option_map (λ v. v.now) value.entry) true }
{
    match value {
        Some(value) => pace_said(value).is_some(),
        None => true,
    }
}

fn takes_calls(value: Option<&str>) -> bool
    ensures { result ≡ option_map_or are_call_numbers (option_map (λ v. v.now) value.entry) true }
{
    match value {
        Some(value) => are_call_numbers(value),
        None => true,
    }
}

fn takes_moment(value: Option<&str>) -> bool
    ensures { result ≡ option_map_or (λ v. is_some (moment_said v)) (option_map (λ v. v.now) value.entry) true }
{
    match value {
        Some(value) => moment_said(value).is_some(),
        None => true,
    }
}

fn takes_boot(value: Option<&str>) -> bool
    ensures { result ≡ option_map_or (λ v. is_some (boot_said v)) (option_map (λ v. v.now) value.entry) true }
{
    match value {
        Some(value) => boot_said(value).is_some(),
        None => true,
    }
}

fn takes_dialect(value: Option<&str>) -> bool
    ensures { result ≡ option_map_or (λ v. is_some (dialect_said v)) (option_map (λ v. v.now) value.entry) true }
{
    match value {
        Some(value) => dialect_said(value).is_some(),
        None => true,
    }
}

/// Whether the options of `run` have values that they take.
fn are_run_values(given: &ArgMatches<'_>) -> bool
    ensures { result ≡ are_values run_options (rows_of (found_of given.now)) }
{
    takes_pace(value_of(given, "steps"))
        && takes_path(value_of(given, "db"))
        && takes_path(value_of(given, "journal"))
        && takes_calls(value_of(given, "fail-host"))
        && takes_calls(value_of(given, "fail-keeper"))
        && takes_moment(value_of(given, "now"))
        && takes_boot(value_of(given, "boot"))
        && takes_dialect(value_of(given, "dialect"))
}

/// The moment that `--now` says.
fn moment_in(given: &ArgMatches<'_>) -> Option<u64>
    ensures says { result ≡ option_and_then moment_said (first_of (codes "now") (rows_of (found_of given.now))) }
    ensures early { IfSome result (λ moment. moment < moment_limit) }
{
    match value_of(given, "now") {
        Some(value) => moment_said(value),
        None => None,
    }
}

/// The pace that `--steps` says.
fn pace_in(given: &ArgMatches<'_>) -> Option<Pace>
    ensures { result ≡ option_and_then pace_said (first_of (codes "steps") (rows_of (found_of given.now))) }
{
    match value_of(given, "steps") {
        Some(value) => pace_said(value),
        None => None,
    }
}

/// The word of the start that `--boot` says.
fn boot_in(given: &ArgMatches<'_>) -> Option<u64>
    ensures { result ≡ option_and_then boot_said (first_of (codes "boot") (rows_of (found_of given.now))) }
{
    match value_of(given, "boot") {
        Some(value) => boot_said(value),
        None => None,
    }
}

/// The dialect that `--dialect` says.
fn dialect_in(given: &ArgMatches<'_>) -> Option<Dialect>
    ensures { result ≡ option_and_then dialect_said (first_of (codes "dialect") (rows_of (found_of given.now))) }
{
    match value_of(given, "dialect") {
        Some(value) => dialect_said(value),
        None => None,
    }
}

/// What the options of `run` say of the run.
fn run_words_in(given: &ArgMatches<'_>) -> RunWords
    ensures says { result ≡ run_words_in (rows_of (found_of given.now)) }
    ensures early { IfSome result.now (λ moment. moment < moment_limit) }
{
    RunWords {
        now: moment_in(given),
        pace: pace_in(given).unwrap_or(Pace::All),
        boot: boot_in(given),
        dialect: dialect_in(given).unwrap_or(Dialect::Plain),
    }
}

fn run_command_words(given: &ArgMatches<'_>) -> Option<CommandWords>
    ensures says { result ≡ run_command_words (rows_of (found_of given.now)) }
    ensures range { IfSome result AreInRange }
{
    if are_run_values(given)
        && is_one_file(given)
        && !(is_file(given) && is_given("fail-keeper", given))
    {
        Some(CommandWords::Run(run_words_in(given)))
    } else {
        None
    }
}

/// The seed of a stream of requests, and how many instances it makes.
fn stream_numbers(given: &ArgMatches<'_>) -> Option<(u64, u32)>
    ensures says { result ≡ stream_numbers (rows_of (found_of given.now)) }
    ensures few { IfSome result (λ stream. stream.1 ≤ 10000) }
{
    let seed = value_of(given, "seed").and_then(seed_said)?;
    let count = value_of(given, "count").and_then(count_said)?;
    Some((seed, count))
}

fn make_command_words(given: &ArgMatches<'_>) -> Option<CommandWords>
    ensures says { result ≡ make_command_words (rows_of (found_of given.now)) }
    ensures range { IfSome result AreInRange }
{
    match stream_numbers(given) {
        Some((seed, count)) => Some(CommandWords::Make { seed, count }),
        None => None,
    }
}

fn drill_command_words(given: &ArgMatches<'_>) -> Option<CommandWords>
    ensures says { result ≡ drill_command_words (rows_of (found_of given.now)) }
    ensures range { IfSome result AreInRange }
{
    if !(are_store_values(given) && is_one_file(given)) {
        return None;
    }
    match stream_numbers(given) {
        Some((seed, count)) => Some(CommandWords::Drill { seed, count }),
        None => None,
    }
}

fn check_command_words(given: &ArgMatches<'_>) -> Option<CommandWords>
    ensures says { result ≡ check_command_words (rows_of (found_of given.now)) }
    ensures range { IfSome result AreInRange }
{
    if are_store_values(given) && is_one_file(given) {
        Some(CommandWords::Check)
    } else {
        None
    }
}

/// What the command of this name says.
fn words_of_command(name: &str, given: &ArgMatches<'_>) -> Option<CommandWords>
    ensures says { result ≡ words_of_command name.now (rows_of (found_of given.now)) }
    ensures range { IfSome result AreInRange }
{
    if name == "run" {
        run_command_words(given)
    } else if name == "make" {
        make_command_words(given)
    } else if name == "drill" {
        drill_command_words(given)
    } else if name == "check" {
        check_command_words(given)
    } else {
        None
    }
}

/// What the command says that the words name.
pub(crate) fn command_words_of(given: &ArgMatches<'_>) -> Option<CommandWords>
    ensures says { result ≡ option_and_then (λ command. words_of_command command.0 command.1)
        (subcommand_rows_of given.now) }
    ensures range { IfSome result AreInRange }
{
    match given.subcommand() {
        Some((name, values)) => words_of_command(name, values),
        None => None,
    }
}

/// The same, where the words name a command.
fn command_words_in(given: &Option<ArgMatches<'_>>) -> Option<CommandWords>
    ensures says { result ≡ option_and_then (λ command. words_of_command command.0 command.1)
        (option_and_then subcommand_rows_of given.now) }
    ensures range { IfSome result AreInRange }
{
    match given {
        Some(given) => command_words_of(given),
        None => None,
    }
}

/// What the words say, where they are read: a command with its numbers, and its options after it in any order, each at
/// most once, as `--name VALUE` or `--name=VALUE`. `run` has `--steps`, `--db`, `--journal`, `--fail-host`,
/// `--fail-keeper`, `--now`, `--boot` and `--dialect`; `make SEED COUNT` has none; `drill SEED COUNT` and `check` have `--db` and
/// `--journal`. Of `--db`, `--journal` and `--fail-keeper` no two stand together.
#[tactic(auto, unfolding(crate::specs::RunWords::words_of))]
pub fn read_words(alloc: Global, words: &[String]) -> Result<Option<CommandWords>, NoMemory>
    ensures says { IfOk result (λ said. said ≡ words_of (map (λ w. string_bytes w) words.now)) }
    ensures range { IfOk result (λ said. IfSome said AreInRange) }
{
    let given = parsed_command(alloc, words)?;
    let said = command_words_in(&given);
    drop(given);
    Ok(said)
}
