//! What the words say of the outside.
ghost use Rattle.std.specs.Prelude.{◌≡◌, codes, false, map, option_map, IfOk, string_bytes};
ghost use Rattle.std.specs.Option.{option_and_then, option_map_or};
ghost use Rattle.clap.specs.Words.{first_of, found_of, rows_of};
ghost use Rattle.command_words.specs.Commands.{is_flagged};
ghost use Rattle.command_words.specs.RowsPaths.{rows_path};
ghost use Rattle.command_words.specs.ServeWords.{options_from, serve_setup_of, setup_with};
ghost use Rattle.command_words.specs.declared.rows_path.RowsPath.TheVariants.{Memory};

use crate::reading::{is_flagged, value_of};
use crate::rows_path::{RowsPath, rows_path};
use crate::serve_program::parsed_options;
use crate::serve_words::options_of_matches;
use clap::ArgMatches;
use size_values::{NoMemory, Text};
use std::alloc::Global;

/// The port and the socket file that are listened on; where the rows are kept; how many seconds a connection may send nothing; whether the end
/// of standard input stops the server; whether standard error tells of each request; and how many tickets through the lock
/// of the server the run takes.
#[derive(Drop)]
pub struct ServeSetup {
    pub port: Option<u32>,
    pub socket: Option<Text>,
    pub rows: RowsPath,
    pub idle: u32,
    pub stops: bool,
    pub logs: bool,
    pub tickets: u32,
}

/// Where the options say that rows are kept.
fn rows_of_matches(alloc: Global, given: &Option<ArgMatches<'_>>) -> Result<RowsPath, NoMemory>
    ensures { IfOk result (λ path. path
        ≡ option_map_or rows_path (option_map (λ m. rows_of (found_of m)) given.now) Memory) }
{
    match given {
        Some(given) => rows_path(alloc, given),
        None => Ok(RowsPath::Memory),
    }
}

/// The socket file that is listened on.
fn socket_of_matches(
    alloc: Global,
    given: &Option<ArgMatches<'_>>,
) -> Result<Option<Text>, NoMemory>
    ensures { IfOk result (λ path. path ≡ option_and_then (first_of (codes "socket"))
        (option_map (λ m. rows_of (found_of m)) given.now)) }
{
    match given {
        Some(given) => socket_path(alloc, given),
        None => Ok(None),
    }
}

fn socket_path(alloc: Global, given: &ArgMatches<'_>) -> Result<Option<Text>, NoMemory>
    ensures { IfOk result (λ path. path ≡ first_of (codes "socket") (rows_of (found_of given.now))) }
{
    match value_of(given, "socket") {
        Some(path) => Ok(Some(Text::from_text(alloc, path)?)),
        None => Ok(None),
    }
}

/// Whether the end of standard input stops the server.
fn stops(given: &Option<ArgMatches<'_>>) -> bool
    ensures { result ≡ option_map_or (is_flagged (codes "stop-at-end-of-input"))
        (option_map (λ m. rows_of (found_of m)) given.now) false }
{
    match given {
        Some(given) => is_flagged(given, "stop-at-end-of-input"),
        None => false,
    }
}

/// Whether standard error tells of each request.
fn logs(given: &Option<ArgMatches<'_>>) -> bool
    ensures { result ≡ option_map_or (is_flagged (codes "log"))
        (option_map (λ m. rows_of (found_of m)) given.now) false }
{
    match given {
        Some(given) => is_flagged(given, "log"),
        None => false,
    }
}

/// What the options say of the outside.
fn setup_of_matches(alloc: Global, given: &Option<ArgMatches<'_>>) -> Result<ServeSetup, NoMemory>
    ensures { IfOk result (λ setup. setup ≡ setup_with
        (option_and_then options_from (option_map (λ m. rows_of (found_of m)) given.now))
        (option_and_then (first_of (codes "socket")) (option_map (λ m. rows_of (found_of m)) given.now))
        (option_map_or rows_path (option_map (λ m. rows_of (found_of m)) given.now) Memory)
        (option_map_or (is_flagged (codes "stop-at-end-of-input")) (option_map (λ m. rows_of (found_of m)) given.now)
        false)
        (option_map_or (is_flagged (codes "log")) (option_map (λ m. rows_of (found_of m)) given.now) false)) }
{
    match options_of_matches(given) {
        Some(options) => {
            let tickets = options.at_once + options.workers + 1;
            let rows = rows_of_matches(alloc, given)?;
            let socket = socket_of_matches(alloc, given)?;
            Ok(ServeSetup {
                port: options.port,
                socket,
                rows,
                idle: options.idle,
                stops: stops(given),
                logs: logs(given),
                tickets,
            })
        }
        None => Ok(ServeSetup {
            port: None,
            socket: None,
            rows: RowsPath::Memory,
            idle: 0,
            stops: false,
            logs: false,
            tickets: 0,
        }),
    }
}

/// What the doors, the keeper and the lock of the server are made of: no door, rows in memory and no tickets where the
/// words are not read.
#[tactic(auto, unfolding(crate::specs::ServeWords::options_of))]
pub fn serve_setup_of(alloc: Global, words: &[String]) -> Result<ServeSetup, NoMemory>
    ensures { IfOk result (λ setup. setup ≡ serve_setup_of (map (λ w. string_bytes w) words.now)) }
{
    let given = parsed_options(alloc, words)?;
    let setup = setup_of_matches(alloc, &given);
    drop(given);
    setup
}
