//! What the words say.
ghost use Rattle.std.specs.Prelude.{◌≡◌, ◌≤◌, map, option_map, IfOk, IfSome, string_bytes};
ghost use Rattle.std.specs.Option.{option_and_then};
ghost use Rattle.clap.specs.Words.{found_of, rows_of};
ghost use Rattle.command_words.specs.ServeWords.{at_once_count, connection_count, idle_seconds, option_numbers};
ghost use Rattle.command_words.specs.ServeWords.{is_some_door, options_from, port_number, serve_words_of, worker_count};
ghost use Rattle.command_words.specs.ServeWords.{path_options};
ghost use Rattle.command_words.specs.RowsPaths.{are_values};

use crate::reading::value_of;
use crate::rows_path::{are_store_values, is_given, is_one_file, takes_path};
use crate::serve_program::parsed_options;
use crate::serve_values::{at_once_said, connections_said, idle_said, port_said, workers_said};
use clap::ArgMatches;
use size_values::NoMemory;
use std::alloc::Global;

/// How many workers there are, where the words say no number of them.
const WORKERS: u32 = 2;

/// How many connections are served at once, where the words say no number of them.
const AT_ONCE: u32 = 512;

/// How many seconds a connection may send nothing, where the words say no number of them.
const IDLE: u32 = 60;

/// What the words say of the server: how many connections it takes, from 1 to 1,000,000, or None where it takes all that
/// come; how many of them it serves at once, from 1 to 4,096; and how many workers it has, from 1 to 8.
#[derive(Clone, Copy, PartialEq, Eq)]
pub struct ServeWords {
    pub connections: Option<u32>,
    pub at_once: u32,
    pub workers: u32,
}

/// The numbers that the options say.
#[derive(Clone, Copy)]
pub(crate) struct Options {
    pub port: Option<u32>,
    pub connections: Option<u32>,
    pub at_once: u32,
    pub workers: u32,
    pub idle: u32,
}

fn worker_count(given: &ArgMatches<'_>) -> Option<u32>
    ensures says { result ≡ worker_count (rows_of (found_of given.now)) }
    ensures few { IfSome result (λ workers. workers ≤ 8) }
{
    match value_of(given, "workers") {
        Some(value) => workers_said(value),
        None => Some(WORKERS),
    }
}

fn at_once_count(given: &ArgMatches<'_>) -> Option<u32>
    ensures says { result ≡ at_once_count (rows_of (found_of given.now)) }
    ensures few { IfSome result (λ count. count ≤ 4096) }
{
    match value_of(given, "at-once") {
        Some(value) => at_once_said(value),
        None => Some(AT_ONCE),
    }
}

fn idle_seconds(given: &ArgMatches<'_>) -> Option<u32>
    ensures { result ≡ idle_seconds (rows_of (found_of given.now)) }
{
    match value_of(given, "idle") {
        Some(value) => idle_said(value),
        None => Some(IDLE),
    }
}

/// The port that is listened on: None in the inner option where there is none.
fn port_number(given: &ArgMatches<'_>) -> Option<Option<u32>>
    ensures { result ≡ port_number (rows_of (found_of given.now)) }
{
    match value_of(given, "port") {
        Some(value) => port_said(value).map(Some),
        None => Some(None),
    }
}

/// How many connections are taken: None in the inner option where all that come are.
fn connection_count(given: &ArgMatches<'_>) -> Option<Option<u32>>
    ensures { result ≡ connection_count (rows_of (found_of given.now)) }
{
    match value_of(given, "connections") {
        Some(value) => connections_said(value).map(Some),
        None => Some(None),
    }
}

/// The numbers that the options say, where each is one that its option takes.
fn option_numbers(given: &ArgMatches<'_>) -> Option<Options>
    ensures says { result ≡ option_numbers (rows_of (found_of given.now)) }
    ensures few { IfSome result (λ o. (o.at_once ≤ 4096) × (o.workers ≤ 8)) }
{
    let port = port_number(given)?;
    let connections = connection_count(given)?;
    let at_once = at_once_count(given)?;
    let workers = worker_count(given)?;
    let idle = idle_seconds(given)?;
    Some(Options {
        port,
        connections,
        at_once,
        workers,
        idle,
    })
}

/// Whether the options name files by paths.
fn are_paths(given: &ArgMatches<'_>) -> bool
    ensures { result ≡ are_values path_options (rows_of (found_of given.now)) }
{
    takes_path(value_of(given, "socket")) && are_store_values(given)
}

/// Whether they name a door: a port, a socket file, or both.
fn is_some_door(given: &ArgMatches<'_>) -> bool
    ensures { result ≡ is_some_door (rows_of (found_of given.now)) }
{
    is_given("port", given) || is_given("socket", given)
}

fn options_from(given: &ArgMatches<'_>) -> Option<Options>
    ensures says { result ≡ options_from (rows_of (found_of given.now)) }
    ensures few { IfSome result (λ o. (o.at_once ≤ 4096) × (o.workers ≤ 8)) }
{
    if are_paths(given) && is_one_file(given) && is_some_door(given) {
        option_numbers(given)
    } else {
        None
    }
}

/// The same, where the words are taken.
pub(crate) fn options_of_matches(given: &Option<ArgMatches<'_>>) -> Option<Options>
    ensures says { result ≡ option_and_then options_from (option_map (λ m. rows_of (found_of m)) given.now) }
    ensures few { IfSome result (λ o. (o.at_once ≤ 4096) × (o.workers ≤ 8)) }
{
    match given {
        Some(given) => options_from(given),
        None => None,
    }
}

/// What the words say, where they are read: the options `--port`, `--socket`, `--connections`, `--at-once`, `--workers`,
/// `--idle`, `--db` and `--journal` in any order, each at most once, as `--name VALUE` or `--name=VALUE`. One of the first
/// two has to be given, and the last two do not stand together.
#[tactic(auto, unfolding(crate::specs::ServeWords::options_of))]
pub fn read_serve_words(alloc: Global, words: &[String]) -> Result<Option<ServeWords>, NoMemory>
    ensures says { IfOk result (λ said. said ≡ serve_words_of (map (λ w. string_bytes w) words.now)) }
    ensures few { IfOk result (λ said. IfSome said (λ s. (s.at_once ≤ 4096) × (s.workers ≤ 8))) }
{
    let given = parsed_options(alloc, words)?;
    let said = options_of_matches(&given);
    drop(given);
    match said {
        Some(options) => Ok(Some(ServeWords {
            connections: options.connections,
            at_once: options.at_once,
            workers: options.workers,
        })),
        None => Ok(None),
    }
}
