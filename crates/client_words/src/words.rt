//! What the words say.
ghost use Rattle.std.specs.Prelude.{◌≡◌, codes, map, IfOk, IfSome, Ok, option_map, Some, string_bytes};
ghost use Rattle.std.specs.Option.{option_and_then};
ghost use Rattle.clap.specs.Words.{first_of, found_of, rows_of, subcommand_rows_of};
ghost use Rattle.client_words.specs.Program.{asked_in, commands};
ghost use Rattle.client_words.specs.declared.words.Asks.TheVariants as asks;
ghost use Rattle.client_words.specs.Values.{door_said, format_said, id_said, instance_said, project_said};
ghost use Rattle.client_words.specs.Words.{AreGood, client_words_of, words_of_command, words_with};

use crate::program::parsed_command;
use crate::values::{door_said, format_said, id_said, instance_said, project_said};
use clap::ArgMatches;
use command_words::value_of;
use size_values::{NoMemory, Text};
use std::alloc::Global;

/// What is asked of the server. A name is one that an instance may have, and an id is a UUID in lower case with hyphens.
#[derive(Drop)]
pub enum Asks {
    /// The instances of the project, or those that a filter takes. The filter is any text: the server judges it.
    List { filter: Option<Text> },
    /// An instance that is made and started.
    Launch { name: Text },
    Start { name: Text },
    Stop { name: Text },
    Delete { name: Text },
    /// The end of an operation.
    Wait { id: Text },
    Cancel { id: Text },
    /// What the project uses, and its limits.
    Limits,
}

/// Where the server listens: at a port of 127.0.0.1 from 1 on, or at the socket file of a path of 1 to 107 bytes.
#[derive(Drop)]
pub enum Door {
    Port(u16),
    Socket(Text),
}

/// How replies are printed: in lines of words, as the JSON text that came, or as a table with a head.
#[derive(Clone, Copy, PartialEq, Eq)]
pub enum Format {
    Plain,
    Json,
    Table,
}

/// What the words of the client say. The project has a name that a project may have.
#[derive(Drop)]
pub struct ClientWords {
    pub asks: Asks,
    pub project: Text,
    pub format: Format,
    pub door: Door,
}

/// The filter behind `list`, where there is one.
fn filter_in(alloc: Global, given: &ArgMatches<'_>) -> Result<Option<Text>, NoMemory>
    ensures { IfOk result (λ filter. filter ≡ first_of (codes "filter") (rows_of (found_of given.now))) }
{
    match value_of(given, "filter") {
        Some(value) => Ok(Some(Text::from_text(alloc, value)?)),
        None => Ok(None),
    }
}

/// The name of an instance behind a command.
fn instance_in(alloc: Global, given: &ArgMatches<'_>) -> Result<Option<Text>, NoMemory>
    ensures { IfOk result (λ name. name
        ≡ option_and_then instance_said (first_of (codes "name") (rows_of (found_of given.now)))) }
{
    match value_of(given, "name") {
        Some(value) => instance_said(alloc, value),
        None => Ok(None),
    }
}

/// The id of an operation behind a command.
fn id_in(alloc: Global, given: &ArgMatches<'_>) -> Result<Option<Text>, NoMemory>
    ensures { IfOk result (λ id. id ≡ option_and_then id_said (first_of (codes "id") (rows_of (found_of given.now)))) }
{
    match value_of(given, "id") {
        Some(value) => id_said(alloc, value),
        None => Ok(None),
    }
}

/// What `launch` asks for.
fn launch_asked(alloc: Global, given: &ArgMatches<'_>) -> Result<Option<Asks>, NoMemory>
    ensures { IfOk result (λ asked. asked ≡ option_map asks.Launch
        (option_and_then instance_said (first_of (codes "name") (rows_of (found_of given.now))))) }
{
    match instance_in(alloc, given)? {
        Some(name) => Ok(Some(Asks::Launch { name })),
        None => Ok(None),
    }
}

/// What `start` asks for.
fn start_asked(alloc: Global, given: &ArgMatches<'_>) -> Result<Option<Asks>, NoMemory>
    ensures { IfOk result (λ asked. asked ≡ option_map asks.Start
        (option_and_then instance_said (first_of (codes "name") (rows_of (found_of given.now))))) }
{
    match instance_in(alloc, given)? {
        Some(name) => Ok(Some(Asks::Start { name })),
        None => Ok(None),
    }
}

/// What `stop` asks for.
fn stop_asked(alloc: Global, given: &ArgMatches<'_>) -> Result<Option<Asks>, NoMemory>
    ensures { IfOk result (λ asked. asked ≡ option_map asks.Stop
        (option_and_then instance_said (first_of (codes "name") (rows_of (found_of given.now))))) }
{
    match instance_in(alloc, given)? {
        Some(name) => Ok(Some(Asks::Stop { name })),
        None => Ok(None),
    }
}

/// What `delete` asks for.
fn deletion_asked(alloc: Global, given: &ArgMatches<'_>) -> Result<Option<Asks>, NoMemory>
    ensures { IfOk result (λ asked. asked ≡ option_map asks.Delete
        (option_and_then instance_said (first_of (codes "name") (rows_of (found_of given.now))))) }
{
    match instance_in(alloc, given)? {
        Some(name) => Ok(Some(Asks::Delete { name })),
        None => Ok(None),
    }
}

/// What `wait` asks for.
fn wait_asked(alloc: Global, given: &ArgMatches<'_>) -> Result<Option<Asks>, NoMemory>
    ensures { IfOk result (λ asked. asked ≡ option_map asks.Wait
        (option_and_then id_said (first_of (codes "id") (rows_of (found_of given.now))))) }
{
    match id_in(alloc, given)? {
        Some(id) => Ok(Some(Asks::Wait { id })),
        None => Ok(None),
    }
}

/// What `cancel` asks for.
fn cancel_asked(alloc: Global, given: &ArgMatches<'_>) -> Result<Option<Asks>, NoMemory>
    ensures { IfOk result (λ asked. asked ≡ option_map asks.Cancel
        (option_and_then id_said (first_of (codes "id") (rows_of (found_of given.now))))) }
{
    match id_in(alloc, given)? {
        Some(id) => Ok(Some(Asks::Cancel { id })),
        None => Ok(None),
    }
}

/// What `list` asks for.
fn list_asked(alloc: Global, given: &ArgMatches<'_>) -> Result<Option<Asks>, NoMemory>
    ensures { IfOk result (λ asked. asked
        ≡ Some (asks.List (first_of (codes "filter") (rows_of (found_of given.now))))) }
{
    let filter = filter_in(alloc, given)?;
    Ok(Some(Asks::List { filter }))
}

/// What the command of this word asks for.
fn asked(alloc: Global, word: &str, given: &ArgMatches<'_>) -> Result<Option<Asks>, NoMemory>
    ensures { IfOk result (λ asked. asked ≡ asked_in commands word.now (rows_of (found_of given.now))) }
{
    if word == "list" {
        list_asked(alloc, given)
    } else if word == "launch" {
        launch_asked(alloc, given)
    } else if word == "start" {
        start_asked(alloc, given)
    } else if word == "stop" {
        stop_asked(alloc, given)
    } else if word == "delete" {
        deletion_asked(alloc, given)
    } else if word == "wait" {
        wait_asked(alloc, given)
    } else if word == "cancel" {
        cancel_asked(alloc, given)
    } else if word == "limits" {
        Ok(Some(Asks::Limits))
    } else {
        Ok(None)
    }
}

/// Where the options say that the server listens.
fn door_in(alloc: Global, given: &ArgMatches<'_>) -> Result<Option<Door>, NoMemory>
    ensures { IfOk result (λ door. door ≡ door_said (first_of (codes "port") (rows_of (found_of given.now)))
        (first_of (codes "socket") (rows_of (found_of given.now)))) }
{
    door_said(alloc, value_of(given, "port"), value_of(given, "socket"))
}

/// The project that the options name.
fn project_in(alloc: Global, given: &ArgMatches<'_>) -> Result<Option<Text>, NoMemory>
    ensures { IfOk result (λ project. project ≡ project_said (first_of (codes "project") (rows_of (found_of given.now)))) }
{
    project_said(alloc, value_of(given, "project"))
}

/// How the options say that replies are printed.
fn format_in(given: &ArgMatches<'_>) -> Option<Format>
    ensures { result ≡ format_said (first_of (codes "format") (rows_of (found_of given.now))) }
{
    format_said(value_of(given, "format"))
}

/// Two values, where neither is want of memory.
fn both<A: Drop, B: Drop>(
    first: Result<A, NoMemory>,
    second: Result<B, NoMemory>,
) -> Result<(A, B), NoMemory>
    ensures { IfOk result (λ pair. (first ≡ Ok pair.0) × (second ≡ Ok pair.1)) }
{
    let first = first?;
    let second = second?;
    Ok((first, second))
}

/// What the parts say together, where each of them says something.
fn words_with(
    asks: Option<Asks>,
    door: Option<Door>,
    project: Option<Text>,
    format: Option<Format>,
) -> Option<ClientWords>
    ensures { result ≡ words_with asks door project format }
{
    let Some(asks) = asks else {
        drop(door);
        drop(project);
        return None;
    };
    let Some(door) = door else {
        drop(asks);
        drop(project);
        return None;
    };
    let Some(project) = project else {
        drop(asks);
        drop(door);
        return None;
    };
    match format {
        Some(format) => Some(ClientWords {
            asks,
            project,
            format,
            door,
        }),
        None => {
            drop(asks);
            drop(door);
            drop(project);
            None
        }
    }
}

/// What the command of this word says.
fn words_of_command(
    alloc: Global,
    word: &str,
    given: &ArgMatches<'_>,
) -> Result<Option<ClientWords>, NoMemory>
    ensures { IfOk result (λ said. said ≡ words_of_command word.now (rows_of (found_of given.now))) }
{
    let asks = asked(alloc, word, given);
    let door = door_in(alloc, given);
    let project = project_in(alloc, given);
    let (asked, project) = both(both(asks, door), project)?;
    let (asks, door) = asked;
    Ok(words_with(asks, door, project, format_in(given)))
}

/// What the command says that the words name.
fn words_of_matches(alloc: Global, given: &ArgMatches<'_>) -> Result<Option<ClientWords>, NoMemory>
    ensures { IfOk result (λ said. said ≡ option_and_then (λ command. words_of_command command.0 command.1)
        (subcommand_rows_of given.now)) }
{
    match given.subcommand() {
        Some((word, values)) => words_of_command(alloc, word, values),
        None => Ok(None),
    }
}

/// The same, where the words name a command.
fn words_in(alloc: Global, given: &Option<ArgMatches<'_>>) -> Result<Option<ClientWords>, NoMemory>
    ensures { IfOk result (λ said. said ≡ option_and_then (λ command. words_of_command command.0 command.1)
        (option_and_then subcommand_rows_of given.now)) }
{
    match given {
        Some(given) => words_of_matches(alloc, given),
        None => Ok(None),
    }
}

/// What the words say, where they are read, without the name of the program in front: a command with the words in its
/// places, and behind it the options `--port`, `--socket`, `--project` and `--format` in any order, each at most once, as
/// `--name VALUE` or `--name=VALUE`. Either `--port` or `--socket` has to be given.
#[tactic(auto, unfolding(crate::specs::Words::client_words_of))]
pub fn read_words(alloc: Global, words: &[String]) -> Result<Option<ClientWords>, NoMemory>
    ensures says { IfOk result (λ said. said ≡ client_words_of (map (λ w. string_bytes w) words.now)) }
    ensures good { IfOk result (λ said. IfSome said AreGood) }
{
    let given = parsed_command(alloc, words)?;
    let said = words_in(alloc, &given);
    drop(given);
    said
}
