//! The program as `clap` reads it: its eight commands, with the options that each has and the words in their places.
ghost use Rattle.std.specs.Prelude.{◌≡◌, [], ◌∷◌, codes, IfOk, map, string_bytes};
ghost use Rattle.std.specs.Option.{option_and_then};
ghost use Rattle.clap.specs.Words.{app_of, subcommand_rows_of};
ghost use Rattle.command_words.specs.Commands.{AddsRule, HasShape, positional_of};
ghost use Rattle.client_words.specs.Program.{AddsOptions, bare_program, client_program, optional_of, parsed_command};
ghost use Rattle.client_words.specs.Program.{instance_shapes, shape_with, with_shapes};

use clap::{Arg, ArgAction, ArgMatches, Command};
use command_words::{parse_words, with_command, with_option, with_positional};
use size_values::NoMemory;
use std::alloc::Global;

/// Adds a word that may stand in its place.
fn with_optional<'a>(
    alloc: Global,
    command: Command<'a>,
    name: &'a str,
) -> Result<Command<'a>, NoMemory>
    ensures { IfOk result (AddsRule (optional_of name.entry.now) command.entry) }
{
    let place = Arg::new(alloc, name).action(ArgAction::Set);
    Ok(command.arg(place)?)
}

/// Adds the options that each command has.
fn with_options<'a>(alloc: Global, command: Command<'a>) -> Result<Command<'a>, NoMemory>
    ensures { IfOk result (AddsOptions command.entry) }
{
    let command = with_option(alloc, command, "port")?;
    let command = with_option(alloc, command, "socket")?;
    let command = with_option(alloc, command, "project")?;
    with_option(alloc, command, "format")
}

/// `list`, with a filter or without one.
fn list_command<'a>(alloc: Global) -> Result<Command<'a>, NoMemory>
    ensures { IfOk result (HasShape (shape_with (codes "list") (optional_of (codes "filter") ∷ []))) }
{
    let command = Command::new(alloc, "list");
    let command = with_optional(alloc, command, "filter")?;
    with_options(alloc, command)
}

/// The command of this word, with one word more that has to stand in its place.
fn place_command<'a>(alloc: Global, word: &'a str, place: &'a str) -> Result<Command<'a>, NoMemory>
    ensures { IfOk result (HasShape (shape_with word.entry.now (positional_of place.entry.now ∷ []))) }
{
    let command = Command::new(alloc, word);
    let command = with_positional(alloc, command, place)?;
    with_options(alloc, command)
}

/// The command of this word, with no word more.
fn lone_command<'a>(alloc: Global, word: &'a str) -> Result<Command<'a>, NoMemory>
    ensures { IfOk result (HasShape (shape_with word.entry.now [])) }
{
    with_options(alloc, Command::new(alloc, word))
}

/// The program above its commands. It takes no memory.
fn bare_program<'a>(alloc: Global) -> Command<'a>
    ensures { HasShape bare_program result }
{
    Command::new(alloc, "incusctl")
        .no_binary_name(true)
        .disable_help_flag(true)
        .disable_help_subcommand(true)
        .subcommand_required(true)
}

/// Adds the commands that take the name of an instance.
fn with_instance_commands<'a>(alloc: Global, program: Command<'a>) -> Result<Command<'a>, NoMemory>
    ensures { IfOk result (λ whole. app_of whole ≡ with_shapes instance_shapes (app_of program.entry)) }
{
    let program = with_command(program, place_command(alloc, "launch", "name"))?;
    let program = with_command(program, place_command(alloc, "start", "name"))?;
    let program = with_command(program, place_command(alloc, "stop", "name"))?;
    with_command(program, place_command(alloc, "delete", "name"))
}

fn program<'a>(alloc: Global) -> Result<Command<'a>, NoMemory>
    ensures { IfOk result (λ program. app_of program ≡ client_program) }
{
    let program = bare_program(alloc);
    let program = with_command(program, list_command(alloc))?;
    let program = with_instance_commands(alloc, program)?;
    let program = with_command(program, place_command(alloc, "wait", "id"))?;
    let program = with_command(program, place_command(alloc, "cancel", "id"))?;
    with_command(program, lone_command(alloc, "limits"))
}

/// The command that the words name, with what they give to its places and options.
pub(crate) fn parsed_command<'a>(
    alloc: Global,
    words: &'a [String],
) -> Result<Option<ArgMatches<'a>>, NoMemory>
    ensures { IfOk result (λ given. option_and_then subcommand_rows_of given
        ≡ parsed_command (map (λ w. string_bytes w) words.entry.now)) }
{
    let program = program(alloc)?;
    parse_words(program, words)
}
