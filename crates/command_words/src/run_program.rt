//! The program as `clap` reads it: its four commands, with their options and the words in their places.
ghost use Rattle.std.specs.Prelude.{◌≡◌, IfOk, map, string_bytes};
ghost use Rattle.std.specs.Option.{option_and_then};
ghost use Rattle.clap.specs.Words.{app_of, subcommand_rows_of};
ghost use Rattle.command_words.specs.Commands.{HasShape};
ghost use Rattle.command_words.specs.RunWords.{bare_program, check_command, drill_command, parsed_command, make_command};
ghost use Rattle.command_words.specs.RunWords.{run_command, run_program};

use crate::commands::{with_command, with_option, with_positional};
use crate::reading::parse_words;
use clap::{ArgMatches, Command};
use size_values::NoMemory;
use std::alloc::Global;

fn run_command<'a>(alloc: Global) -> Result<Command<'a>, NoMemory>
    ensures { IfOk result (HasShape run_command) }
{
    let command = Command::new(alloc, "run");
    let command = with_option(alloc, command, "steps")?;
    let command = with_option(alloc, command, "db")?;
    let command = with_option(alloc, command, "journal")?;
    let command = with_option(alloc, command, "fail-host")?;
    let command = with_option(alloc, command, "fail-keeper")?;
    let command = with_option(alloc, command, "now")?;
    let command = with_option(alloc, command, "boot")?;
    with_option(alloc, command, "dialect")
}

fn make_command<'a>(alloc: Global) -> Result<Command<'a>, NoMemory>
    ensures { IfOk result (HasShape make_command) }
{
    let command = Command::new(alloc, "make");
    let command = with_positional(alloc, command, "seed")?;
    with_positional(alloc, command, "count")
}

fn drill_command<'a>(alloc: Global) -> Result<Command<'a>, NoMemory>
    ensures { IfOk result (HasShape drill_command) }
{
    let command = Command::new(alloc, "drill");
    let command = with_positional(alloc, command, "seed")?;
    let command = with_positional(alloc, command, "count")?;
    let command = with_option(alloc, command, "db")?;
    with_option(alloc, command, "journal")
}

fn check_command<'a>(alloc: Global) -> Result<Command<'a>, NoMemory>
    ensures { IfOk result (HasShape check_command) }
{
    let command = Command::new(alloc, "check");
    let command = with_option(alloc, command, "db")?;
    with_option(alloc, command, "journal")
}

/// The program above its commands. It takes no memory.
fn bare_program<'a>(alloc: Global) -> Command<'a>
    ensures { HasShape bare_program result }
{
    Command::new(alloc, "incus_run")
        .no_binary_name(true)
        .disable_help_flag(true)
        .disable_help_subcommand(true)
        .subcommand_required(true)
}

fn program<'a>(alloc: Global) -> Result<Command<'a>, NoMemory>
    ensures { IfOk result (λ program. app_of program ≡ run_program) }
{
    let program = bare_program(alloc);
    let program = with_command(program, run_command(alloc))?;
    let program = with_command(program, make_command(alloc))?;
    let program = with_command(program, drill_command(alloc))?;
    with_command(program, check_command(alloc))
}

/// The command that the words name, with what they give to its places and options.
pub(crate) fn parsed_command<'a>(
    alloc: Global,
    words: &'a [String],
) -> Result<Option<ArgMatches<'a>>, NoMemory>
    ensures { IfOk result (λ given. option_and_then subcommand_rows_of given
        ≡ parsed_command (map (λ w. string_bytes w) words.entry.now)) }
{
    let program = program(alloc)?;
    parse_words(program, words)
}
