//! Commands, put together from options, places and commands below them.
ghost use Rattle.std.specs.Prelude.{◌≡◌, false, IfOk, IsErr, MatchResult};
ghost use Rattle.clap.specs.Words.{app_of, shape_of, with_subcommand};
ghost use Rattle.clap.specs.declared.builder.command.Command.TheViews.{out-Command as fields_of};
ghost use Rattle.command_words.specs.Commands.{AddsRule, flag_of, option_of, positional_of};

use clap::{Arg, ArgAction, Command};
use size_values::NoMemory;
use std::alloc::Global;

/// Adds an option with one value, `--name VALUE` or `--name=VALUE`.
pub fn with_option<'a>(
    alloc: Global,
    command: Command<'a>,
    name: &'a str,
) -> Result<Command<'a>, NoMemory>
    ensures { IfOk result (AddsRule (option_of name.entry.now) command.entry) }
{
    let option = Arg::new(alloc, name).long(name).action(ArgAction::Set);
    Ok(command.arg(option)?)
}

/// Adds an option without a value, `--name`.
pub fn with_flag<'a>(
    alloc: Global,
    command: Command<'a>,
    name: &'a str,
) -> Result<Command<'a>, NoMemory>
    ensures { IfOk result (AddsRule (flag_of name.entry.now) command.entry) }
{
    let flag = Arg::new(alloc, name).long(name).action(ArgAction::SetTrue);
    Ok(command.arg(flag)?)
}

/// Adds a word that has to stand in its place.
pub fn with_positional<'a>(
    alloc: Global,
    command: Command<'a>,
    name: &'a str,
) -> Result<Command<'a>, NoMemory>
    ensures { IfOk result (AddsRule (positional_of name.entry.now) command.entry) }
{
    let place = Arg::new(alloc, name).action(ArgAction::Set).required(true);
    Ok(command.arg(place)?)
}

/// Adds a command below a program, if there was memory to make it.
pub fn with_command<'a>(
    program: Command<'a>,
    command: Result<Command<'a>, NoMemory>,
) -> Result<Command<'a>, NoMemory>
    ensures { MatchResult command.entry (λ below. (fields_of below).has_globals ≡ false
        → IfOk result (λ whole. app_of whole ≡ with_subcommand (app_of program.entry) (shape_of below)))
        (λ _. IsErr result) }
{
    match command {
        Ok(command) => Ok(program.subcommand(command)?),
        Err(fault) => {
            drop(program);
            Err(fault)
        }
    }
}
