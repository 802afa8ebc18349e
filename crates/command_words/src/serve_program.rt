//! The program as `clap` reads it: its options.
ghost use Rattle.std.specs.Prelude.{◌≡◌, IfOk, map, option_map, string_bytes};
ghost use Rattle.clap.specs.Words.{app_of, found_of, rows_of};
ghost use Rattle.command_words.specs.Commands.{HasShape};
ghost use Rattle.command_words.specs.ServeWords.{bare_program, parsed_options, serve_program};

use crate::commands::{with_flag, with_option};
use crate::reading::parse_words;
use clap::{ArgMatches, Command};
use size_values::NoMemory;
use std::alloc::Global;

/// The program without its options. It takes no memory.
fn bare_program<'a>(alloc: Global) -> Command<'a>
    ensures { HasShape bare_program result }
{
    Command::new(alloc, "incusd")
        .no_binary_name(true)
        .disable_help_flag(true)
}

fn program<'a>(alloc: Global) -> Result<Command<'a>, NoMemory>
    ensures { IfOk result (λ program. app_of program ≡ serve_program) }
{
    let program = bare_program(alloc);
    let program = with_option(alloc, program, "port")?;
    let program = with_option(alloc, program, "socket")?;
    let program = with_option(alloc, program, "connections")?;
    let program = with_option(alloc, program, "at-once")?;
    let program = with_option(alloc, program, "workers")?;
    let program = with_option(alloc, program, "idle")?;
    let program = with_option(alloc, program, "db")?;
    let program = with_option(alloc, program, "journal")?;
    let program = with_flag(alloc, program, "stop-at-end-of-input")?;
    with_flag(alloc, program, "log")
}

/// What the words give to the options.
pub(crate) fn parsed_options<'a>(
    alloc: Global,
    words: &'a [String],
) -> Result<Option<ArgMatches<'a>>, NoMemory>
    ensures { IfOk result (λ given. option_map (λ m. rows_of (found_of m)) given
        ≡ parsed_options (map (λ w. string_bytes w) words.entry.now)) }
{
    let program = program(alloc)?;
    parse_words(program, words)
}
