//! What the words of a program give.
ghost use Rattle.std.specs.Prelude.{◌≡◌, ◌≢◌, None, true, IfOk, IfSome, is_some, map, option_map, string_bytes};
ghost use Rattle.clap.specs.Words.{app_of, first_of, found_of, is_simple_and_free, kind_of, rows_of};
ghost use Rattle.clap.specs.declared.error.kind.ErrorKind.TheVariants as kind;
ghost use Rattle.command_words.specs.Commands.{AreGiven, are_taken, has_dashes, is_dashes, is_flagged};

use clap::error::ErrorKind;
use clap::{ArgMatches, Command, Error};
use size_values::NoMemory;

fn is_dashes(word: &str) -> bool
    ensures { result ≡ is_dashes word.now }
{
    word == "-" || word == "--"
}

/// Whether one of the words is `-` or `--`.
fn has_dashes(words: &[String]) -> bool
    ensures { result ≡ has_dashes (map (λ w. string_bytes w) words.now) }
{
    let mut left = words;
    while let [word, more @ ..] = left {
        if is_dashes(word.as_str()) {
            return true;
        }
        left = more;
    }
    false
}

/// Out of memory, or no values where `clap` refuses the words.
fn refusal_of<'a>(error: Error) -> Result<Option<ArgMatches<'a>>, NoMemory>
    ensures none { IfOk result (λ given. given ≡ None) }
    ensures other { IfOk result (λ _. kind_of error ≢ kind.OutOfMemory) }
{
    let kind = error.kind();
    drop(error);
    match kind {
        ErrorKind::OutOfMemory => Err(NoMemory),
        _ => Ok(None),
    }
}

/// The values that the words give to the options and places of a program, where it takes the words. No argument of the
/// program has a rule on another one.
pub fn parse_words<'a>(
    program: Command<'a>,
    words: &'a [String],
) -> Result<Option<ArgMatches<'a>>, NoMemory>
    requires { is_simple_and_free (app_of program) ≡ true }
    ensures taken { IfOk result (λ given. is_some given
        ≡ are_taken (app_of program.entry) (map (λ w. string_bytes w) words.entry.now)) }
    ensures given { IfOk result (λ given. IfSome given
        (AreGiven (app_of program.entry) (map (λ w. string_bytes w) words.entry.now))) }
{
    if has_dashes(words) {
        drop(program);
        return Ok(None);
    }
    match program.try_get_matches_from(words) {
        Ok(given) => Ok(Some(given)),
        Err(error) => refusal_of(error),
    }
}

/// The value of the option or place of this name.
pub fn value_of<'a>(given: &ArgMatches<'a>, name: &str) -> Option<&'a str>
    ensures { option_map (λ v. v.now) result ≡ first_of name.now (rows_of (found_of given.now)) }
{
    given.get_str(name)
}

/// Whether the flag of this name is given.
pub fn is_flagged(given: &ArgMatches<'_>, name: &str) -> bool
    ensures { result ≡ is_flagged name.now (rows_of (found_of given.now)) }
{
    match value_of(given, name) {
        Some(value) => value == "true",
        None => false,
    }
}
