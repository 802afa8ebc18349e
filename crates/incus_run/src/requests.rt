ghost use Rattle.std.specs.Prelude.{◌≡◌, IfOk, map, string_bytes};
ghost use Rattle.incus_run.specs.Requests.{makes_rows, requests_of};

use command_words::{CommandWords, read_words};
use size_values::NoMemory;
use std::alloc::Global;

/// How many requests of a drill go before its creations: they make a pool, a project and a profile.
const FIRST_REQUESTS: u64 = 3;

/// How many requests a drill answers in all, where the words name a drill.
pub fn drill_requests(alloc: Global, words: &[String]) -> Result<Option<u64>, NoMemory>
    ensures { IfOk result (λ requests. requests ≡ requests_of (map (λ w. string_bytes w) words.now)) }
{
    match read_words(alloc, words)? {
        Some(CommandWords::Drill { count, .. }) => Ok(Some(FIRST_REQUESTS + u64::from(count))),
        _ => Ok(None),
    }
}

/// Whether a file of rows that is missing is made: by every command but `check`, which tells what is kept.
pub fn makes_rows(alloc: Global, words: &[String]) -> Result<bool, NoMemory>
    ensures { IfOk result (λ makes. makes ≡ makes_rows (map (λ w. string_bytes w) words.now)) }
{
    match read_words(alloc, words)? {
        Some(CommandWords::Check) => Ok(false),
        _ => Ok(true),
    }
}
