//! `incus_run`: answers the requests on standard input on standard output, over a modelled host, and over rows in
//! memory or in a file, by the clock of the system; or writes, drills or checks (`command_words::run_help`).
#![tactic(auto)]

mod clock;
mod counts;
mod host;
mod laws;
mod progress;
mod requests;

use crate::clock::WatchedClock;
use crate::host::WatchedHost;
use crate::progress::Progress;
use crate::requests::{drill_requests, makes_rows};
use command_words::{run_help, setup_of};
use host_model::ModelHost;
use http_front::{Clock, ReaderSource, SystemClock, WriterSink};
use program_start::{Question, RowsKeeper, StartFault, answer, end_rows, fault_of, tell, words_of};
use serial_run::run_main;
use size_values::Seq;
use std::io::IsTerminal;
use std::process::ExitCode;

/// The name of the program.
const PROGRAM: &str = "incus_run";

/// The line of `--version`.
const VERSION: &str = "incus_run 0.1.0\n";

/// How many requests are to be answered, where standard error is told how many of them are: those of a drill at a
/// terminal. Where memory for the words is refused, nothing is told of them.
fn requests_to_tell(rt: HostRuntime, words: &[String]) -> Option<u64> {
    if rt.stderr().is_terminal() {
        drill_requests(rt.alloc(), words).unwrap_or(None)
    } else {
        None
    }
}

/// All that the program does: it answers a question, or does what the words say. Standard error tells why the rows of a
/// file were not opened. At the end a file that was opened holds all rows by itself.
fn run(rt: HostRuntime, words: &[String]) -> u8 {
    if let Some(question) = Question::of(words) {
        answer(rt, question, run_help(), VERSION);
        return 0;
    }
    let Ok(is_made) = makes_rows(rt.alloc(), words) else {
        return StartFault::NoMemory.status();
    };
    let Ok(setup) = setup_of(rt.alloc(), words) else {
        return StartFault::NoMemory.status();
    };
    let keeper = RowsKeeper::at(rt, setup.rows, setup.fail_keeper, is_made);
    let (status, mut keeper) = run_over(rt, words, setup.fail_host, keeper);
    end_rows(rt, PROGRAM, status, &mut keeper);
    drop(keeper);
    status
}

/// Does what the words say over a keeper, and gives it back.
fn run_over(
    rt: HostRuntime,
    words: &[String],
    fail_host: Seq<u64>,
    keeper: RowsKeeper,
) -> (u8, RowsKeeper) {
    let progress = Progress::new(rt, PROGRAM, requests_to_tell(rt, words));
    let mut host = WatchedHost::new(&progress, ModelHost::new(rt.alloc(), fail_host));
    let mut source = ReaderSource::new(rt.stdin());
    let mut sink = WriterSink::new(rt.stdout());
    let mut clock = SystemClock::new(rt);
    let boot = clock.now();
    let mut clock = WatchedClock::new(&progress, clock);
    run_main(
        rt.alloc(),
        words,
        &mut source,
        &mut sink,
        keeper,
        &mut host,
        &mut clock,
        boot,
    )
}

fn main(rt: HostRuntime) -> ExitCode {
    let status = match words_of(&rt) {
        Ok(words) => run(rt, &words),
        Err(error) => fault_of(&error).status(),
    };
    if status == StartFault::Words.status() {
        tell(rt, run_help());
    }
    ExitCode::from(status)
}
