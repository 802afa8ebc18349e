//! `incusd`: answers the requests of connections to 127.0.0.1 and to a socket file, each on a thread of
//! its own, over a modelled host, and over rows in memory or in a file, by the clock of the system
//! (`command_words::serve_help`).
#![tactic(auto)]

mod alarm;
mod doors;
mod listening;
mod request_log;
mod starting;
mod telling;
mod threads;
mod told_keeper;

use crate::starting::serve;
use crate::telling::tell_end;
use command_words::serve_help;
use program_start::{Question, StartFault, answer, fault_of, tell, words_of};
use std::process::ExitCode;

/// The line of `--version`.
const VERSION: &str = "incusd 0.1.0\n";

/// Answers a question, and gives the exit status.
fn answer_question(rt: HostRuntime, question: Question) -> u8 {
    answer(rt, question, serve_help(), VERSION);
    0
}

fn main(rt: HostRuntime) -> ExitCode {
    let status = match words_of(&rt) {
        Ok(words) => match Question::of(&words) {
            Some(question) => answer_question(rt, question),
            None => serve(rt, rt, &words),
        },
        Err(error) => fault_of(&error).status(),
    };
    if status == StartFault::Words.status() {
        tell(rt, serve_help());
    }
    tell_end(rt, status);
    ExitCode::from(status)
}
