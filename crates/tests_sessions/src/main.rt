//! `tests_sessions`: judges the runs on its standard input, prints what is wrong in each that goes
//! wrong, and then how many runs, requests and replies it judged. Its exit status is 1 where
//! something is wrong. docs/RUNS.md describes the format of the runs.
#![tactic(auto)]

mod entry_runs;
mod headers;
mod judging;
mod lines;
mod running;
mod spelling;
mod table_judging;
mod table_runs;
mod tables;

use crate::judging::judge_text;
use std::io;
use std::process::ExitCode;

fn main(rt: HostRuntime) -> ExitCode {
    let Ok(text) = io::read_to_string(rt.alloc(), rt.stdin()) else {
        return ExitCode::FAILURE;
    };
    let mut report = String::new(rt.alloc());
    let is_well = judge_text(rt.alloc(), text.as_str(), &mut report);
    drop(text);
    let printed = print!(rt; "{report}");
    drop(report);
    if printed.is_ok() && is_well == Ok(true) {
        ExitCode::SUCCESS
    } else {
        ExitCode::FAILURE
    }
}
