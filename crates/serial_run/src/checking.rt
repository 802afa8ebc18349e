ghost use Rattle.serial_run.specs.Commands.{Checks, TellsReport};
ghost use Rattle.serial_run.specs.Worlds.{outlet};

use crate::report::check_report;
use crate::telling::{OUT_OF_MEMORY, open_status, tell};
use http_front::Sink;
use record_keeper::Keeper;
use serial_steps::Daemon;
use size_values::NoMemory;
use std::alloc::Global;

/// Tells of a server how many rows of each kind it has, and its books.
#[tactic(auto, unfolding(crate::specs::Report::counts_of, crate::specs::Report::books_of))]
fn tell_report<K: Sink>(alloc: Global, sink: &mut K, daemon: &Daemon) -> u8
    ensures { TellsReport result daemon.now (outlet K.held K.failures sink.old)
        (outlet K.held K.failures sink.new) }
{
    match check_report(alloc, &daemon.view()) {
        Ok(report) => {
            let status = tell(sink, report.view().as_bytes());
            drop(report);
            status
        }
        Err(NoMemory) => OUT_OF_MEMORY,
    }
}

/// Opens what a keeper has and tells how many rows of each kind that is, and the books. It gives the exit status.
pub fn check<K: Sink, R: Keeper>(alloc: Global, sink: &mut K, keeper: &mut R) -> u8
    ensures { Checks result (outlet K.held K.failures sink.old) (outlet K.held K.failures sink.new)
        (R.store keeper.old) (R.store keeper.new) }
{
    match Daemon::begin(alloc, keeper) {
        Ok(daemon) => {
            let status = tell_report(alloc, sink, &daemon);
            drop(daemon);
            status
        }
        Err(why) => {
            let status = open_status(&why);
            drop(why);
            status
        }
    }
}
