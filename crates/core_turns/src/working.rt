//! The turns of a worker: it asks for a call to make on the host, and reports of one.
ghost use Rattle.std.specs.Prelude.{◌≡◌, ◌<◌, [], if◌then◌else◌};
ghost use Rattle.record_keeper.specs.Store.{Store};
ghost use Rattle.row_machine.specs.declared.events.Answer.TheVariants as answer;
ghost use Rattle.row_machine.specs.declared.events.Event.TheVariants as event_of;
ghost use Rattle.size_values.specs.Moments.{moment_limit};
ghost use Rattle.core_instances.specs.core_reports.specs.Jobs.{answer_of};
ghost use Rattle.core_turns.specs.Turns.{Comes};

use core_instances::{Estate, Turned};
use host_model::Report;
use record_keeper::Keeper;
use row_machine::Answer;
use std::alloc::Global;

/// What a worker gets where nothing waits.
fn nothing_to_do(closed: bool) -> Answer
    ensures { result ≡ (if closed then answer.Closed else answer.NoJob) }
{
    if closed {
        Answer::Closed
    } else {
        Answer::NoJob
    }
}

/// A worker asks for a call.
pub(crate) fn take(estate: &mut Estate, moment: u64) -> Answer
    requires quiet { estate.old.untold ≡ [] }
    requires early { moment < moment_limit }
    ensures { (store : Store) → Comes estate.old.state store (event_of.Take moment) result
        estate.new.state estate.new.untold store }
{
    match estate.take_job(moment) {
        Some((number, call)) => Answer::Job(number, call),
        None => nothing_to_do(estate.view().closed),
    }
}

/// The answer that a report comes to.
fn answer_of(number: u64, turned: Turned) -> Answer
    ensures { result ≡ answer_of number turned }
{
    match turned {
        Turned::Stray => Answer::Stray(number),
        Turned::Next(call) => Answer::Job(number, call),
        Turned::Ended => Answer::Ended(number),
    }
}

/// A worker reports of the call that it made for an operation.
pub(crate) fn report<R: Keeper>(
    alloc: Global,
    estate: &mut Estate,
    keeper: &mut R,
    number: u64,
    report: Report,
    moment: u64,
) -> Answer
    requires quiet { estate.old.untold ≡ [] }
    requires early { moment < moment_limit }
    ensures { Comes estate.old.state (R.store keeper.old) (event_of.Done number report moment)
        result estate.new.state estate.new.untold (R.store keeper.new) }
{
    let turned = estate.done_job(alloc, keeper, number, report, moment);
    answer_of(number, turned)
}

/// The server is told to close.
pub(crate) fn close(estate: &mut Estate) -> Answer
    requires quiet { estate.old.untold ≡ [] }
    ensures { (store : Store) → Comes estate.old.state store event_of.Close result
        estate.new.state estate.new.untold store }
{
    estate.close();
    Answer::Closed
}
