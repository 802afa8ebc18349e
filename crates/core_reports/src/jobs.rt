//! The jobs of a worker: calls on the host that operations hand out, and what their reports make of the rows.
ghost use Rattle.std.specs.Prelude.{◌≡◌, ◌<◌, ◌≤◌, ◌++◌, [], Some, find, vec_len, vec_capacity};
ghost use Rattle.std.specs.Option.{option_copied};
ghost use Rattle.operations.specs.Statuses.{is_pending};
ghost use Rattle.operations.specs.OperationTable.{first_pending_of};
ghost use Rattle.row_machine.specs.facts.Whole.{IsWhole};
ghost use Rattle.core_reports.specs.Turns.{shown_as, shown_at, IsBegun};

use crate::waiting::{Shown, Waiting};
use core_drafts::Draft;
use host_model::HostCall;
use operations::{Operation, Status};
use plain_lists::push_reserved;
use row_machine::Task;
use row_readings::{StateRef, kept_at};

/// What a report comes to.
#[derive(Drop)]
pub enum Turned {
    /// No call of the operation is out, and nothing changes.
    Stray,
    /// The next call of the operation, or the one that takes its deed back.
    Next(HostCall),
    /// The operation has ended.
    Ended,
}

/// An operation as it waits to be told.
fn shown_as(operation: &Operation<Task>, moment: u64) -> Waiting
    ensures { result ≡ shown_as moment operation.now }
{
    Waiting::Shown(Shown {
        moment,
        number: operation.number,
        status: operation.status,
        may_cancel: operation.may_cancel,
        created: operation.created,
        updated: operation.updated,
        fault: operation.fault,
    })
}

/// Leaves an operation to be told as it now stands. It takes no memory.
pub fn queue_event(untold: &mut Vec<Waiting>, view: &StateRef<'_>, number: u64, moment: u64)
    requires room { vec_len untold.old < vec_capacity untold.old }
    ensures items { untold.new.items ≡ untold.old.items ++ shown_at view.now.operations number moment }
    ensures capacity { vec_capacity untold.old ≤ vec_capacity untold.new }
{
    match kept_at(view, number) {
        Some(operation) => push_reserved(untold, shown_as(operation, moment)),
        None => {}
    }
}

/// Whether an operation of this status waits for its first call.
pub fn is_pending(status: Status) -> bool
    ensures { result ≡ is_pending status }
{
    match status {
        Status::Pending => true,
        Status::Running
        | Status::Cancelling
        | Status::Success
        | Status::Failure
        | Status::Cancelled => false,
    }
}

/// The first operation that waits for its first call.
fn first_waiting<'x>(operations: &'x [Operation<Task>]) -> Option<&'x Operation<Task>>
    ensures { option_copied result ≡ find (λ o. is_pending o.status) operations.now }
{
    operations.iter().find(|o| is_pending(o.status))
}

/// The number of the first operation that waits for its first call.
pub fn first_pending(view: &StateRef<'_>) -> Option<u64>
    ensures { result ≡ first_pending_of view.now.operations }
{
    match first_waiting(view.live) {
        Some(operation) => Some(operation.number),
        None => None,
    }
}

/// The first operation that waits runs, and hands its first call out.
pub fn begin(draft: &mut Draft, number: u64, moment: u64) -> HostCall
    requires whole { IsWhole draft.old.state }
    requires settled { draft.old.log ≡ [] }
    requires first { first_pending_of draft.old.state.operations ≡ Some number }
    ensures begun { IsBegun draft.old.state number moment result draft.new.state }
    ensures log { draft.new.log ≡ [] }
    ensures greatest { draft.new.backing.greatest ≡ draft.old.backing.greatest }
{
    draft.set_status(number, Status::Running, moment);
    draft.hand_out(number)
}
