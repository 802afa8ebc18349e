//! What comes of the report of a call, before anything changes.
ghost use Rattle.std.specs.Prelude.{◌≡◌, ◌+◌, ◌<◌, IfSome};
ghost use Rattle.std.specs.Option.{option_copied};
ghost use Rattle.operations.specs.OperationTable.{live_at};
ghost use Rattle.operations.specs.declared.operation.Operation.{Operation as OperationValue};
ghost use Rattle.row_machine.specs.machine.Task.{Task as TaskValue};
ghost use Rattle.core_reports.specs.Turns.{turn_running, turn_cancelling, turn_while, turn_of};

use host_model::{HostCall, Report};
use operations::{OpFault, Operation, Status};
use row_machine::Task;
use row_readings::StateRef;

/// What comes of the report of a call.
#[derive(Clone, Copy)]
pub(crate) enum Turn {
    /// No call of the operation is out.
    Stray,
    /// The next call is handed out.
    Next,
    /// The last call was done.
    Last,
    /// The operation fails.
    Fails(OpFault),
    /// The call that takes the deed back is handed out.
    Undo,
    /// The operation ends as cancelled.
    Cancels,
}

/// The live operation of a number.
pub fn live_at<'x>(view: &StateRef<'x>, number: u64) -> Option<&'x Operation<Task>>
    ensures { option_copied result ≡ live_at view.now.operations number }
{
    view.live.iter().find(|o| o.number == number)
}

/// Of an operation that runs, of which so many calls were done before the one that is reported.
fn turn_running(work: &Task, report: Report) -> Turn
    requires { work.now.done + 1 < 256 }
    ensures { result ≡ turn_running work.now report }
{
    match report {
        Report::Done => {
            if work.calls.is_empty() {
                Turn::Last
            } else {
                Turn::Next
            }
        }
        Report::Failed(rise) => Turn::Fails(OpFault::Host {
            call: (work.done + 1) as u8,
            before: rise.before,
            after: rise.after,
        }),
        Report::NoMemory => Turn::Fails(OpFault::NoMemory),
    }
}

/// Of an operation that is being cancelled.
fn turn_cancelling(undo: &Option<HostCall>) -> Turn
    ensures { result ≡ turn_cancelling undo.now }
{
    match undo {
        Some(_) => Turn::Undo,
        None => Turn::Cancels,
    }
}

fn turn_while(operation: &Operation<Task>, report: Report) -> Turn
    requires { operation.now.work.done + 1 < 256 }
    ensures { result ≡ turn_while operation.now report operation.now.status }
{
    match operation.status {
        Status::Running => turn_running(&operation.work, report),
        Status::Cancelling => turn_cancelling(&operation.work.undo),
        Status::Pending | Status::Success | Status::Failure | Status::Cancelled => Turn::Stray,
    }
}

/// What comes of a report of the operation of a number.
pub(crate) fn turn_of(view: &StateRef<'_>, number: u64, report: Report) -> Turn
    requires { IfSome (live_at view.now.operations number) (λ (o : OperationValue TaskValue). o.work.done + 1 < 256) }
    ensures { result ≡ turn_of (live_at view.now.operations number) report }
{
    match live_at(view, number) {
        Some(operation) => turn_while(operation, report),
        None => Turn::Stray,
    }
}
