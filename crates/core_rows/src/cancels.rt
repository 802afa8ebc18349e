//! Cancels of live operations. None of it takes memory.
ghost use Rattle.std.specs.Prelude.{◌≡◌, ◌<◌, ◌≤◌, ◌++◌, [], IsSome, find, vec_len, vec_capacity};
ghost use Rattle.operations.specs.OperationTable.{live_at};
ghost use Rattle.row_machine.specs.machine.Operations.{is_held_by};
ghost use Rattle.core_rows.specs.Cancels.{waits, stopped};
ghost use Rattle.core_rows.specs.Counted.{counted_out};
ghost use Rattle.core_judging.specs.core_reports.specs.Turns.{shown_at};

use core_drafts::Draft;
use core_judging::{Totals, Waiting, cancel, give_back_held, is_pending, live_at, queue_event};
use operations::Status;
use row_readings::StateRef;

/// Whether the live operation of a number waits for its first call.
fn waits(view: &StateRef<'_>, number: u64) -> bool
    ensures { result ≡ waits view.now number }
{
    match live_at(view, number) {
        Some(operation) => is_pending(operation.status),
        None => false,
    }
}

/// A live operation that waits ends as cancelled, and its share goes back; one that runs is being cancelled from now
/// on, and keeps its share until its deed was taken back.
fn end_or_turn(draft: &mut Draft, number: u64, moment: u64)
    requires settled { draft.old.log ≡ [] }
    requires live { IsSome (live_at draft.old.state.operations number) }
    requires held { IsSome (find (is_held_by number) draft.old.state.held) }
    ensures state { draft.new.state ≡ stopped draft.old.state number moment (waits draft.old.state number) }
    ensures log { draft.new.log ≡ [] }
    ensures greatest { draft.new.backing.greatest ≡ draft.old.backing.greatest }
{
    if waits(&draft.view(), number) {
        cancel(draft, number, moment);
    } else {
        draft.set_status(number, Status::Cancelling, moment);
    }
}

/// A live operation is cancelled, and left to be told.
pub(crate) fn stop(draft: &mut Draft, untold: &mut Vec<Waiting>, number: u64, moment: u64)
    requires settled { draft.old.log ≡ [] }
    requires live { IsSome (live_at draft.old.state.operations number) }
    requires held { IsSome (find (is_held_by number) draft.old.state.held) }
    requires room { vec_len untold.old < vec_capacity untold.old }
    ensures state { draft.new.state ≡ stopped draft.old.state number moment (waits draft.old.state number) }
    ensures untold { untold.new.items ≡ untold.old.items ++ shown_at draft.new.state.operations number moment }
    ensures capacity { vec_capacity untold.old ≤ vec_capacity untold.new }
    ensures log { draft.new.log ≡ [] }
    ensures greatest { draft.new.backing.greatest ≡ draft.old.backing.greatest }
{
    end_or_turn(draft, number, moment);
    queue_event(untold, &draft.view(), number, moment);
}

/// The cancel of a live operation gives back what it claims, where it waits: that counts no more for its project.
pub(crate) fn count_out(totals: &mut Totals, view: &StateRef<'_>, number: u64)
    ensures { totals.new ≡ counted_out view.now number totals.old }
{
    match live_at(view, number) {
        Some(operation) => {
            if is_pending(operation.status) {
                give_back_held(totals, view, number, &operation.work);
            }
        }
        None => {}
    }
}
