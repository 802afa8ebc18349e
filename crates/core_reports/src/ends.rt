//! The ends of operations that fail or were cancelled. None of it takes memory.
ghost use Rattle.std.specs.Prelude.{◌≡◌, [], Some, IsSome, false, find};
ghost use Rattle.std.specs.Option.{option_map_or};
ghost use Rattle.operations.specs.OperationTable.{live_at};
ghost use Rattle.operations.specs.declared.operation.Operation.{Operation as OperationValue};
ghost use Rattle.row_machine.specs.machine.Deeds.{breaks_instance};
ghost use Rattle.row_machine.specs.machine.Task.{Task};
ghost use Rattle.row_machine.specs.machine.Operations.{after_failure, cancelled, failed, is_held_by};

use crate::turns::live_at;
use core_drafts::Draft;
use operations::{OpFault, Status};
use plans_ends::breaks_instance;
use row_readings::StateRef;
use size_values::Power;

/// Whether a failure of the live operation of a number leaves its instance in an unknown state.
fn breaks_at(view: &StateRef<'_>, number: u64) -> bool
    ensures { result ≡ option_map_or (λ (o : OperationValue Task). breaks_instance o.work.deed)
        (live_at view.now.operations number) false }
{
    match live_at(view, number) {
        Some(operation) => breaks_instance(operation.work.deed),
        None => false,
    }
}

/// After a failure of an operation, of which so many calls were done, its instance is in an unknown state where the
/// host has begun to change it.
fn break_instance(draft: &mut Draft, number: u64, done: u32)
    requires settled { draft.old.log ≡ [] }
    requires live { IsSome (live_at draft.old.state.operations number) }
    ensures state { (o : OperationValue Task) → live_at draft.old.state.operations number ≡ Some o →
        draft.new.state ≡ after_failure o.work done draft.old.state }
    ensures operations { draft.new.state.operations ≡ draft.old.state.operations }
    ensures held { draft.new.state.held ≡ draft.old.state.held }
    ensures log { draft.new.log ≡ [] }
    ensures greatest { draft.new.backing.greatest ≡ draft.old.backing.greatest }
{
    if 0 < done && breaks_at(&draft.view(), number) {
        draft.set_power_of(number, Power::Error);
    }
}

/// A live operation, of which so many calls were done, fails, and its share goes back.
pub(crate) fn fail(draft: &mut Draft, number: u64, why: OpFault, done: u32, moment: u64)
    requires settled { draft.old.log ≡ [] }
    requires live { IsSome (live_at draft.old.state.operations number) }
    requires held { IsSome (find (is_held_by number) draft.old.state.held) }
    ensures state { (o : OperationValue Task) → live_at draft.old.state.operations number ≡ Some o →
        draft.new.state ≡ failed draft.old.state o why done moment }
    ensures log { draft.new.log ≡ [] }
    ensures greatest { draft.new.backing.greatest ≡ draft.old.backing.greatest }
{
    break_instance(draft, number, done);
    draft.end(number, Status::Failure, why, moment);
    draft.give_back(number);
}

/// A live operation ends as cancelled, and its share goes back.
#[tactic(auto, unfolding(row_machine::specs::machine::Operations::cancelled))]
pub fn cancel(draft: &mut Draft, number: u64, moment: u64)
    requires settled { draft.old.log ≡ [] }
    requires live { IsSome (live_at draft.old.state.operations number) }
    requires held { IsSome (find (is_held_by number) draft.old.state.held) }
    ensures state { draft.new.state ≡ cancelled draft.old.state number moment }
    ensures log { draft.new.log ≡ [] }
    ensures greatest { draft.new.backing.greatest ≡ draft.old.backing.greatest }
{
    draft.end(number, Status::Cancelled, OpFault::None, moment);
    draft.give_back(number);
}
