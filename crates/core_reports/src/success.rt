//! The success of an operation: all that it needs is made ahead, its rows are committed, and from then on it takes no
//! memory.
ghost use Rattle.std.specs.Prelude.{◌≡◌, ◌+◌, ◌<◌, ◌≤◌, ◌++◌, [], Some, IsSome, IfOk, OnOk, find, map, length, vec_len};
ghost use Rattle.std.specs.Prelude.{vec_capacity};
ghost use Rattle.std.specs.List.{AllByRecursion};
ghost use Rattle.operations.specs.OperationTable.{live_at};
ghost use Rattle.operations.specs.declared.operation.OpFault.TheVariants as fault;
ghost use Rattle.operations.specs.declared.operation.Operation.{Operation as OperationValue};
ghost use Rattle.operations.specs.declared.status.Status.TheVariants as status;
ghost use Rattle.core_drafts.specs.Drafted.{IsReady};
ghost use Rattle.row_machine.specs.facts.Whole.{IsWhole};
ghost use Rattle.row_machine.specs.machine.Changes.{applied};
ghost use Rattle.row_machine.specs.machine.Task.{Task as TaskValue};
ghost use Rattle.row_machine.specs.machine.Operations.{converted, ended, is_held_by, success_changes, with_power_after};
ghost use Rattle.machine_laws.specs.Entries.{entry_changes};
ghost use Rattle.core_reports.specs.Entries.{HasEntry};
ghost use Rattle.core_reports.specs.Reported.{CommitsSome, IsEndingOf};
ghost use Rattle.core_reports.specs.Turns.{shown_at};
ghost use Rattle.core_reports.specs.declared.waiting.Waiting.TheVariants as waiting_of;

use crate::entries::entry_changes;
use crate::jobs::queue_event;
use crate::turns::live_at;
use crate::waiting::Waiting;
use core_drafts::Draft;
use operations::{OpFault, Status};
use plain_lists::push_reserved;
use plans_ends::{power_after, success_changes, success_notices};
use record_keeper::Keeper;
use records::Untold;
use row_machine::{RowChange, Task};
use row_readings::StateRef;
use size_values::{EntryChange, NoMemory, Or, Power, Seq};
use std::alloc::Global;

/// What the success of an operation needs: the status of its target, the changes of rows with those of their entries,
/// and the notices that tell of it.
#[derive(Drop)]
pub(crate) struct Ending {
    pub(crate) power: Option<Power>,
    pub(crate) changes: Seq<RowChange>,
    pub(crate) entries: Seq<EntryChange>,
    pub(crate) notices: Seq<Untold>,
}

/// The changes of rows at a success, with those of their entries.
fn changes_of(
    alloc: Global,
    view: &StateRef<'_>,
    work: &Task,
) -> Result<(Seq<RowChange>, Seq<EntryChange>), NoMemory>
    requires { AllByRecursion HasEntry (success_changes view.now work.now) }
    ensures changes { IfOk result (λ x. x.0 ≡ success_changes view.now work.now) }
    ensures entries { IfOk result (λ x. x.1 ≡ entry_changes (success_changes view.now work.now)) }
{
    let changes = success_changes(alloc, view, work)?;
    match entry_changes(alloc, &changes) {
        Ok(entries) => Ok((changes, entries)),
        Err(why) => {
            drop(changes);
            Err(why)
        }
    }
}

/// What the success of a deed needs, read off the rows before it.
fn ending_of(
    alloc: Global,
    view: &StateRef<'_>,
    work: &Task,
    moment: u64,
) -> Result<Ending, NoMemory>
    requires { AllByRecursion HasEntry (success_changes view.now work.now) }
    ensures { IfOk result (IsEndingOf view.now work.now moment) }
{
    let notices = success_notices(alloc, work, moment)?;
    match changes_of(alloc, view, work) {
        Ok((changes, entries)) => Ok(Ending {
            power: power_after(view, work),
            changes,
            entries,
            notices,
        }),
        Err(why) => {
            drop(notices);
            Err(why)
        }
    }
}

/// What the success of the live operation of a number needs, read off the rows before it.
pub(crate) fn make_ending(
    alloc: Global,
    view: &StateRef<'_>,
    number: u64,
    moment: u64,
) -> Result<Ending, NoMemory>
    requires whole { IsWhole view.now }
    requires live { IsSome (live_at view.now.operations number) }
    ensures { IfOk result (λ e. (o : OperationValue TaskValue) → live_at view.now.operations number ≡ Some o
        → IsEndingOf view.now o.work moment e) }
{
    match live_at(view, number) {
        Some(operation) => ending_of(alloc, view, &operation.work, moment),
        None => unreachable!(),
    }
}

/// The instance that a live operation is about has the status that its success gives it, where it gives one.
fn give_power(draft: &mut Draft, number: u64, power: Option<Power>)
    requires settled { draft.old.log ≡ [] }
    requires live { IsSome (live_at draft.old.state.operations number) }
    ensures state { (o : OperationValue TaskValue) → live_at draft.old.state.operations number ≡ Some o →
        draft.new.state ≡ with_power_after o.work power draft.old.state }
    ensures operations { draft.new.state.operations ≡ draft.old.state.operations }
    ensures held { draft.new.state.held ≡ draft.old.state.held }
    ensures log { draft.new.log ≡ [] }
    ensures greatest { draft.new.backing.greatest ≡ draft.old.backing.greatest }
{
    match power {
        Some(power) => draft.set_power_of(number, power),
        None => {}
    }
}

/// Commits changes of entries in one call to the keeper, where there are some.
fn commit_some<R: Keeper>(keeper: &mut R, entries: &Seq<EntryChange>) -> Result<(), OpFault>
    ensures { CommitsSome result entries.now (R.store keeper.old) (R.store keeper.new) }
{
    if entries.is_empty() {
        return Ok(());
    }
    let before = keeper.faults();
    match keeper.commit(entries) {
        Ok(()) => Ok(()),
        Err(Or::NoMemory) => Err(OpFault::NoMemory),
        Err(Or::Why(_)) => Err(OpFault::Keeper {
            before,
            after: keeper.faults(),
        }),
    }
}

/// The target of a live operation gets its status, memory is taken for the changes of rows, and these are committed; or
/// it is told why not. A status stays given: the failure of the operation gives another one.
pub(crate) fn carry_out<R: Keeper>(
    alloc: Global,
    draft: &mut Draft,
    keeper: &mut R,
    number: u64,
    ending: &Ending,
) -> Result<(), OpFault>
    requires settled { draft.old.log ≡ [] }
    requires live { IsSome (live_at draft.old.state.operations number) }
    ensures stored { CommitsSome result ending.now.entries (R.store keeper.old) (R.store keeper.new) }
    ensures ready { OnOk result (IsReady draft.new ending.now.changes) }
    ensures state { (o : OperationValue TaskValue) → live_at draft.old.state.operations number ≡ Some o →
        draft.new.state ≡ with_power_after o.work ending.now.power draft.old.state }
    ensures operations { draft.new.state.operations ≡ draft.old.state.operations }
    ensures held { draft.new.state.held ≡ draft.old.state.held }
    ensures log { draft.new.log ≡ [] }
    ensures greatest { draft.new.backing.greatest ≡ draft.old.backing.greatest }
{
    give_power(draft, number, ending.power);
    if draft.reserve_for(alloc, &ending.changes).is_err() {
        return Err(OpFault::NoMemory);
    }
    commit_some(keeper, &ending.entries)
}

/// The changes of rows are made, the live operation ends, and its share becomes its object's. It takes no memory.
fn make_success(draft: &mut Draft, number: u64, changes: Seq<RowChange>, moment: u64)
    requires settled { draft.old.log ≡ [] }
    requires ready { IsReady draft.old changes }
    requires live { IsSome (live_at draft.old.state.operations number) }
    requires held { IsSome (find (is_held_by number) draft.old.state.held) }
    ensures state { draft.new.state ≡
        converted number (ended number status.Success fault.None moment (applied draft.old.state changes)) }
    ensures log { draft.new.log ≡ [] }
    ensures greatest { draft.new.backing.greatest ≡ draft.old.backing.greatest }
{
    draft.apply(changes);
    draft.keep_changes();
    draft.end(number, Status::Success, OpFault::None, moment);
    draft.convert(number);
}

/// Leaves notices to be told, in their order. It takes no memory.
fn queue_events(untold: &mut Vec<Waiting>, notices: Seq<Untold>)
    requires room { vec_len untold.old + length notices ≤ vec_capacity untold.old }
    ensures items { untold.new.items ≡ untold.old.items ++ map waiting_of.Whole notices }
    ensures capacity { vec_capacity untold.old ≤ vec_capacity untold.new }
{
    let mut notices = notices;
    for _place in 0..notices.len() {
        match notices.take_first() {
            Some(notice) => push_reserved(untold, Waiting::Whole(notice)),
            None => {}
        }
    }
    drop(notices);
}

/// A live operation succeeds, whose target has its status and whose rows were committed: the rest is done, and the
/// notices of the success are left to be told, and then the operation. It takes no memory.
pub(crate) fn succeed(
    draft: &mut Draft,
    untold: &mut Vec<Waiting>,
    number: u64,
    ending: Ending,
    moment: u64,
)
    requires settled { draft.old.log ≡ [] }
    requires ready { IsReady draft.old ending.changes }
    requires live { IsSome (live_at draft.old.state.operations number) }
    requires held { IsSome (find (is_held_by number) draft.old.state.held) }
    requires room { vec_len untold.old + length ending.notices < vec_capacity untold.old }
    ensures state { draft.new.state ≡
        converted number (ended number status.Success fault.None moment (applied draft.old.state ending.changes)) }
    ensures untold { untold.new.items ≡
        (untold.old.items ++ map waiting_of.Whole ending.notices) ++ shown_at draft.new.state.operations number moment }
    ensures capacity { vec_capacity untold.old ≤ vec_capacity untold.new }
    ensures log { draft.new.log ≡ [] }
    ensures greatest { draft.new.backing.greatest ≡ draft.old.backing.greatest }
{
    drop(ending.entries);
    make_success(draft, number, ending.changes, moment);
    queue_events(untold, ending.notices);
    queue_event(untold, &draft.view(), number, moment);
}
