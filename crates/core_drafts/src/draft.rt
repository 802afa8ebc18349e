ghost use Rattle.std.specs.Prelude.{◌≡◌, ◌+◌, ◌*◌, ◌-◌, ◌^◌, ◌<◌, ◌≤◌, ◌∷◌, ◌++◌, [], true, Some, IsSome, length, take};
ghost use Rattle.std.specs.Prelude.{drop, find, IfOk, OnOk};
ghost use Rattle.host_model.specs.declared.call.HostCall.{HostCall as HostCallValue};
ghost use Rattle.operations.specs.OperationTable.{live_at};
ghost use Rattle.operations.specs.declared.operation.Operation.{Operation as OperationValue};
ghost use Rattle.row_machine.specs.declared.changes.RowChange.TheVariants as change_of;
ghost use Rattle.row_machine.specs.machine.Changes.{changed, applied};
ghost use Rattle.row_machine.specs.machine.State.{empty_state};
ghost use Rattle.row_machine.specs.machine.Task.{Task as TaskValue};
ghost use Rattle.row_machine.specs.machine.Operations.{claiming, moved, with_task};
ghost use Rattle.row_machine.specs.machine.Operations.{with_power, ended, is_held_by, converted};
ghost use Rattle.row_machine.specs.machine.Operations.{returned};
ghost use Rattle.core_drafts.specs.Background.{holding, handed_at, HasCountAt};
ghost use Rattle.core_drafts.specs.Drafted.{former, stopped, spares_for, spares_of, IsReady, CanClaim};
ghost use Rattle.core_drafts.specs.declared.calls.Handing.TheVariants as handing;
ghost use Rattle.size_values.specs.Amounts.{part};
ghost use Rattle.size_values.specs.declared.amounts.Part.{Part};

use crate::calls::Handing;
use crate::lists::{Lists, Undone};
use host_model::HostCall;
use operations::{OpFault, Status};
use plain_lists::push_reserved;
use records::{Instance, Row};
use row_machine::{RowChange, Task};
use row_readings::{InstancePower, StateRef};
use size_values::{Amounts, NoMemory, PoolPart, Power, Seq, Text};
use std::alloc::Global;
use std::marker::Model;

/// Rows of which no facts are known: in the middle of a list of changes they need not hold. Changes stay in a log until
/// they are kept, and those in the log can be undone: neither takes memory. Contracts see the state, the log,
/// and what there is memory for.
#[derive(Drop)]
pub struct Draft {
    pub(crate) lists: Lists,
    pub(crate) log: Vec<Undone>,
    pub(crate) spares: Vec<InstancePower>,
}

impl Model for Draft {
    ghost use Rattle.core_drafts.specs.Drafted.{Drafted};

    ghost Value = { Drafted };

    ghost use Rattle.core_drafts.specs.Inside.{drafted, IsDraft};

    ghost view = { drafted };

    ghost invariant = { IsDraft };
}

/// The status of a new instance.
pub(crate) fn stopped(alloc: Global, row: &Instance) -> Result<InstancePower, NoMemory>
    ensures { IfOk result (λ p. p ≡ stopped row.now) }
{
    let project = row.project.copy(alloc)?;
    let name = row.name.copy(alloc)?;
    Ok(InstancePower {
        project,
        name,
        power: Power::Stopped,
    })
}

/// Adds the status that a row may need where it is put.
fn push_spare(alloc: Global, spares: &mut Vec<InstancePower>, row: &Row) -> Result<(), NoMemory>
    ensures { OnOk result (spares.new.items ≡ spares.old.items ++ spares_for (change_of.Put row.now)) }
{
    match row {
        Row::Instance(row) => {
            spares.push(stopped(alloc, row)?)?;
            Ok(())
        }
        Row::Project(_) => Ok(()),
        Row::Profile(_) => Ok(()),
        Row::Network(_) => Ok(()),
        Row::Pool(_) => Ok(()),
        Row::Volume(_) => Ok(()),
        Row::Snapshot(_) => Ok(()),
    }
}

/// The statuses that changes may need, in their order.
fn spares_of(alloc: Global, changes: &Seq<RowChange>) -> Result<Vec<InstancePower>, NoMemory>
    ensures { IfOk result (λ spares. spares.items ≡ spares_of changes.now) }
{
    let mut spares = Vec::new(alloc);
    for change in changes.view() {
        match change {
            RowChange::Put(row) => push_spare(alloc, &mut spares, row)?,
            RowChange::Remove(_, _) => {}
        }
    }
    Ok(spares)
}

impl Draft {
    /// No rows and no operations, with room for operations that end.
    pub fn new(alloc: Global) -> Result<Draft, NoMemory>
        ensures state { IfOk result (λ d. d.state ≡ empty_state) }
        ensures log { IfOk result (λ d. d.log ≡ []) }
        ensures greatest { IfOk result (λ d. d.backing.greatest ≡ 0) }
    {
        let lists = Lists::new(alloc)?;
        Ok(Draft {
            lists,
            log: Vec::new(alloc),
            spares: Vec::new(alloc),
        })
    }

    /// The rows, to be read.
    pub fn view(&self) -> StateRef<'_>
        ensures { result ≡ self.now.state }
    {
        self.lists.view()
    }

    /// The server is told to close. It takes no memory.
    #[tactic(auto, using(crate::proofs::Settled::settled_is))]
    pub fn close(&mut self)
        requires settled { self.old.log ≡ [] }
        ensures state { self.new.state ≡ record self.old.state { closed = true } }
        ensures log { self.new.log ≡ [] }
        ensures backing { self.new.backing ≡ self.old.backing }
    {
        self.lists.close();
    }

    /// Takes memory for these changes, and for taking them back.
    pub fn reserve_for(&mut self, alloc: Global, changes: &Seq<RowChange>) -> Result<(), NoMemory>
        requires settled { self.old.log ≡ [] }
        ensures ready { OnOk result (IsReady self.new changes.now) }
        ensures state { self.new.state ≡ self.old.state }
        ensures log { self.new.log ≡ [] }
        ensures backing { self.new.backing ≡ self.old.backing }
    {
        let Some(count) = changes.len().checked_mul(2) else {
            return Err(NoMemory);
        };
        self.lists.reserve(count)?;
        self.log.reserve(changes.len())?;
        self.spares = spares_of(alloc, changes)?;
        Ok(())
    }

    fn change(&mut self, change: RowChange)
        requires room { length self.old.log + 2 ≤ self.old.room }
        requires log { 1 ≤ self.old.log_room }
        requires spares { take (length (spares_for change)) self.old.spares ≡ spares_for change }
        ensures state { self.new.state ≡ changed self.old.state change }
        ensures former { former self.new ≡ former self.old }
        ensures made { length self.new.log ≡ length self.old.log + 1 }
        ensures room { self.old.room ≤ self.new.room + 1 }
        ensures log { self.old.log_room ≤ self.new.log_room + 1 }
        ensures spares { self.new.spares ≡ drop (length (spares_for change)) self.old.spares }
        ensures backing { self.new.backing ≡ self.old.backing }
    {
        let undone = self.lists.change(change, &mut self.spares);
        push_reserved(&mut self.log, undone);
    }

    /// Makes the changes in their order. It takes no memory.
    pub fn apply(&mut self, changes: Seq<RowChange>)
        requires ready { IsReady self.old changes }
        ensures state { self.new.state ≡ applied self.old.state changes }
        ensures former { former self.new ≡ former self.old }
        ensures backing { self.new.backing ≡ self.old.backing }
    {
        let mut changes = changes;
        for _place in 0..changes.len() {
            match changes.take_first() {
                Some(change) => self.change(change),
                None => {}
            }
        }
    }

    /// Keeps the changes: they are not undone any more.
    pub fn keep_changes(&mut self)
        ensures state { self.new.state ≡ self.old.state }
        ensures log { self.new.log ≡ [] }
        ensures backing { self.new.backing ≡ self.old.backing }
    {
        self.log.clear();
    }

    fn undo_last(&mut self)
        ensures former { former self.new ≡ former self.old }
        ensures made { length self.new.log ≡ length self.old.log - 1 }
        ensures greatest { self.new.backing.greatest ≡ self.old.backing.greatest }
    {
        match self.log.pop() {
            Some(undone) => self.lists.undo_change(undone),
            None => {}
        }
    }

    /// Undoes the changes that are not kept yet, the last one first. It takes no memory.
    pub fn undo_changes(&mut self)
        ensures state { self.new.state ≡ former self.old }
        ensures log { self.new.log ≡ [] }
        ensures greatest { self.new.backing.greatest ≡ self.old.backing.greatest }
    {
        for _place in 0..self.log.len() {
            self.undo_last();
        }
    }

    /// Takes memory for one more operation, for its share, and for taking it back.
    pub fn reserve_operation(&mut self) -> Result<(), NoMemory>
        requires settled { self.old.log ≡ [] }
        ensures ready { OnOk result (CanClaim self.new) }
        ensures state { self.new.state ≡ self.old.state }
        ensures log { self.new.log ≡ [] }
        ensures greatest { self.new.backing.greatest ≡ self.old.backing.greatest }
    {
        self.lists.reserve_operation()?;
        self.log.reserve(1)?;
        Ok(())
    }

    /// Enters an operation with the next number, which is answered. It is taken back as every other change is. It takes
    /// no memory.
    pub fn claim(&mut self, work: Task, moment: u64) -> u64
        requires ready { CanClaim self.old }
        requires number { self.old.state.operations.next ≤ 2 ^ 40 }
        ensures state { self.new.state ≡ claiming self.old.state work moment }
        ensures former { former self.new ≡ former self.old }
        ensures number { result ≡ self.old.state.operations.next }
        ensures hold_room { self.new.backing.hold_room ≡ self.old.backing.hold_room }
        ensures greatest { self.new.backing.greatest ≡ self.old.backing.greatest }
    {
        push_reserved(&mut self.log, Undone::Claimed);
        self.lists.claim(work, moment)
    }

    /// The operation that was entered last holds this share of a project from now on. It takes no memory.
    pub fn hold(&mut self, project: Text, share: Amounts, on: PoolPart)
        requires room { 1 ≤ self.old.backing.hold_room }
        requires limit { self.old.state.operations.next - 1 < 2 ^ 40 }
        requires above { self.old.backing.greatest < self.old.state.operations.next - 1 }
        requires small { (k : Part) → part k share < 2 ^ 80 }
        requires small_part { on.disk < 2 ^ 80 }
        ensures state { self.new.state ≡ holding project share on self.old.state }
        ensures log { self.new.log ≡ self.old.log }
        ensures greatest { self.new.backing.greatest ≡ self.old.state.operations.next - 1 }
    {
        self.lists.hold(project, share, on);
    }

    /// A live operation takes another status, since this moment. It takes no memory.
    #[tactic(auto, using(crate::proofs::Settled::settled_is))]
    pub fn set_status(&mut self, number: u64, status: Status, moment: u64)
        requires settled { self.old.log ≡ [] }
        requires live { IsSome (live_at self.old.state.operations number) }
        ensures state { self.new.state ≡ moved number status moment self.old.state }
        ensures log { self.new.log ≡ [] }
        ensures greatest { self.new.backing.greatest ≡ self.old.backing.greatest }
    {
        self.lists.set_status(number, status, moment);
    }

    /// A live operation hands out its first call that is left. It takes no memory.
    #[tactic(auto, using(crate::proofs::Settled::settled_is))]
    pub fn hand_out(&mut self, number: u64) -> HostCall
        requires settled { self.old.log ≡ [] }
        requires call { IsSome (handed_at handing.First self.old.state.operations number) }
        ensures state { (call : HostCallValue) (task : TaskValue)
            → handed_at handing.First self.old.state.operations number ≡ Some (call, task) →
            (result ≡ call) × (self.new.state ≡ with_task number task self.old.state) }
        ensures log { self.new.log ≡ [] }
        ensures greatest { self.new.backing.greatest ≡ self.old.backing.greatest }
    {
        self.lists.hand_out(number, Handing::First)
    }

    /// One more call of a live operation was done, and it hands out the next one. It takes no memory.
    #[tactic(auto, using(crate::proofs::Settled::settled_is))]
    pub fn hand_out_next(&mut self, number: u64) -> HostCall
        requires settled { self.old.log ≡ [] }
        requires call { IsSome (handed_at handing.Next self.old.state.operations number) }
        requires count { HasCountAt handing.Next self.old.state.operations number }
        ensures state { (call : HostCallValue) (task : TaskValue)
            → handed_at handing.Next self.old.state.operations number ≡ Some (call, task) →
            (result ≡ call) × (self.new.state ≡ with_task number task self.old.state) }
        ensures log { self.new.log ≡ [] }
        ensures greatest { self.new.backing.greatest ≡ self.old.backing.greatest }
    {
        self.lists.hand_out(number, Handing::Next)
    }

    /// A live operation hands out the call that takes its deed back. It takes no memory.
    #[tactic(auto, using(crate::proofs::Settled::settled_is))]
    pub fn hand_out_undo(&mut self, number: u64) -> HostCall
        requires settled { self.old.log ≡ [] }
        requires call { IsSome (handed_at handing.Undo self.old.state.operations number) }
        ensures state { (call : HostCallValue) (task : TaskValue)
            → handed_at handing.Undo self.old.state.operations number ≡ Some (call, task) →
            (result ≡ call) × (self.new.state ≡ with_task number task self.old.state) }
        ensures log { self.new.log ≡ [] }
        ensures greatest { self.new.backing.greatest ≡ self.old.backing.greatest }
    {
        self.lists.hand_out(number, Handing::Undo)
    }

    /// The instance that a live operation is about has this status from now on, where it has one. It takes no memory.
    #[tactic(auto, using(crate::proofs::Settled::settled_is))]
    pub fn set_power_of(&mut self, number: u64, power: Power)
        requires settled { self.old.log ≡ [] }
        requires live { IsSome (live_at self.old.state.operations number) }
        ensures state { (o : OperationValue TaskValue) → live_at self.old.state.operations number ≡ Some o →
            self.new.state ≡ with_power self.old.state o.work.project o.work.target.name power }
        ensures log { self.new.log ≡ [] }
        ensures greatest { self.new.backing.greatest ≡ self.old.backing.greatest }
    {
        self.lists.set_power_of(number, power);
    }

    /// A live operation ends, at this moment; the oldest of those that ended goes where there would be too many. It
    /// takes no memory.
    #[tactic(auto, using(crate::proofs::Settled::settled_is))]
    pub fn end(&mut self, number: u64, status: Status, fault: OpFault, moment: u64)
        requires settled { self.old.log ≡ [] }
        requires live { IsSome (live_at self.old.state.operations number) }
        ensures state { self.new.state ≡ ended number status fault moment self.old.state }
        ensures log { self.new.log ≡ [] }
        ensures greatest { self.new.backing.greatest ≡ self.old.backing.greatest }
    {
        self.lists.end(number, status, fault, moment);
    }

    /// The share of an operation that succeeded becomes its object's. It takes no memory.
    #[tactic(auto, using(crate::proofs::Settled::settled_is))]
    pub fn convert(&mut self, number: u64)
        requires settled { self.old.log ≡ [] }
        requires held { IsSome (find (is_held_by number) self.old.state.held) }
        ensures state { self.new.state ≡ converted number self.old.state }
        ensures log { self.new.log ≡ [] }
        ensures greatest { self.new.backing.greatest ≡ self.old.backing.greatest }
    {
        self.lists.convert(number);
    }

    /// The share of an operation that failed or was cancelled goes back whole. It takes no memory.
    #[tactic(auto, using(crate::proofs::Settled::settled_is))]
    pub fn give_back(&mut self, number: u64)
        requires settled { self.old.log ≡ [] }
        requires held { IsSome (find (is_held_by number) self.old.state.held) }
        ensures state { self.new.state ≡ returned number self.old.state }
        ensures log { self.new.log ≡ [] }
        ensures greatest { self.new.backing.greatest ≡ self.old.backing.greatest }
    {
        self.lists.give_back(number);
    }
}
