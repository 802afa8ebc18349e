//! Background operations and their shares: entered, moved and ended without taking memory.
ghost use Rattle.std.specs.Prelude.{◌≡◌, ◌+◌, ◌-◌, ◌^◌, ◌≤◌, ◌<◌, ◌++◌, [], ◌∷◌, Some, IsSome, IfSome, OnOk, IfOk};
ghost use Rattle.std.specs.Prelude.{is_some, find, length, take, vec_capacity};
ghost use Rattle.host_model.specs.declared.call.HostCall.{HostCall as HostCallValue};
ghost use Rattle.instance_states.specs.Plans.{undo_of};
ghost use Rattle.operations.specs.OperationTable.{no_operations, entered};
ghost use Rattle.operations.specs.OperationTable.{has_number, live_at, with_work, moved, ends};
ghost use Rattle.operations.specs.declared.operation.Operation.{Operation as OperationValue};
ghost use Rattle.plain_lists.specs.Edits.{changed_first, dropped};
ghost use Rattle.reservations.specs.Holdings.{no_books, has_op};
ghost use Rattle.reservations.specs.Holdings.{granted_more, converted_more, returned_more};
ghost use Rattle.core_drafts.specs.Background.{before_claim, pending_of, share_in, part_in, handed, handed_at};
ghost use Rattle.core_drafts.specs.Background.{HasCount, HasCountAt};
ghost use Rattle.row_machine.specs.machine.Task.{Task as TaskValue};
ghost use Rattle.size_values.specs.Amounts.{part};
ghost use Rattle.size_values.specs.declared.amounts.Part.{Part};

use crate::calls::{Handing, hand_out};
use host_model::HostCall;
use instance_states::may_cancel;
use operations::{
    ENDED_LIMIT, OpFault, Operation, Status, drop_oldest, known_place, set_status, take_out,
};
use plain_lists::push_reserved;
use reservations::{Books, Hold, Ledger};
use row_machine::Task;
use size_values::{Amounts, NoMemory, PoolPart, Text};
use std::alloc::Global;
use std::marker::Model;

/// The kept operations, and the ledger of the shares that the live ones hold. Contracts see both, and what can be
/// entered and held without taking memory. There is room for all ended operations that are kept.
#[derive(Drop)]
pub(crate) struct Background {
    live: Vec<Operation<Task>>,
    ended: Vec<Operation<Task>>,
    next: u64,
    ledger: Ledger,
}

impl Model for Background {
    ghost use Rattle.core_drafts.specs.Background.{Background};

    ghost Value = { Background };

    ghost use Rattle.core_drafts.specs.InsideBackground.{background_in, HasRing};

    ghost view = { background_in };

    ghost invariant = { HasRing };
}

impl Background {
    /// No operations, with room for those that end.
    pub(crate) fn new(alloc: Global) -> Result<Background, NoMemory>
        ensures operations { IfOk result (λ b. b.operations ≡ no_operations) }
        ensures held { IfOk result (λ b. b.held ≡ []) }
        ensures books { IfOk result (λ b. b.books ≡ no_books) }
        ensures greatest { IfOk result (λ b. b.backing.greatest ≡ 0) }
    {
        let ended = Vec::with_capacity(alloc, ENDED_LIMIT)?;
        Ok(Background {
            live: Vec::new(alloc),
            ended,
            next: 1,
            ledger: Ledger::new(alloc),
        })
    }

    /// The live operations, in the order of their numbers.
    pub(crate) fn live(&self) -> &[Operation<Task>]
        ensures { result.now ≡ self.now.operations.live }
    {
        &self.live
    }

    /// Those that ended last, in the order of their ends.
    pub(crate) fn ended(&self) -> &[Operation<Task>]
        ensures { result.now ≡ self.now.operations.ended }
    {
        &self.ended
    }

    /// The number of the next one.
    pub(crate) fn next(&self) -> u64
        ensures { result ≡ self.now.operations.next }
    {
        self.next
    }

    /// The shares that live operations hold.
    pub(crate) fn holds(&self) -> &[Hold]
        ensures { result.now ≡ self.now.held }
    {
        self.ledger.holds()
    }

    /// The books over all shares.
    pub(crate) fn books(&self) -> Books
        ensures { result ≡ self.now.books }
    {
        self.ledger.books()
    }

    /// The live operation of a number, which there is.
    pub(crate) fn at(&self, number: u64) -> &Operation<Task>
        requires { IsSome (live_at self.now.operations number) }
        ensures { live_at self.now.operations number ≡ Some result.now }
    {
        &self.live[known_place(&self.live, number)]
    }

    /// Takes memory for one more operation, and for one more share.
    pub(crate) fn reserve(&mut self) -> Result<(), NoMemory>
        ensures claim_room { OnOk result (1 ≤ self.new.backing.claim_room) }
        ensures hold_room { OnOk result (1 ≤ self.new.backing.hold_room) }
        ensures operations { self.new.operations ≡ self.old.operations }
        ensures held { self.new.held ≡ self.old.held }
        ensures books { self.new.books ≡ self.old.books }
        ensures greatest { self.new.backing.greatest ≡ self.old.backing.greatest }
    {
        self.live.reserve(1)?;
        self.ledger.reserve_one()
    }

    /// Enters an operation with the next number, which is answered. It takes no memory.
    pub(crate) fn claim(&mut self, work: Task, moment: u64) -> u64
        requires room { 1 ≤ self.old.backing.claim_room }
        requires number { self.old.operations.next ≤ 2 ^ 40 }
        ensures operations { self.new.operations
            ≡ entered (is_some (undo_of work.deed)) work moment self.old.operations }
        ensures number { result ≡ self.old.operations.next }
        ensures held { self.new.held ≡ self.old.held }
        ensures books { self.new.books ≡ self.old.books }
        ensures hold_room { self.new.backing.hold_room ≡ self.old.backing.hold_room }
        ensures greatest { self.new.backing.greatest ≡ self.old.backing.greatest }
    {
        let number = self.next;
        let operation = pending(number, work, moment);
        push_reserved(&mut self.live, operation);
        self.next += 1;
        number
    }

    /// Takes the operation that was entered last back, and its number.
    pub(crate) fn take_claim_back(&mut self)
        ensures operations { self.new.operations ≡ before_claim self.old.operations }
        ensures held { self.new.held ≡ self.old.held }
        ensures books { self.new.books ≡ self.old.books }
        ensures greatest { self.new.backing.greatest ≡ self.old.backing.greatest }
    {
        drop_last(&mut self.live);
        self.next = self.next.saturating_sub(1);
    }

    /// The operation that was entered last holds a share of a project from now on. It takes no memory.
    pub(crate) fn hold(&mut self, project: Text, share: Amounts, on: PoolPart)
        requires room { 1 ≤ self.old.backing.hold_room }
        requires limit { self.old.operations.next - 1 < 2 ^ 40 }
        requires above { self.old.backing.greatest < self.old.operations.next - 1 }
        requires small { (k : Part) → part k share < 2 ^ 80 }
        requires small_part { on.disk < 2 ^ 80 }
        ensures held { self.new.held ≡
            self.old.held
            ++ record { op = self.old.operations.next - 1; project = project; share = share; part = on } ∷ [] }
        ensures books { self.new.books ≡ granted_more share on self.old.books }
        ensures operations { self.new.operations ≡ self.old.operations }
        ensures greatest { self.new.backing.greatest ≡ self.old.operations.next - 1 }
    {
        self.ledger.hold(self.next - 1, project, share, on);
    }

    /// A live operation takes another status.
    pub(crate) fn set_status(&mut self, number: u64, status: Status, moment: u64)
        requires { IsSome (live_at self.old.operations number) }
        ensures operations { self.new.operations ≡ moved number status moment self.old.operations }
        ensures held { self.new.held ≡ self.old.held }
        ensures books { self.new.books ≡ self.old.books }
        ensures greatest { self.new.backing.greatest ≡ self.old.backing.greatest }
    {
        set_status(&mut self.live, number, status, moment);
    }

    /// A live operation hands out a call, which it has.
    pub(crate) fn hand_out(&mut self, number: u64, which: Handing) -> HostCall
        requires call { IsSome (handed_at which self.old.operations number) }
        requires count { HasCountAt which self.old.operations number }
        ensures operations { (call : HostCallValue) (task : TaskValue)
            → handed_at which self.old.operations number ≡ Some (call, task) →
            (result ≡ call) × (self.new.operations ≡ with_work number task self.old.operations) }
        ensures held { self.new.held ≡ self.old.held }
        ensures books { self.new.books ≡ self.old.books }
        ensures greatest { self.new.backing.greatest ≡ self.old.backing.greatest }
    {
        hand_out_of(&mut self.live, number, which)
    }

    /// A live operation ends. Where the most ended ones are kept already, the oldest of them is dropped.
    pub(crate) fn end(&mut self, number: u64, status: Status, fault: OpFault, moment: u64)
        requires { IsSome (live_at self.old.operations number) }
        ensures operations { self.new.operations ≡ ends number status fault moment self.old.operations }
        ensures held { self.new.held ≡ self.old.held }
        ensures books { self.new.books ≡ self.old.books }
        ensures greatest { self.new.backing.greatest ≡ self.old.backing.greatest }
    {
        let oldest = drop_oldest(&mut self.ended);
        let mut operation = take_out(&mut self.live, number);
        operation.status = status;
        operation.fault = fault;
        operation.updated = moment;
        push_reserved(&mut self.ended, operation);
    }

    /// The share of an operation becomes its object's.
    pub(crate) fn convert(&mut self, number: u64)
        requires { IsSome (find (has_op number) self.old.held) }
        ensures held { self.new.held ≡ dropped (has_op number) self.old.held }
        ensures books { self.new.books ≡ converted_more (share_in self.old.held number) (part_in self.old.held number) self.old.books }
        ensures operations { self.new.operations ≡ self.old.operations }
        ensures greatest { self.new.backing.greatest ≡ self.old.backing.greatest }
    {
        self.ledger.convert(number);
    }

    /// The share of an operation goes back whole.
    pub(crate) fn give_back(&mut self, number: u64)
        requires { IsSome (find (has_op number) self.old.held) }
        ensures held { self.new.held ≡ dropped (has_op number) self.old.held }
        ensures books { self.new.books ≡ returned_more (share_in self.old.held number) (part_in self.old.held number) self.old.books }
        ensures operations { self.new.operations ≡ self.old.operations }
        ensures greatest { self.new.backing.greatest ≡ self.old.backing.greatest }
    {
        self.ledger.give_back(number);
    }
}

/// An operation that waits for its first call.
fn pending(number: u64, work: Task, moment: u64) -> Operation<Task>
    ensures { result ≡ pending_of number work moment }
{
    let may_cancel = may_cancel(work.deed);
    Operation {
        number,
        created: moment,
        updated: moment,
        status: Status::Pending,
        may_cancel,
        fault: OpFault::None,
        work,
    }
}

/// Drops the last item.
fn drop_last<T: Drop>(items: &mut Vec<T>)
    ensures items { items.new.items ≡ take (length items.old.items - 1) items.old.items }
{
    match items.pop() {
        Some(last) => drop(last),
        None => {}
    }
}

/// The operation of this number hands out a call.
fn hand_out_of(operations: &mut Vec<Operation<Task>>, number: u64, which: Handing) -> HostCall
    requires there { IsSome (find (has_number number) operations.old.items) }
    requires call { IfSome (find (has_number number) operations.old.items)
        (λ (o : OperationValue TaskValue). IsSome (handed which o.work)) }
    requires count { IfSome (find (has_number number) operations.old.items)
        (λ (o : OperationValue TaskValue). HasCount which o.work) }
    ensures items { (o : OperationValue TaskValue) (task : TaskValue)
        → find (has_number number) operations.old.items ≡ Some o →
        handed which o.work ≡ Some (result, task) →
        operations.new.items
        ≡ changed_first (has_number number)
        (λ (x : OperationValue TaskValue). record x { work = task }) operations.old.items }
    ensures call { (o : OperationValue TaskValue) (call : HostCallValue) (task : TaskValue)
        → find (has_number number) operations.old.items ≡ Some o →
        handed which o.work ≡ Some (call, task) → result ≡ call }
{
    let place = known_place(operations, number);
    let operation = &mut operations[place];
    hand_out(&mut operation.work, which)
}
