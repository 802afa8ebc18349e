ghost use Rattle.std.specs.Prelude.{◌≡◌, ◌==◌, ◌-◌, ◌<◌, ◌≤◌, ◌++◌, true, false, length, slice_get, vec_capacity, IfOk};
ghost use Rattle.std.specs.Prelude.{IfSome, IsSome, if◌then◌else◌};
ghost use Rattle.std.specs.Option.{option_copied, option_map, option_map_or};
ghost use Rattle.std.specs.List.{find, position};
ghost use Rattle.plain_lists.specs.Edits.{dropped};
ghost use Rattle.operations.specs.Statuses.{is_live, is_pending, cancel_of};
ghost use Rattle.operations.specs.OperationTable.{no_operations, has_number, live_at, kept_at, live_status};
ghost use Rattle.operations.specs.OperationTable.{first_pending_of};
ghost use Rattle.operations.specs.OperationTable.{by_number, enter_answer, after_enter, with_work, moved, ends};
ghost use Rattle.operations.specs.OperationTable.{cancel_answer};
ghost use Rattle.operations.specs.OperationTable.{after_cancel};
ghost use Rattle.operations.specs.Facts.{AreKept};
ghost use Rattle.size_values.specs.Moments.{moment_limit};
ghost use Rattle.operations.specs.declared.status.Status.TheVariants as status;

use crate::faults::{CancelFault, EnterFault};
use crate::limits::{ENDED_LIMIT, LIVE_LIMIT, NUMBER_LIMIT};
use crate::lists::{drop_oldest, set_status, swap_in, take_out};
use crate::operation::{OpFault, Operation};
use crate::status::Status;
use plain_lists::push_reserved;
use size_values::NoMemory;
use std::alloc::Global;
use std::marker::Model;

/// The kept background operations: all live ones, and the last that ended. Contracts see the two lists and the
/// next number. Only `new` takes memory.
#[derive(Drop)]
pub struct Slots<W> {
    live: Vec<Operation<W>>,
    ended: Vec<Operation<W>>,
    numbers: Vec<u64>,
    next: u64,
}

impl<W> Model for Slots<W> {
    ghost use Rattle.operations.specs.OperationTable.{OperationTable};

    ghost Value = { OperationTable W };

    ghost use Rattle.operations.specs.Inside.{kept_in, AreSlots};

    ghost view = { kept_in };

    ghost invariant = { AreSlots };
}

impl<W: Drop> Slots<W> {
    /// Room for all operations that may be kept, and none of them yet.
    pub fn new(alloc: Global) -> Result<Slots<W>, NoMemory>
        ensures { IfOk result (λ s. s ≡ no_operations) }
    {
        Ok(Slots {
            live: Vec::with_capacity(alloc, LIVE_LIMIT)?,
            ended: Vec::with_capacity(alloc, ENDED_LIMIT)?,
            numbers: Vec::with_capacity(alloc, LIVE_LIMIT + ENDED_LIMIT)?,
            next: 1,
        })
    }

    /// The kept operation of this number.
    pub fn get(&self, number: u64) -> Option<&Operation<W>>
        ensures found { option_copied result ≡ kept_at self.now number }
        ensures live { IfSome result (λ o. is_live o.now.status ≡ true → live_at self.now number ≡ Some o.now) }
        ensures facts { AreKept self.now }
    {
        found_in(&self.live, &self.ended, number)
    }

    /// How many are live.
    pub fn live(&self) -> usize
        ensures count { result ≡ length self.now.live }
        ensures facts { AreKept self.now }
    {
        self.live.len()
    }

    /// The lowest number of those that are `Pending`.
    pub fn first_pending(&self) -> Option<u64>
        ensures lowest { result ≡ first_pending_of self.now }
        ensures pending { IfSome result (λ number. live_status self.now number ≡ Some status.Pending) }
        ensures facts { AreKept self.now }
    {
        pending_in(&self.live)
    }

    /// The number that the next operation gets.
    pub fn next(&self) -> u64
        ensures number { result ≡ self.now.next }
        ensures facts { AreKept self.now }
    {
        self.next
    }

    /// How many are kept, live and ended together.
    pub fn kept_count(&self) -> usize
        ensures count { result ≡ length (self.now.live ++ self.now.ended) }
        ensures facts { AreKept self.now }
    {
        self.numbers.len()
    }

    /// The kept operation at a place in the order of numbers.
    pub fn at(&self, place: usize) -> &Operation<W>
        requires { place < length (self.now.live ++ self.now.ended) }
        ensures { slice_get (by_number (self.now.live ++ self.now.ended)) place ≡ Some result.now }
    {
        match self.get(self.numbers[place]) {
            Some(operation) => operation,
            None => unreachable!(),
        }
    }

    /// Adds a `Pending` operation with the next number, which is answered. A refusal gives the work back.
    pub fn enter(&mut self, may_cancel: bool, work: W, moment: u64) -> Result<u64, (W, EnterFault)>
        requires { moment < moment_limit }
        ensures answer { result ≡ enter_answer self.old work }
        ensures state { self.new ≡ after_enter may_cancel work moment self.old }
    {
        if self.live.len() == LIVE_LIMIT {
            return Err((work, EnterFault::Full));
        }
        if self.next == NUMBER_LIMIT {
            return Err((work, EnterFault::Spent));
        }
        let number = self.next;
        let operation = Operation {
            number,
            created: moment,
            updated: moment,
            status: Status::Pending,
            may_cancel,
            fault: OpFault::None,
            work,
        };
        push_reserved(&mut self.live, operation);
        push_reserved(&mut self.numbers, number);
        self.next += 1;
        Ok(number)
    }

    /// Puts the work of a live operation, and hands the old one out.
    pub fn swap_work(&mut self, number: u64, work: W) -> W
        requires { IsSome (live_at self.old number) }
        ensures old { option_map (λ (o : Operation W). o.work) (live_at self.old number) ≡ Some result }
        ensures state { self.new ≡ with_work number work self.old }
    {
        swap_in(&mut self.live, number, work)
    }

    /// A `Pending` operation becomes `Running`.
    pub fn begin(&mut self, number: u64, moment: u64)
        requires pending { live_status self.old number ≡ Some status.Pending }
        requires moment { moment < moment_limit }
        ensures { self.new ≡ moved number status.Running moment self.old }
    {
        set_status(&mut self.live, number, Status::Running, moment);
    }

    /// Cancels an operation: a `Pending` one ends as `Cancelled`, a `Running` one becomes `Cancelling`. The new
    /// status is answered. A refusal changes nothing.
    pub fn mark_cancel(&mut self, number: u64, moment: u64) -> Result<Status, CancelFault>
        requires { moment < moment_limit }
        ensures answer { result ≡ cancel_answer (kept_at self.old number) }
        ensures state { self.new ≡ after_cancel number moment result self.old }
    {
        let now = self.cancel_status(number)?;
        match now {
            Status::Cancelled => self.end(number, now, OpFault::None, moment),
            _ => set_status(&mut self.live, number, now, moment),
        }
        Ok(now)
    }

    /// What a cancel of the operation of this number makes of its status.
    fn cancel_status(&self, number: u64) -> Result<Status, CancelFault>
        ensures { result ≡ cancel_answer (kept_at self.now number) }
    {
        match self.get(number) {
            None => Err(CancelFault::Unknown),
            Some(operation) => cancel_of(operation.may_cancel, operation.status),
        }
    }

    /// Ends a live operation. Where the most ended ones are kept already, the oldest of them is dropped.
    pub fn end(&mut self, number: u64, status: Status, fault: OpFault, moment: u64)
        requires live { IsSome (live_at self.old number) }
        requires ended { is_live status ≡ false }
        requires moment { moment < moment_limit }
        ensures { self.new ≡ ends number status fault moment self.old }
    {
        let oldest = drop_oldest(&mut self.ended);
        forget(&mut self.numbers, oldest);
        let mut operation = take_out(&mut self.live, number);
        operation.status = status;
        operation.fault = fault;
        operation.updated = moment;
        push_reserved(&mut self.ended, operation);
    }
}

/// The operation of this number, in one of the lists.
fn found_in<'x, W>(
    live: &'x [Operation<W>],
    ended: &'x [Operation<W>],
    number: u64,
) -> Option<&'x Operation<W>>
    ensures { option_copied result ≡ find (has_number number) (live.now ++ ended.now) }
{
    live.iter().chain(ended.iter()).find(|o| o.number == number)
}

/// The number of the first that is `Pending`.
fn pending_in<W>(operations: &[Operation<W>]) -> Option<u64>
    ensures { result
        ≡ option_map (λ (o : Operation W). o.number) (find (λ (o : Operation W). is_pending o.status) operations.now) }
{
    let pending = operations
        .iter()
        .find(|o| matches!(o.status, Status::Pending));
    pending.map(|o| o.number)
}

/// What a cancel makes of a status.
fn cancel_of(may_cancel: bool, status: Status) -> Result<Status, CancelFault>
    ensures { result ≡ cancel_of may_cancel status }
{
    if !status.is_live() {
        return Err(CancelFault::Ended(status));
    }
    if !may_cancel {
        return Err(CancelFault::Fixed);
    }
    match status {
        Status::Pending => Ok(Status::Cancelled),
        Status::Running => Ok(Status::Cancelling),
        _ => Err(CancelFault::Already),
    }
}

/// Takes a number that is no longer kept out of the index.
fn forget(numbers: &mut Vec<u64>, gone: Option<u64>)
    ensures rest { numbers.new.items
        ≡ option_map_or (λ number. dropped (λ n. n == number) numbers.old.items) gone numbers.old.items }
    ensures capacity { vec_capacity numbers.old ≤ vec_capacity numbers.new }
{
    let Some(number) = gone else {
        return;
    };
    match place_in(numbers, number) {
        Some(place) => {
            numbers.remove(place);
        }
        None => {}
    }
}

fn place_in(numbers: &[u64], number: u64) -> Option<usize>
    ensures { result ≡ position (λ n. n == number) numbers.now }
{
    numbers.iter().position(|n| *n == number)
}
