//! The edits of lists of operations, each of the first operation of a number.
ghost use Rattle.std.specs.Prelude.{◌≡◌, ◌==◌, ◌-◌, ◌<◌, ◌≤◌, length, slice_get, vec_capacity, IsSome, if◌then◌else◌};
ghost use Rattle.std.specs.Option.{option_map};
ghost use Rattle.std.specs.List.{find, position};
ghost use Rattle.plain_lists.specs.Edits.{changed_first, dropped};
ghost use Rattle.plain_lists.specs.Rings.{keep_last};
ghost use Rattle.operations.specs.OperationTable.{has_number};
ghost use Rattle.operations.specs.Limits.{most_ended};

use crate::limits::ENDED_LIMIT;
use crate::operation::Operation;
use crate::status::Status;
use std::mem;

/// The place of the operation of this number.
pub fn index_of<W>(operations: &[Operation<W>], number: u64) -> Option<usize>
    ensures { result ≡ position (has_number number) operations.now }
{
    operations.iter().position(|o| o.number == number)
}

/// The place of the operation of this number, which is there.
pub fn known_place<W>(operations: &[Operation<W>], number: u64) -> usize
    requires { IsSome (find (has_number number) operations.now) }
    ensures place { Some result ≡ position (has_number number) operations.now }
    ensures within { result < length operations.now }
{
    match index_of(operations, number) {
        Some(place) => place,
        None => unreachable!(),
    }
}

/// Puts another work into the operation of this number, and hands the old one out.
pub fn swap_in<W>(operations: &mut Vec<Operation<W>>, number: u64, work: W) -> W
    requires { IsSome (find (has_number number) operations.old.items) }
    ensures old { option_map (λ (o : Operation W). o.work) (find (has_number number) operations.old.items)
        ≡ Some result }
    ensures items { operations.new.items
        ≡ changed_first (has_number number) (λ (o : Operation W). record o { work = work }) operations.old.items }
    ensures capacity { vec_capacity operations.new ≡ vec_capacity operations.old }
{
    let place = known_place(operations, number);
    let operation = &mut operations[place];
    mem::replace(&mut operation.work, work)
}

/// Gives the operation of this number another status.
pub fn set_status<W>(operations: &mut Vec<Operation<W>>, number: u64, status: Status, moment: u64)
    requires { IsSome (find (has_number number) operations.old.items) }
    ensures items { operations.new.items ≡
        changed_first (has_number number)
        (λ (o : Operation W). record o { status = status; updated = moment }) operations.old.items }
    ensures capacity { vec_capacity operations.new ≡ vec_capacity operations.old }
{
    let place = known_place(operations, number);
    let operation = &mut operations[place];
    operation.status = status;
    operation.updated = moment;
}

/// Takes the operation of this number out.
pub fn take_out<W>(operations: &mut Vec<Operation<W>>, number: u64) -> Operation<W>
    requires { IsSome (find (has_number number) operations.old.items) }
    ensures taken { find (has_number number) operations.old.items ≡ Some result }
    ensures rest { operations.new.items ≡ dropped (has_number number) operations.old.items }
    ensures capacity { vec_capacity operations.old ≤ vec_capacity operations.new }
{
    let place = known_place(operations, number);
    operations.remove(place)
}

/// Drops the oldest ended operation where the most are kept, and answers its number.
pub fn drop_oldest<W: Drop>(ended: &mut Vec<Operation<W>>) -> Option<u64>
    requires { length ended.old.items ≤ most_ended }
    ensures rest { ended.new.items ≡ keep_last (most_ended - 1) ended.old.items }
    ensures number { result
        ≡ (if length ended.old.items == most_ended
        then option_map (λ (o : Operation W). o.number) (slice_get ended.old.items 0) else None) }
    ensures capacity { vec_capacity ended.old ≤ vec_capacity ended.new }
{
    if ended.len() < ENDED_LIMIT {
        return None;
    }
    let oldest = ended.remove(0);
    Some(oldest.number)
}
