//! Operations that are entered, begun, cancelled and ended, step by step.
ghost use Rattle.std.specs.Prelude.{◌≡◌, true, IfSome};
ghost use Rattle.operations.specs.Statuses.{is_live};
ghost use Rattle.operations.specs.OperationTable.{live_status};

use operations::{CancelFault, EnterFault, LIVE_LIMIT, OpFault, Slots, Status};
use std::alloc::Global;

/// One thing that is done or looked at, with what is to be answered.
#[derive(Clone, Copy)]
enum Step {
    /// The most that may be live are entered; those of even numbers may be cancelled.
    Fill,
    /// One more is refused, and the work given back.
    Full,
    Begin(u64),
    Cancel(u64, Result<Status, CancelFault>),
    /// Those from the first number to the second end.
    Finish(u64, u64),
    Swap(u64, u64, Option<u64>),
    StatusOf(u64, Option<Status>),
    FirstPending(Option<u64>),
    Next(u64),
    Live(usize),
    Kept(usize),
    /// The kept ones stand in the order of their numbers, up to this one.
    RiseTo(u64),
}

const STEPS: &[Step] = &[
    Step::Fill,
    Step::Full,
    Step::Live(1_024),
    Step::Next(1_025),
    Step::FirstPending(Some(1)),
    Step::Begin(1),
    Step::Begin(2),
    Step::FirstPending(Some(3)),
    Step::Cancel(1, Err(CancelFault::Fixed)),
    Step::Cancel(9_999, Err(CancelFault::Unknown)),
    Step::Cancel(2, Ok(Status::Cancelling)),
    Step::Cancel(2, Err(CancelFault::Already)),
    Step::Cancel(3, Err(CancelFault::Fixed)),
    Step::Cancel(4, Ok(Status::Cancelled)),
    Step::Cancel(4, Err(CancelFault::Ended(Status::Cancelled))),
    Step::Finish(5, 259),
    Step::StatusOf(4, Some(Status::Cancelled)),
    Step::Kept(1_024),
    Step::Finish(260, 260),
    Step::StatusOf(4, None),
    Step::StatusOf(5, Some(Status::Success)),
    Step::Kept(1_023),
    Step::Live(767),
    Step::Swap(300, 1, Some(3_000)),
    Step::Swap(300, 2, Some(1)),
    Step::RiseTo(1_024),
];

fn status_of(slots: &Slots<u64>, number: u64) -> Option<Status>
    ensures { IfSome result (λ st. is_live st ≡ true → live_status slots.now number ≡ Some st) }
{
    match slots.get(number) {
        Some(operation) => Some(operation.status),
        None => None,
    }
}

fn fill(slots: &mut Slots<u64>) -> bool {
    for number in 1..=LIVE_LIMIT as u64 {
        if slots.enter(number % 2 == 0, number * 10, number) != Ok(number) {
            return false;
        }
    }
    true
}

fn begin(slots: &mut Slots<u64>, number: u64) -> bool {
    match status_of(slots, number) {
        Some(Status::Pending) => {
            slots.begin(number, 2_000);
            true
        }
        _ => false,
    }
}

fn finish(slots: &mut Slots<u64>, first: u64, last: u64) -> bool {
    for number in first..=last {
        match status_of(slots, number) {
            Some(status) if status.is_live() => {
                slots.end(number, Status::Success, OpFault::None, 3_000);
            }
            _ => {}
        }
    }
    true
}

fn swap(slots: &mut Slots<u64>, number: u64, work: u64) -> Option<u64> {
    match status_of(slots, number) {
        Some(Status::Pending) => Some(slots.swap_work(number, work)),
        _ => None,
    }
}

fn rise_to(slots: &Slots<u64>, last: u64) -> bool {
    let mut before = 0;
    for place in 0..slots.kept_count() {
        let number = slots.at(place).number;
        if number <= before {
            return false;
        }
        before = number;
    }
    before == last
}

/// Does a step that changes something.
fn is_done(slots: &mut Slots<u64>, step: Step) -> bool {
    match step {
        Step::Fill => fill(slots),
        Step::Full => slots.enter(true, 7, 0) == Err((7, EnterFault::Full)),
        Step::Begin(number) => begin(slots, number),
        Step::Cancel(number, answer) => slots.mark_cancel(number, 2_500) == answer,
        Step::Finish(first, last) => finish(slots, first, last),
        Step::Swap(number, work, old) => swap(slots, number, work) == old,
        _ => is_seen(slots, step),
    }
}

/// Looks at what is kept.
fn is_seen(slots: &Slots<u64>, step: Step) -> bool {
    match step {
        Step::StatusOf(number, status) => status_of(slots, number) == status,
        Step::FirstPending(number) => slots.first_pending() == number,
        Step::Next(number) => slots.next() == number,
        Step::Live(count) => slots.live() == count,
        Step::Kept(count) => slots.kept_count() == count,
        Step::RiseTo(last) => rise_to(slots, last),
        _ => false,
    }
}

/// How many steps are answered as they should be, before the first that is not.
fn steps_done(slots: &mut Slots<u64>) -> usize {
    let mut done = 0;
    for step in STEPS {
        if !is_done(slots, *step) {
            return done;
        }
        done = done.saturating_add(1);
    }
    done
}

fn right_steps(alloc: Global) -> usize {
    let Ok(mut slots) = Slots::new(alloc) else {
        return 0;
    };
    let done = steps_done(&mut slots);
    drop(slots);
    done
}

#[test]
fn fills_cancels_and_ends(rt: HostRuntime) {
    let done = right_steps(rt.alloc());
    assert!(rt; done == STEPS.len(), "step {done}");
}
