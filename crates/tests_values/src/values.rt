//! Amounts, counts of failures, and the answers of calls that take memory.
use crate::given::numbers_of;
use size_values::{Amounts, FailingCalls, MOMENT_LIMIT, NoMemory, Or, Rise};
use std::alloc::{AllocError, AllocFailed, Global};

const SMALL: Amounts = Amounts {
    instances: 0,
    containers: 0,
    machines: 0,
    cpu: 3,
    memory: 0,
    processes: 0,
    disk: 1 << 70,
};

const LARGE: Amounts = Amounts {
    instances: 0,
    containers: 0,
    machines: 0,
    cpu: 4,
    memory: 5,
    processes: 0,
    disk: 1 << 71,
};

/// Whether amounts are added, taken away and compared.
fn are_computed() -> bool {
    SMALL.plus(&LARGE).disk == 3 << 70
        && LARGE.minus(&SMALL).disk == 1 << 70
        && LARGE.excess(&SMALL).cpu == 1
        && SMALL.fits(&LARGE)
        && Amounts::zero().fits(&SMALL)
}

/// Whether the second of three calls fails, where it is the one that is to fail.
fn is_second_failing(alloc: Global) -> bool {
    let mut calls = FailingCalls::new(numbers_of(alloc, &[2]));
    let is = !calls.next() && calls.next() && !calls.next() && calls.failed() == 1;
    drop(calls);
    is
}

fn is_no_memory(answer: Or<u8>) -> bool {
    match answer {
        Or::NoMemory => true,
        Or::Why(_) => false,
    }
}

/// Whether what an allocator refuses becomes the answer that memory was refused, whatever else may be answered.
fn is_refused_memory_told() -> bool {
    NoMemory::from(AllocError) == NoMemory
        && NoMemory::from(AllocFailed { value: 7_u8 }) == NoMemory
        && is_no_memory(Or::from(NoMemory))
        && is_no_memory(Or::from(AllocError))
        && is_no_memory(Or::from(AllocFailed { value: 7_u8 }))
}

/// A count of faults rose exactly if the second reading is above the first, or both are at the last number.
fn are_rises_told() -> bool {
    Rise::of(3, 3).is_none() && Rise::of(u64::MAX, u64::MAX).is_some()
}

#[test]
fn amounts_failures_rises_and_moments_are_counted(rt: HostRuntime) {
    assert!(rt; are_computed() && is_refused_memory_told() && are_rises_told());
    assert!(rt; is_second_failing(rt.alloc()));
    // `date -u -d 9999-12-31T23:59:59Z +%s` prints the second before.
    assert!(rt; MOMENT_LIMIT == 253_402_300_800);
}
