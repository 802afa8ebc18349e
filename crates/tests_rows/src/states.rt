//! Each call on the plans of deeds, on statuses and on the names of snapshots, run once.
use instance_states::{CallName, SnapshotNumbers, after, is_allowed, plan_of};
use size_values::{Action, Deed, Power};
use std::alloc::Global;

/// Whether plans and statuses are as their tables say.
fn are_planned() -> bool {
    plan_of(Deed::Snap).undo == Some(CallName::Unsnap)
        && after(Power::Stopped, Action::Start).is_ok()
        && is_allowed(Deed::Rename, Power::Stopped)
}

/// Whether the name with the next number follows.
fn follows(alloc: Global) -> bool {
    let mut numbers = SnapshotNumbers::new("snap%d");
    numbers.see("snap7");
    numbers.see("snap3");
    let Ok(next) = numbers.next(alloc) else {
        return false;
    };
    let is = next.view() == "snap8";
    drop(next);
    is
}

#[test]
fn plans_statuses_and_numbers(rt: HostRuntime) {
    assert!(rt; are_planned() && follows(rt.alloc()));
}
