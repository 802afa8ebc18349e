//! Each call on what restricted projects forbid, run once.
use crate::given::{Settings, config_of, devices_of};
use restrictions::{
    Forbidden, Policy, Subject, Word, first_forbidden, policy_of, snapshots_forbidden,
};
use std::alloc::Global;

const RESTRICTED: Settings = &[
    ("restricted", "true"),
    ("restricted.containers.nesting", "allow"),
];

const NETWORKED: &[(&str, Settings)] = &[
    ("a", &[("type", "none")]),
    (
        "b",
        &[("type", "nic"), ("nictype", "bridged"), ("parent", "br0")],
    ),
];

/// Whether a nic without a network is the first that is forbidden to a container.
fn forbids_nic(alloc: Global, policy: &Policy) -> bool {
    let config = config_of(alloc, &[("security.nesting", "true")]);
    let devices = devices_of(alloc, NETWORKED);
    let found = first_forbidden(policy, Subject::Container, &config, &devices);
    drop(devices);
    drop(config);
    found == Some(Forbidden { rule: 6, place: 1 })
}

/// Whether a restricted project forbids that, and snapshots.
fn forbids(alloc: Global) -> bool {
    let project = config_of(alloc, RESTRICTED);
    let policy = policy_of(&project);
    let forbids = forbids_nic(alloc, &policy) && snapshots_forbidden(&policy);
    drop(project);
    forbids
}

/// Whether a word is found by its text.
fn is_word_found() -> bool {
    match Word::from_text("block") {
        Some(word) => word.is(Word::Block),
        None => false,
    }
}

#[test]
fn restricted_projects_forbid(rt: HostRuntime) {
    assert!(rt; forbids(rt.alloc()) && is_word_found());
}
