use crate::asked::{Asked, From, command};
use crate::begun::{Begun, Call, is_begun};
use crate::rows::Rows;
use instance_states::CallName;
use plans_tasks::plan_task;
use row_readings::StateRef;
use size_values::{Action, Deed, ObjectKind};
use std::alloc::Global;

/// What is asked for in a project, and what it begins.
type Case = (&'static str, Asked, Begun);

const CREATIONS: &[Case] = &[
    (
        "default",
        Asked::Make((ObjectKind::Instance, "", "n1"), From::Nothing),
        Begun {
            deed: Deed::Create,
            project: "default",
            name: "n1",
            claim: Some(("n1", &[("limits.memory", "2GiB")])),
            replaces: "",
            source: "",
            calls: &[
                Call(CallName::Clear, "n1", ""),
                Call(CallName::MakeRoot, "n1", ""),
            ],
            undo: Some(Call(CallName::Clear, "n1", "")),
        },
    ),
    (
        "lab",
        Asked::Make((ObjectKind::Instance, "", "n1"), From::Image("debian")),
        Begun {
            deed: Deed::Create,
            project: "lab",
            name: "n1",
            claim: Some(("n1", &[("limits.memory", "2GiB")])),
            replaces: "",
            source: "",
            calls: &[
                Call(CallName::Clear, "n1", ""),
                Call(CallName::MakeRoot, "n1", "debian"),
            ],
            undo: Some(Call(CallName::Clear, "n1", "")),
        },
    ),
    (
        "default",
        Asked::Make((ObjectKind::Snapshot, "c1", "s1"), From::Nothing),
        Begun {
            deed: Deed::Snap,
            project: "default",
            name: "s1",
            claim: Some(("s1", &[("limits.memory", "1GiB"), ("user.a", "1")])),
            replaces: "",
            source: "",
            calls: &[Call(CallName::Snap, "c1", "s1")],
            undo: Some(Call(CallName::Unsnap, "c1", "s1")),
        },
    ),
    (
        "default",
        Asked::Make((ObjectKind::Snapshot, "c1", ""), From::Nothing),
        Begun {
            deed: Deed::Snap,
            project: "default",
            name: "snap1",
            claim: Some(("snap1", &[("limits.memory", "1GiB"), ("user.a", "1")])),
            replaces: "",
            source: "",
            calls: &[Call(CallName::Snap, "c1", "snap1")],
            undo: Some(Call(CallName::Unsnap, "c1", "snap1")),
        },
    ),
];

const COPIES: &[Case] = &[
    (
        "default",
        Asked::Make((ObjectKind::Instance, "", "n1"), From::Copy("c1", "", "")),
        Begun {
            deed: Deed::Copy,
            project: "default",
            name: "n1",
            claim: Some(("n1", &[("limits.memory", "2GiB")])),
            replaces: "",
            source: "c1",
            calls: &[
                Call(CallName::Clear, "n1", ""),
                Call(CallName::CopyRoot, "c1", ""),
            ],
            undo: Some(Call(CallName::Clear, "n1", "")),
        },
    ),
    (
        "default",
        Asked::Make(
            (ObjectKind::Instance, "", "n1"),
            From::Copy("c1", "snap0", ""),
        ),
        Begun {
            deed: Deed::Copy,
            project: "default",
            name: "n1",
            claim: Some(("n1", &[("limits.memory", "2GiB")])),
            replaces: "",
            source: "snap0",
            calls: &[
                Call(CallName::Clear, "n1", ""),
                Call(CallName::CopyRoot, "c1", "snap0"),
            ],
            undo: Some(Call(CallName::Clear, "n1", "")),
        },
    ),
    (
        "lab",
        Asked::Make((ObjectKind::Volume, "p0", "v2"), From::Copy("v1", "", "p0")),
        Begun {
            deed: Deed::CopyVolume,
            project: "default",
            name: "v2",
            claim: Some(("v2", &[("limits.memory", "2GiB"), ("size", "1GiB")])),
            replaces: "",
            source: "v1",
            calls: &[
                Call(CallName::Clear, "v2", ""),
                Call(CallName::CopyRoot, "v1", ""),
            ],
            undo: Some(Call(CallName::Clear, "v2", "")),
        },
    ),
    (
        "own",
        Asked::Make((ObjectKind::Volume, "p0", "v2"), From::Copy("v1", "", "p0")),
        Begun {
            deed: Deed::CopyVolume,
            project: "own",
            name: "v2",
            claim: Some(("v2", &[("limits.memory", "2GiB"), ("size", "3GiB")])),
            replaces: "",
            source: "v1",
            calls: &[
                Call(CallName::Clear, "v2", ""),
                Call(CallName::CopyRoot, "v1", ""),
            ],
            undo: Some(Call(CallName::Clear, "v2", "")),
        },
    ),
];

const CHANGES: &[Case] = &[
    (
        "default",
        Asked::Put((ObjectKind::Instance, "", "c1")),
        Begun {
            deed: Deed::Update,
            project: "default",
            name: "c1",
            claim: Some(("c1", &[("limits.memory", "2GiB")])),
            replaces: "c1",
            source: "",
            calls: &[Call(CallName::Apply, "c1", "")],
            undo: None,
        },
    ),
    (
        "default",
        Asked::Move((ObjectKind::Instance, "", "c1"), "c2"),
        Begun {
            deed: Deed::Rename,
            project: "default",
            name: "c1",
            claim: Some(("c2", &[("limits.memory", "1GiB"), ("user.a", "1")])),
            replaces: "c1",
            source: "",
            calls: &[Call(CallName::Rename, "c1", "c2")],
            undo: None,
        },
    ),
    (
        "default",
        Asked::Restore("c1", "snap0"),
        Begun {
            deed: Deed::Restore,
            project: "default",
            name: "c1",
            claim: Some(("c1", &[("limits.memory", "512MiB")])),
            replaces: "c1",
            source: "",
            calls: &[Call(CallName::Restore, "c1", "snap0")],
            undo: None,
        },
    ),
    (
        "default",
        Asked::Delete((ObjectKind::Instance, "", "c1")),
        Begun {
            deed: Deed::Delete,
            project: "default",
            name: "c1",
            claim: None,
            replaces: "",
            source: "",
            calls: &[Call(CallName::Clear, "c1", "")],
            undo: None,
        },
    ),
    (
        "default",
        Asked::Delete((ObjectKind::Snapshot, "c1", "snap0")),
        Begun {
            deed: Deed::Unsnap,
            project: "default",
            name: "snap0",
            claim: None,
            replaces: "",
            source: "",
            calls: &[Call(CallName::Unsnap, "c1", "snap0")],
            undo: None,
        },
    ),
];

/// Actions on an instance, which is ephemeral or not, and their calls. An instance is started with the two processors
/// of its profile.
const ACTS: &[(&str, Action, bool, &[Call])] = &[
    (
        "c1",
        Action::Start,
        false,
        &[Call(CallName::Start, "c1", "2")],
    ),
    ("c1", Action::Stop, false, &[Call(CallName::Stop, "c1", "")]),
    (
        "e1",
        Action::Stop,
        true,
        &[
            Call(CallName::Stop, "e1", ""),
            Call(CallName::Clear, "e1", ""),
        ],
    ),
    (
        "c1",
        Action::Restart,
        false,
        &[
            Call(CallName::Stop, "c1", ""),
            Call(CallName::Start, "c1", "2"),
        ],
    ),
    (
        "c1",
        Action::Freeze,
        false,
        &[Call(CallName::Freeze, "c1", "")],
    ),
    (
        "c1",
        Action::Unfreeze,
        false,
        &[Call(CallName::Thaw, "c1", "")],
    ),
];

/// What begins nothing: reads, changes at once, and commands on what is missing.
const NOTHING: &[(&str, Asked)] = &[
    ("default", Asked::Read((ObjectKind::Instance, "", "c1"))),
    ("default", Asked::Cancel),
    ("default", Asked::Patch((ObjectKind::Instance, "", "c1"))),
    ("default", Asked::Put((ObjectKind::Volume, "p0", "v1"))),
    ("default", Asked::Put((ObjectKind::Instance, "", "c2"))),
    (
        "default",
        Asked::Move((ObjectKind::Profile, "", "base"), "more"),
    ),
    (
        "default",
        Asked::Move((ObjectKind::Instance, "", "c2"), "c3"),
    ),
    ("default", Asked::Delete((ObjectKind::Volume, "p0", "v1"))),
    (
        "default",
        Asked::Delete((ObjectKind::Snapshot, "c1", "snap1")),
    ),
    ("lab", Asked::Delete((ObjectKind::Instance, "", "c1"))),
    ("default", Asked::Act("c2", Action::Start)),
    ("default", Asked::Restore("c2", "snap0")),
    ("default", Asked::Restore("c1", "snap1")),
    (
        "default",
        Asked::Make((ObjectKind::Profile, "", "more"), From::Nothing),
    ),
    (
        "default",
        Asked::Make((ObjectKind::Volume, "p0", "v2"), From::Nothing),
    ),
    (
        "default",
        Asked::Make((ObjectKind::Volume, "p0", "v2"), From::Copy("v1", "", "p1")),
    ),
    (
        "default",
        Asked::Make((ObjectKind::Instance, "", "n1"), From::Copy("c2", "", "")),
    ),
    (
        "default",
        Asked::Make((ObjectKind::Snapshot, "c2", ""), From::Nothing),
    ),
];

/// Whether the view's server begins this for what is asked, or nothing.
fn is_planned(
    alloc: Global,
    view: &StateRef<'_>,
    project: &str,
    asked: Asked,
    begun: Option<&Begun>,
) -> bool {
    let command = command(alloc, project, asked);
    let planned = plan_task(alloc, view, &command, 9);
    drop(command);
    match planned {
        Ok(Some(work)) => {
            let right = match begun {
                Some(begun) => is_begun(&work, begun),
                None => false,
            };
            drop(work);
            right
        }
        Ok(None) => begun.is_none(),
        Err(_) => false,
    }
}

/// The same of the server of the tests.
fn begins(alloc: Global, project: &str, asked: Asked, begun: Option<&Begun>) -> bool {
    let rows = Rows::filled(alloc);
    let right = is_planned(alloc, &rows.view(), project, asked, begun);
    drop(rows);
    right
}

fn is_case(alloc: Global, case: &Case) -> bool {
    begins(alloc, case.0, case.1, Some(&case.2))
}

fn is_act(
    alloc: Global,
    name: &'static str,
    action: Action,
    ephemeral: bool,
    calls: &'static [Call],
) -> bool {
    let begun = Begun {
        deed: Deed::Act { action, ephemeral },
        project: "default",
        name,
        claim: None,
        replaces: "",
        source: "",
        calls,
        undo: None,
    };
    begins(alloc, "default", Asked::Act(name, action), Some(&begun))
}

#[test]
fn creations_begin(rt: HostRuntime) {
    for case in CREATIONS {
        assert!(rt; is_case(rt.alloc(), case), "{}", case.2.name);
    }
}

#[test]
fn copies_begin(rt: HostRuntime) {
    for case in COPIES {
        assert!(rt; is_case(rt.alloc(), case), "{}", case.2.source);
    }
}

#[test]
fn changes_begin(rt: HostRuntime) {
    for case in CHANGES {
        assert!(rt; is_case(rt.alloc(), case), "{:?}", case.2.deed);
    }
}

#[test]
fn actions_begin(rt: HostRuntime) {
    for (name, action, ephemeral, calls) in ACTS {
        assert!(rt;
            is_act(rt.alloc(), name, *action, *ephemeral, calls),
            "{name} {action:?}"
        );
    }
}

#[test]
fn others_begin_nothing(rt: HostRuntime) {
    for (place, (project, asked)) in NOTHING.iter().enumerate() {
        assert!(rt; begins(rt.alloc(), project, *asked, None), "{place}");
    }
}
