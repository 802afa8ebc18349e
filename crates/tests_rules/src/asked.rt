//! Commands for tests, each made of a few words.
use crate::rows::text;
use config_lists::{Changes, Devices};
use records::{Body, Command, Origin, Target, What};
use size_values::{Action, ObjectKind, Text};
use std::alloc::Global;

/// Where a new object gets its content: a copy names the object, the snapshot or nothing, and the pool or nothing.
#[derive(Clone, Copy)]
pub(crate) enum From {
    Nothing,
    Image(&'static str),
    Copy(&'static str, &'static str, &'static str),
}

/// The kind of an object, the instance or the pool that it stands in, and its name.
pub(crate) type Of = (ObjectKind, &'static str, &'static str);

/// What is asked for. Bodies set `limits.memory` to 2GiB and take `user.a` away.
#[derive(Clone, Copy)]
pub(crate) enum Asked {
    Read(Of),
    Make(Of, From),
    Put(Of),
    Patch(Of),
    Move(Of, &'static str),
    Delete(Of),
    Act(&'static str, Action),
    Restore(&'static str, &'static str),
    Cancel,
}

fn target(alloc: Global, of: Of) -> Target {
    let (kind, within, name) = of;
    let is_volume = kind == ObjectKind::Volume;
    Target {
        kind,
        pool: text(alloc, if is_volume { within } else { "" }),
        instance: text(alloc, if is_volume { "" } else { within }),
        name: text(alloc, name),
    }
}

fn instance(alloc: Global, name: &'static str) -> Target {
    target(alloc, (ObjectKind::Instance, "", name))
}

fn changes(alloc: Global) -> Changes {
    let mut changes = Changes::new(alloc);
    let _ = changes.put("limits.memory", "2GiB");
    let _ = changes.put("user.a", "");
    changes
}

fn origin(alloc: Global, from: From) -> Origin {
    match from {
        From::Nothing => Origin::None,
        From::Image(alias) => Origin::Image(text(alloc, alias)),
        From::Copy(from, snapshot, pool) => Origin::Copy {
            from: text(alloc, from),
            snapshot: text(alloc, snapshot),
            pool: text(alloc, pool),
        },
    }
}

fn body(alloc: Global, from: From) -> Body {
    Body {
        description: Some(text(alloc, "new")),
        config: Some(changes(alloc)),
        devices: Some(Devices::new(alloc)),
        profiles: None,
        kind: None,
        ephemeral: None,
        driver: None,
        origin: origin(alloc, from),
    }
}

fn what(alloc: Global, asked: Asked) -> What {
    match asked {
        Asked::Read(of) => What::Get {
            of: target(alloc, of),
        },
        Asked::Make(of, from) => What::Create {
            of: target(alloc, of),
            body: body(alloc, from),
        },
        Asked::Put(of) => What::Put {
            of: target(alloc, of),
            body: body(alloc, From::Nothing),
        },
        Asked::Patch(of) => What::Patch {
            of: target(alloc, of),
            body: body(alloc, From::Nothing),
        },
        Asked::Move(of, to) => What::Move {
            of: target(alloc, of),
            to: text(alloc, to),
        },
        Asked::Delete(of) => What::Delete {
            of: target(alloc, of),
        },
        Asked::Act(name, action) => What::Act {
            of: instance(alloc, name),
            action,
        },
        Asked::Restore(name, snapshot) => What::Restore {
            of: instance(alloc, name),
            snapshot: text(alloc, snapshot),
        },
        Asked::Cancel => What::Cancel { op: 1 },
    }
}

/// The command that asks for this in a project.
pub(crate) fn command(alloc: Global, project: &str, asked: Asked) -> Command {
    Command {
        project: text(alloc, project),
        what: what(alloc, asked),
        expects: None,
    }
}
