use config_lists::{Config, Devices};
use operations::{OpFault, Operation, Status};
use records::{Details, Instance, Profile, Refusal, Row, Rule, Snapshot, Target, Volume};
use row_machine::Task;
use row_readings::StateRef;
use rules_tables::{claim_tables_broken, tables_broken};
use size_values::{Boxed, Deed, Kind, NoMemory, ObjectKind, Or, Seq, Text};
use std::alloc::Global;
use tests_given::Rows;

/// How many rows of a kind there are and how many live operations claim, and the kind and the cap that a refusal tells,
/// where they are too many. The caps of the other kinds are reached by whole runs.
const TABLES: &[(ObjectKind, u32, u32, Option<(&str, u64)>)] = &[
    (ObjectKind::Profile, 16_384, 0, None),
    (ObjectKind::Profile, 16_385, 0, Some(("profile", 16_384))),
    (ObjectKind::Volume, 65_536, 0, None),
    (
        ObjectKind::Volume,
        65_537,
        0,
        Some(("storage-volume", 65_536)),
    ),
    (ObjectKind::Volume, 65_534, 2, None),
    (
        ObjectKind::Volume,
        65_535,
        2,
        Some(("storage-volume", 65_536)),
    ),
    (ObjectKind::Instance, 65_536, 0, None),
    (ObjectKind::Instance, 65_537, 0, Some(("instance", 65_536))),
    (ObjectKind::Instance, 65_534, 2, None),
    (ObjectKind::Instance, 65_535, 2, Some(("instance", 65_536))),
    (ObjectKind::Snapshot, 65_536, 0, None),
    (ObjectKind::Snapshot, 65_537, 0, Some(("snapshot", 65_536))),
    (ObjectKind::Snapshot, 65_534, 2, None),
    (ObjectKind::Snapshot, 65_535, 2, Some(("snapshot", 65_536))),
];

fn profile(alloc: Global, name: Text) -> Profile {
    Profile {
        project: Text::new(alloc),
        name,
        description: Text::new(alloc),
        config: Config::new(alloc),
        devices: Devices::new(alloc),
    }
}

fn volume(alloc: Global, name: Text) -> Volume {
    Volume {
        project: Text::new(alloc),
        pool: Text::new(alloc),
        name,
        description: Text::new(alloc),
        config: Config::new(alloc),
        created: 0,
    }
}

fn instance(alloc: Global, name: Text) -> Instance {
    Instance {
        project: Text::new(alloc),
        name,
        kind: Kind::Container,
        ephemeral: false,
        description: Text::new(alloc),
        origin: Text::new(alloc),
        created: 0,
        profiles: Seq::new(alloc),
        config: Config::new(alloc),
        devices: Devices::new(alloc),
    }
}

fn snapshot(alloc: Global, name: Text) -> Snapshot {
    Snapshot {
        project: Text::new(alloc),
        instance: Text::new(alloc),
        name,
        created: 0,
        expires: 0,
        profiles: Seq::new(alloc),
        config: Config::new(alloc),
        devices: Devices::new(alloc),
    }
}

/// Adds a row of a kind, whose name is after those of smaller numbers. Its other texts are empty: that does not
/// matter to the number of rows.
fn add_row(alloc: Global, rows: &mut Rows, kind: ObjectKind, number: u32) -> Result<(), NoMemory> {
    let name = Text::from_string(format!(in alloc; "{number:08}")?);
    match kind {
        ObjectKind::Profile => rows
            .profiles
            .push(Boxed::new(alloc, profile(alloc, name))?)?,
        ObjectKind::Volume => rows.volumes.push(Boxed::new(alloc, volume(alloc, name))?)?,
        ObjectKind::Instance => rows
            .instances
            .push(Boxed::new(alloc, instance(alloc, name))?)?,
        ObjectKind::Snapshot => rows
            .snapshots
            .push(Boxed::new(alloc, snapshot(alloc, name))?)?,
        _ => drop(name),
    }
    Ok(())
}

/// The row of a kind that an operation claims.
fn claim(alloc: Global, kind: ObjectKind) -> Result<Option<Row>, NoMemory> {
    let name = Text::new(alloc);
    Ok(match kind {
        ObjectKind::Volume => Some(Row::Volume(Boxed::new(alloc, volume(alloc, name))?)),
        ObjectKind::Instance => Some(Row::Instance(Boxed::new(alloc, instance(alloc, name))?)),
        ObjectKind::Snapshot => Some(Row::Snapshot(Boxed::new(alloc, snapshot(alloc, name))?)),
        _ => None,
    })
}

/// A creation that claims a row of a kind.
fn work(alloc: Global, kind: ObjectKind) -> Result<Task, NoMemory> {
    let claim = claim(alloc, kind)?;
    Ok(Task {
        deed: Deed::Create,
        project: Text::new(alloc),
        target: Target {
            kind,
            pool: Text::new(alloc),
            instance: Text::new(alloc),
            name: Text::new(alloc),
        },
        claim,
        replaces: None,
        source: None,
        calls: Seq::new(alloc),
        undo: None,
        done: 0,
    })
}

fn add_claim(alloc: Global, rows: &mut Rows, kind: ObjectKind) -> Result<(), NoMemory> {
    let work = work(alloc, kind)?;
    rows.live.push(Operation {
        number: 1,
        created: 0,
        updated: 0,
        status: Status::Running,
        may_cancel: false,
        fault: OpFault::None,
        work,
    })?;
    Ok(())
}

/// Adds so many rows and claims of a kind.
fn fill(
    alloc: Global,
    rows: &mut Rows,
    kind: ObjectKind,
    stored: u32,
    claims: u32,
) -> Result<(), NoMemory> {
    for number in 0..stored {
        add_row(alloc, rows, kind, number)?;
    }
    for _ in 0..claims {
        add_claim(alloc, rows, kind)?;
    }
    Ok(())
}

/// Whether a refusal keeps a kind and a number, and nothing else.
fn keeps(details: &Details, kind: &str, number: u64) -> bool {
    details.kind.view() == kind
        && details.number == number
        && details.project.view().is_empty()
        && details.name.view().is_empty()
        && details.key.view().is_empty()
        && details.used == 0
        && details.asked == 0
        && details.limit == 0
}

fn is_told(refusal: &Refusal, told: Option<(&str, u64)>) -> bool {
    match told {
        Some((kind, cap)) => refusal.rule == Rule::C1 && keeps(&refusal.details, kind, cap),
        None => false,
    }
}

/// Whether an answer is the refusal that is told, or none.
fn is_answer(answer: Result<(), Or<Refusal>>, told: Option<(&str, u64)>) -> bool {
    match answer {
        Ok(()) => told.is_none(),
        Err(Or::NoMemory) => false,
        Err(Or::Why(refusal)) => {
            let right = is_told(&refusal, told);
            drop(refusal);
            right
        }
    }
}

/// Whether a change at once and an operation are both answered so.
fn both_answer(alloc: Global, after: &StateRef<'_>, told: Option<(&str, u64)>) -> bool {
    is_answer(tables_broken(alloc, after, &[]), told)
        && is_answer(claim_tables_broken(alloc, after, None), told)
}

/// Whether a table with so many rows and claims is answered so.
fn answers(
    alloc: Global,
    kind: ObjectKind,
    stored: u32,
    claims: u32,
    told: Option<(&str, u64)>,
) -> bool {
    let mut rows = Rows::empty(alloc);
    let filled = fill(alloc, &mut rows, kind, stored, claims);
    let right = filled.is_ok() && both_answer(alloc, &rows.view(), told);
    drop(rows);
    right
}

#[test]
fn full_tables_take_no_row(rt: HostRuntime) {
    for (kind, stored, claims, told) in TABLES {
        assert!(rt;
            answers(rt.alloc(), *kind, *stored, *claims, *told),
            "{stored} and {claims}"
        );
    }
}
