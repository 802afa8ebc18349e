//! Which rows stand after some were put, and in which order, whether a draft begins with them or changes to them.
use config_lists::{Config, Devices};
use core_drafts::Draft;
use records::{Instance, Network, Row};
use row_machine::RowChange;
use row_readings::StateRef;
use size_values::{Boxed, Kind, NoMemory, Power, Seq, Text};
use std::alloc::Global;

/// The project, name and description of a network and of an instance.
type Given = (&'static str, &'static str, &'static str);

/// Rows in the order in which they are put, and those that stand after that. The first are in the order of keys, in
/// which `a-b/x` goes before `a/x`; by their names `a` goes before `a-b`.
const FILLINGS: &[(&str, &[Given], &[Given])] = &[
    ("nothing", &[], &[]),
    (
        "in the order of keys",
        &[("a-b", "x", "1"), ("a", "x", "2")],
        &[("a", "x", "2"), ("a-b", "x", "1")],
    ),
    (
        "in the order of names",
        &[("a", "x", "1"), ("a", "y", "2"), ("a-b", "x", "3")],
        &[("a", "x", "1"), ("a", "y", "2"), ("a-b", "x", "3")],
    ),
    (
        "the last first",
        &[("b", "x", "1"), ("a", "y", "2"), ("a", "x", "3")],
        &[("a", "x", "3"), ("a", "y", "2"), ("b", "x", "1")],
    ),
    (
        "between two",
        &[("a", "x", "1"), ("a", "z", "2"), ("a", "y", "3")],
        &[("a", "x", "1"), ("a", "y", "3"), ("a", "z", "2")],
    ),
    (
        "the last one again",
        &[("a", "x", "1"), ("a", "y", "2"), ("a", "y", "3")],
        &[("a", "x", "1"), ("a", "y", "3")],
    ),
    (
        "the first one again",
        &[("a", "x", "1"), ("a", "y", "2"), ("a", "x", "3")],
        &[("a", "x", "3"), ("a", "y", "2")],
    ),
    (
        "one in front, then one after",
        &[("b", "x", "1"), ("a", "x", "2"), ("c", "x", "3")],
        &[("a", "x", "2"), ("b", "x", "1"), ("c", "x", "3")],
    ),
];

fn network(alloc: Global, given: Given) -> Result<Row, NoMemory> {
    let project = Text::from_text(alloc, given.0)?;
    let name = Text::from_text(alloc, given.1)?;
    let description = Text::from_text(alloc, given.2)?;
    Ok(Row::Network(Network {
        project,
        name,
        description,
        config: Config::new(alloc),
    }))
}

fn instance(alloc: Global, given: Given) -> Result<Row, NoMemory> {
    let project = Text::from_text(alloc, given.0)?;
    let name = Text::from_text(alloc, given.1)?;
    let description = Text::from_text(alloc, given.2)?;
    let row = Instance {
        project,
        name,
        kind: Kind::Container,
        ephemeral: false,
        description,
        origin: Text::new(alloc),
        created: 0,
        profiles: Seq::new(alloc),
        config: Config::new(alloc),
        devices: Devices::new(alloc),
    };
    Ok(Row::Instance(Boxed::new(alloc, row)?))
}

/// A network and an instance of each name.
fn rows(alloc: Global, given: &[Given]) -> Result<Seq<Row>, NoMemory> {
    let mut rows = Seq::new(alloc);
    for one in given {
        rows.push(network(alloc, *one)?)?;
        rows.push(instance(alloc, *one)?)?;
    }
    Ok(rows)
}

fn changes(alloc: Global, given: &[Given]) -> Result<Seq<RowChange>, NoMemory> {
    let mut changes = Seq::new(alloc);
    for one in given {
        changes.push(RowChange::Put(network(alloc, *one)?))?;
        changes.push(RowChange::Put(instance(alloc, *one)?))?;
    }
    Ok(changes)
}

/// A draft that begins with rows.
fn begun(alloc: Global, given: &[Given]) -> Option<Draft> {
    let Ok(rows) = rows(alloc, given) else {
        return None;
    };
    let draft = Draft::of_rows(alloc, rows.view()).ok();
    drop(rows);
    draft
}

/// A draft without rows that is changed to have them.
fn changed(alloc: Global, given: &[Given]) -> Option<Draft> {
    let Ok(changes) = changes(alloc, given) else {
        return None;
    };
    let Ok(mut draft) = Draft::new(alloc) else {
        drop(changes);
        return None;
    };
    if draft.reserve_for(alloc, &changes).is_err() {
        drop(changes);
        drop(draft);
        return None;
    }
    draft.apply(changes);
    draft.keep_changes();
    Some(draft)
}

fn is_text(text: &Text, wanted: &str) -> bool {
    text.view() == wanted
}

/// Whether these networks stand there, in this order, and no others.
fn are_networks(view: &StateRef<'_>, wanted: &[Given]) -> bool {
    view.networks.len() == wanted.len()
        && view.networks.iter().zip(wanted).all(|(row, given)| {
            is_text(&row.project, given.0)
                && is_text(&row.name, given.1)
                && is_text(&row.description, given.2)
        })
}

fn are_instances(view: &StateRef<'_>, wanted: &[Given]) -> bool {
    view.instances.len() == wanted.len()
        && view.instances.iter().zip(wanted).all(|(row, given)| {
            is_text(&row.project, given.0)
                && is_text(&row.name, given.1)
                && is_text(&row.description, given.2)
        })
}

/// Whether each of these instances is stopped, and no other has a status.
fn are_stopped(view: &StateRef<'_>, wanted: &[Given]) -> bool {
    view.powers.len() == wanted.len()
        && view.powers.iter().zip(wanted).all(|(power, given)| {
            is_text(&power.project, given.0)
                && is_text(&power.name, given.1)
                && power.power == Power::Stopped
        })
}

/// Whether a draft has a network and a stopped instance of each of these names.
fn has_rows(draft: Option<Draft>, wanted: &[Given]) -> bool {
    let Some(draft) = draft else {
        return false;
    };
    let same = {
        let view = draft.view();
        are_networks(&view, wanted) && are_instances(&view, wanted) && are_stopped(&view, wanted)
    };
    drop(draft);
    same
}

/// The same of a draft that begins with rows and of one that is changed to have them.
fn both_have_rows(alloc: Global, given: &[Given], stand: &[Given]) -> bool {
    has_rows(begun(alloc, given), stand) && has_rows(changed(alloc, given), stand)
}

#[test]
fn rows_stand_in_the_order_of_their_names(rt: HostRuntime) {
    let alloc = rt.alloc();
    for (case, given, stand) in FILLINGS {
        assert!(rt; both_have_rows(alloc, given, stand), "{case}");
    }
}
