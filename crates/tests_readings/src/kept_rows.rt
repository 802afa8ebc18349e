//! What entries that are kept open to: rows, the first that is damaged, or the first rule that the rows break.
use record_keeper::{Keeper, MapKeeper};
use records::Rule;
use serial_run::{OpenFault, load_rows};
use size_values::{Boxed, Entry, EntryChange, NoMemory, Seq, Text};
use std::alloc::Global;

/// An entry by its kind, its key and its body.
type Kept = (u8, &'static str, &'static [u8]);

#[derive(Clone, Copy)]
enum Opened {
    /// How many projects and networks there are.
    Rows(usize, usize),
    Damaged(u8, &'static str),
    Broken(Rule, u8, &'static str),
}

/// The body of a project with one setting.
const LAB: &[u8] = b"\x01\x00\x00\x00\x00\x00\x00\x00\x01\x00\x00\x00\x06user.a\x00\x00\x00\x011";

/// The same with one byte more, one byte fewer, and another version.
const LONGER: &[u8] =
    b"\x01\x00\x00\x00\x00\x00\x00\x00\x01\x00\x00\x00\x06user.a\x00\x00\x00\x011\x00";

const SHORTER: &[u8] =
    b"\x01\x00\x00\x00\x00\x00\x00\x00\x01\x00\x00\x00\x06user.a\x00\x00\x00\x01";

const VERSION: &[u8] =
    b"\x02\x00\x00\x00\x00\x00\x00\x00\x01\x00\x00\x00\x06user.a\x00\x00\x00\x011";

/// A setting that no table has.
const UNKNOWN: &[u8] = b"\x01\x00\x00\x00\x00\x00\x00\x00\x01\x00\x00\x00\x01a\x00\x00\x00\x011";

/// A project with networks of its own, of which there may be none, or one.
const NO_NETWORKS: &[u8] =
    b"\x01\x00\x00\x00\x00\x00\x00\x00\x02\x00\x00\x00\x11features.networks\x00\x00\x00\x04true\x00\x00\x00\x0flimits.networks\x00\x00\x00\x010";

const ONE_NETWORK: &[u8] =
    b"\x01\x00\x00\x00\x00\x00\x00\x00\x02\x00\x00\x00\x11features.networks\x00\x00\x00\x04true\x00\x00\x00\x0flimits.networks\x00\x00\x00\x011";

/// A network without settings, and a profile without settings and devices.
const NETWORK: &[u8] = b"\x01\x00\x00\x00\x00\x00\x00\x00\x00";

const PROFILE: &[u8] = b"\x01\x00\x00\x00\x00\x00\x00\x00\x00\x00\x00\x00\x00";

/// Entries beside those of the first rows, and what all of them open to.
const OPENINGS: [(&[Kept], Opened); 14] = [
    (&[], Opened::Rows(1, 0)),
    (&[(1, "lab", LAB)], Opened::Rows(2, 0)),
    (&[(1, "lab", LONGER)], Opened::Damaged(1, "lab")),
    (&[(1, "lab", SHORTER)], Opened::Damaged(1, "lab")),
    (&[(1, "lab", VERSION)], Opened::Damaged(1, "lab")),
    (&[(9, "lab", LAB)], Opened::Damaged(9, "lab")),
    (&[(1, "a/b", LAB)], Opened::Damaged(1, "a/b")),
    (
        &[(2, "x/y", PROFILE), (1, "z", SHORTER), (3, "x/y", PROFILE)],
        Opened::Damaged(1, "z"),
    ),
    (
        &[(2, "x/y", PROFILE), (2, "x/a", PROFILE)],
        Opened::Broken(Rule::N1, 2, "x/a"),
    ),
    (
        &[(1, "default", LAB)],
        Opened::Broken(Rule::B3, 1, "default"),
    ),
    (&[(1, "lab", UNKNOWN)], Opened::Broken(Rule::V1, 1, "lab")),
    (
        &[(1, "lab", ONE_NETWORK), (3, "lab/n0", NETWORK)],
        Opened::Rows(2, 1),
    ),
    (
        &[(1, "lab", NO_NETWORKS), (3, "lab/n0", NETWORK)],
        Opened::Broken(Rule::L8, 1, "lab"),
    ),
    (
        &[(1, "lab", ONE_NETWORK), (3, "lab/n", NETWORK)],
        Opened::Damaged(3, "lab/n"),
    ),
];

/// Whether a fault tells this.
fn tells(fault: &OpenFault, opened: Opened) -> bool {
    match fault {
        OpenFault::Damaged { kind, key } => match opened {
            Opened::Damaged(number, name) => *kind == number && key.view() == name,
            _ => false,
        },
        OpenFault::Broken { rule, kind, key } => match opened {
            Opened::Broken(other, number, name) => {
                *rule == other && *kind == number && key.view() == name
            }
            _ => false,
        },
        _ => false,
    }
}

/// Whether the entries of a keeper open to this.
fn opens_to(alloc: Global, keeper: &mut MapKeeper, opened: Opened) -> bool {
    match load_rows(alloc, keeper) {
        Ok(estate) => {
            let view = estate.view();
            let right = match opened {
                Opened::Rows(projects, networks) => {
                    view.projects.len() == projects && view.networks.len() == networks
                }
                _ => false,
            };
            drop(estate);
            right
        }
        Err(fault) => {
            let right = tells(&fault, opened);
            drop(fault);
            right
        }
    }
}

fn push_put(alloc: Global, changes: &mut Seq<EntryChange>, kept: &Kept) -> Result<(), NoMemory> {
    let (kind, key, body) = *kept;
    let key = Text::from_text(alloc, key)?;
    let body = Seq::of_bytes(alloc, body)?;
    changes.push(EntryChange::Put(Boxed::new(alloc, Entry { kind, key, body })?))
}

fn puts_of(alloc: Global, entries: &[Kept]) -> Result<Seq<EntryChange>, NoMemory> {
    let mut changes = Seq::new(alloc);
    for kept in entries {
        push_put(alloc, &mut changes, kept)?;
    }
    Ok(changes)
}

/// Whether these entries are put.
fn is_put(alloc: Global, keeper: &mut MapKeeper, entries: &[Kept]) -> bool {
    let Ok(changes) = puts_of(alloc, entries) else {
        return false;
    };
    let put = keeper.commit(&changes).is_ok();
    drop(changes);
    put
}

/// Whether the entries of the first rows and these open to this, twice: an opening leaves them.
fn opens(alloc: Global, entries: &[Kept], opened: Opened) -> bool {
    let mut keeper = MapKeeper::new(alloc, Seq::new(alloc));
    let right = opens_to(alloc, &mut keeper, Opened::Rows(1, 0))
        && is_put(alloc, &mut keeper, entries)
        && opens_to(alloc, &mut keeper, opened)
        && opens_to(alloc, &mut keeper, opened);
    drop(keeper);
    right
}

#[test]
fn entries_are_opened(rt: HostRuntime) {
    let alloc = rt.alloc();
    for (entries, opened) in OPENINGS {
        assert!(rt; opens(alloc, entries, opened));
    }
}
