//! What a keeper in memory keeps, and which of its calls fail.
use crate::given::{bytes_of, numbers_of, text_of};
use record_keeper::{Keeper, KeeperFailed, MapKeeper};
use size_values::{Boxed, Entry, EntryChange, NoMemory, Or, Seq};
use std::alloc::Global;

/// An entry as a kind, a key and a body of one byte. As a change, a body of 0 removes the entry of that kind and key.
type Row = (u8, &'static str, u8);

fn entry(alloc: Global, row: Row) -> Entry {
    let (kind, key, byte) = row;
    Entry {
        kind,
        key: text_of(alloc, key),
        body: bytes_of(alloc, &[byte]),
    }
}

fn change(alloc: Global, row: Row) -> Result<EntryChange, NoMemory> {
    let (kind, key, byte) = row;
    if byte > 0 {
        return Ok(EntryChange::Put(Boxed::new(alloc, entry(alloc, row))?));
    }
    Ok(EntryChange::Remove {
        kind,
        key: text_of(alloc, key),
    })
}

fn changes_of(alloc: Global, rows: &[Row]) -> Seq<EntryChange> {
    let mut all = Seq::new(alloc);
    for row in rows {
        if let Ok(change) = change(alloc, *row) {
            let _ = all.push(change);
        }
    }
    all
}

fn entries_of(alloc: Global, rows: &[Row]) -> Seq<Entry> {
    let mut all = Seq::new(alloc);
    for row in rows {
        let _ = all.push(entry(alloc, *row));
    }
    all
}

/// Whether these changes are committed, or else the keeper fails.
fn commits(alloc: Global, keeper: &mut MapKeeper, rows: &[Row], is_made: bool) -> bool {
    let changes = changes_of(alloc, rows);
    let answer = keeper.commit(&changes);
    drop(changes);
    match answer {
        Ok(()) => is_made,
        Err(why) => !is_made && why == Or::Why(KeeperFailed),
    }
}

fn is_row(entry: &Entry, row: Row) -> bool {
    entry.kind == row.0 && entry.key.view() == row.1 && entry.body.view() == [row.2].as_slice()
}

/// Whether each row is on the list, in this order, and nothing else.
fn are_rows(found: &Seq<Entry>, rows: &[Row]) -> bool {
    found.len() == rows.len()
        && found
            .view()
            .iter()
            .zip(rows)
            .all(|(entry, row)| is_row(entry, *row))
}

/// Whether a load finds these rows, or the keeper fails where none are wanted.
fn loads<K: Keeper>(keeper: &mut K, wanted: Option<&[Row]>) -> bool {
    match keeper.load() {
        Ok(found) => {
            let is = match wanted {
                Some(rows) => are_rows(&found, rows),
                None => false,
            };
            drop(found);
            is
        }
        Err(why) => wanted.is_none() && why == Or::Why(KeeperFailed),
    }
}

/// Whether a keeper whose second call fails keeps what the others commit, and counts the failure.
fn keeps(alloc: Global) -> bool {
    let mut keeper = MapKeeper::new(alloc, numbers_of(alloc, &[2]));
    let is = commits(alloc, &mut keeper, &[(1, "b", 1), (1, "a", 2)], true)
        && commits(alloc, &mut keeper, &[(1, "a", 0)], false)
        && keeper.faults() == 1
        && commits(alloc, &mut keeper, &[(1, "b", 0)], true)
        && loads(&mut keeper, Some(&[(1, "a", 2)]));
    drop(keeper);
    is
}

/// A keeper that begins with entries, whose first call fails.
fn beginning(alloc: Global, rows: &[Row]) -> Result<MapKeeper, NoMemory> {
    let given = entries_of(alloc, rows);
    let keeper = MapKeeper::with_entries(alloc, &given, numbers_of(alloc, &[1]));
    drop(given);
    keeper
}

/// Whether a keeper that begins with some rows fails at its first call, and then has others.
fn begins(alloc: Global, given: &[Row], kept: &[Row]) -> bool {
    let Ok(mut keeper) = beginning(alloc, given) else {
        return false;
    };
    let is = loads(&mut keeper, None) && loads(&mut keeper, Some(kept));
    drop(keeper);
    is
}

const GIVEN: &[Row] = &[(2, "x", 1), (1, "y", 2), (2, "x", 3)];

const KEPT: &[Row] = &[(1, "y", 2), (2, "x", 3)];

#[test]
fn a_keeper_keeps_what_is_committed(rt: HostRuntime) {
    assert!(rt; keeps(rt.alloc()) && begins(rt.alloc(), GIVEN, KEPT));
}
