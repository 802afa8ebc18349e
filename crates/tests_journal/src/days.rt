//! The day of a user over a journal in memory: each call of its disk fails in turn, and a crash comes after each.
use crate::day::{Change, DAY};
use crate::rows::{disk, loads};
use disk_model::MemoryDisk;
use journal_keeper::JournalKeeper;
use record_keeper::{Keeper, MapKeeper};
use size_values::{Boxed, Entry, EntryChange, NoMemory, Seq, Text};
use std::alloc::Global;
use std::test::Fail;

/// As many picks as there are outcomes of two writes that no sync ended.
const PICKS: u64 = 16;

/// More calls than a day makes: four to load it, four for each commit, and two to mend it once.
const MOST_CALLS: u64 = 6 + 4 * DAY.len() as u64;

fn change_of(alloc: Global, change: &Change) -> Result<EntryChange, NoMemory> {
    let (kind, key, body) = *change;
    let key = Text::from_text(alloc, key)?;
    match body {
        Some(body) => {
            let body = Seq::of_bytes(alloc, body)?;
            Ok(EntryChange::Put(Boxed::new(alloc, Entry { kind, key, body })?))
        }
        None => Ok(EntryChange::Remove { kind, key }),
    }
}

/// The changes of a commit.
fn commit_of(alloc: Global, commit: &[Change]) -> Result<Seq<EntryChange>, NoMemory> {
    let mut changes = Seq::new(alloc);
    for change in commit {
        changes.push(change_of(alloc, change)?)?;
    }
    Ok(changes)
}

/// Whether a keeper takes a commit.
fn takes<K: Keeper>(alloc: Global, keeper: &mut K, commit: &[Change]) -> bool {
    match commit_of(alloc, commit) {
        Ok(changes) => {
            let taken = keeper.commit(&changes).is_ok();
            drop(changes);
            taken
        }
        Err(_) => false,
    }
}

fn are_same(found: &[Entry], due: &[Entry]) -> bool {
    if found.len() != due.len() {
        return false;
    }
    for place in 0..found.len() {
        let (one, other) = (&found[place], &due[place]);
        if one.kind != other.kind
            || one.key.view() != other.key.view()
            || one.body.view() != other.body.view()
        {
            return false;
        }
    }
    true
}

/// The rows after one commit more.
fn rows_with(alloc: Global, rows: &Seq<Entry>, commit: &[Change]) -> Option<Seq<Entry>> {
    let Ok(mut keeper) = MapKeeper::with_entries(alloc, rows, Seq::new(alloc)) else {
        return None;
    };
    let taken = takes(alloc, &mut keeper, commit);
    let found = keeper.load().ok();
    drop(keeper);
    if taken { found } else { None }
}

/// The rows that a disk has after a crash at this moment.
fn rows_after_crash(alloc: Global, disk: &MemoryDisk, pick: u64) -> Option<Seq<Entry>> {
    let Ok(crashed) = disk.crashed(pick) else {
        return None;
    };
    let mut keeper = JournalKeeper::over(alloc, crashed);
    let found = keeper.load().ok();
    drop(keeper);
    found
}

/// Whether each crash leaves these rows, or those.
fn leaves_one_of(alloc: Global, disk: &MemoryDisk, rows: &Seq<Entry>, others: &Seq<Entry>) -> bool {
    for pick in 0..PICKS {
        match rows_after_crash(alloc, disk, pick) {
            Some(found) => {
                let is_left = are_same(found.view(), rows.view())
                    || are_same(found.view(), others.view());
                drop(found);
                if !is_left {
                    return false;
                }
            }
            None => return false,
        }
    }
    true
}

/// The commit at a place of the day, or one that changes nothing.
fn commit_at(place: Option<usize>) -> &'static [Change] {
    match place {
        Some(place) if place < DAY.len() => DAY[place],
        _ => &[],
    }
}

/// Whether each crash leaves the rows that were acknowledged, or those and the commit in doubt, if there is one.
fn leaves_only(
    alloc: Global,
    disk: &MemoryDisk,
    acknowledged: &mut MapKeeper,
    doubt: Option<usize>,
) -> bool {
    let Ok(rows) = acknowledged.load() else {
        return false;
    };
    match rows_with(alloc, &rows, commit_at(doubt)) {
        Some(others) => {
            let only = leaves_one_of(alloc, disk, &rows, &others);
            drop(others);
            drop(rows);
            only
        }
        None => {
            drop(rows);
            false
        }
    }
}

/// Whether a day over this disk goes well: each crash after a commit that failed, after the one behind it, and at the end
/// leaves what was acknowledged, and at most the commit that failed. The day ends with a commit that fails, or goes on.
fn is_well(alloc: Global, disk: MemoryDisk, goes_on: bool) -> bool {
    let mut keeper = JournalKeeper::over(alloc, disk);
    let mut acknowledged = MapKeeper::new(alloc, Seq::new(alloc));
    let mut doubt = None;
    let mut well = loads(&mut keeper) || loads(&mut keeper) || !goes_on;
    for place in 0..DAY.len() {
        let was_in_doubt = doubt.is_some();
        let taken = takes(alloc, &mut keeper, DAY[place]);
        if taken {
            well = well && takes(alloc, &mut acknowledged, DAY[place]);
            doubt = None;
        } else {
            doubt = Some(place);
        }
        if !taken || was_in_doubt {
            well = well && leaves_only(alloc, keeper.disk(), &mut acknowledged, doubt);
        }
        if !taken && !goes_on {
            break;
        }
    }
    well = well && leaves_only(alloc, keeper.disk(), &mut acknowledged, doubt);
    drop(acknowledged);
    drop(keeper);
    well
}

/// Whether a day goes well of which the call of this number fails.
fn survives_failure(alloc: Global, number: u64) -> bool {
    match disk(alloc, &[number]) {
        Some(disk) => is_well(alloc, disk, true),
        None => false,
    }
}

/// A disk of which each call after the first ones of this count fails.
fn ending_disk(alloc: Global, count: u64) -> Option<MemoryDisk> {
    let mut fails = Seq::new(alloc);
    for number in count..MOST_CALLS {
        if fails.push(number + 1).is_err() {
            return None;
        }
    }
    Some(MemoryDisk::new(alloc, fails))
}

/// Whether a day goes well that ends with a crash after so many calls.
fn survives_crash(alloc: Global, count: u64) -> bool {
    match ending_disk(alloc, count) {
        Some(disk) => is_well(alloc, disk, false),
        None => false,
    }
}

#[test]
fn a_day_survives_each_failing_call(rt: HostRuntime) -> Result<(), Fail> {
    for number in 1..MOST_CALLS {
        assert!(rt; survives_failure(rt.alloc(), number), "a failing call");
    }
    Ok(())
}

#[test]
fn a_day_survives_a_crash_after_each_call(rt: HostRuntime) -> Result<(), Fail> {
    for count in 0..MOST_CALLS {
        assert!(rt; survives_crash(rt.alloc(), count), "a crash");
    }
    Ok(())
}
