//! Rows of a file as constants, and what is asked of a keeper over them.
use record_keeper::{Keeper, KeeperFailed};
use size_values::{Boxed, Entry, EntryChange, NoMemory, Or, Seq, Text};
use sqlite_keeper::{SqliteKeeper, Trouble};
use std::alloc::Global;
use std::fs;

/// A kind, a key and a body. As a change, no body removes the entry of that kind and key.
pub type Row = (u8, &'static str, Option<&'static [u8]>);

/// What is asked of a keeper, and how that ends.
#[derive(Clone, Copy)]
pub enum Step<'x> {
    /// A load finds these rows, in this order, and nothing else.
    Finds(&'x [Row]),
    /// These changes are committed, one list after the other.
    Commits(&'x [&'x [Row]]),
    FailsToLoad,
    FailsToCommit(&'x [Row]),
    /// So many calls have failed so far, the last of them for this.
    HasFailed(u64, Option<Trouble>),
}

/// Makes an empty folder of this name.
pub fn renew(rt: &HostRuntime, folder: &str) -> bool {
    let _missing = fs::remove_dir_all(rt, folder);
    fs::create_dir(rt, folder).is_ok()
}

fn change(alloc: Global, row: Row) -> Result<EntryChange, NoMemory> {
    let key = Text::from_text(alloc, row.1)?;
    match row.2 {
        Some(body) => {
            let body = Seq::of_bytes(alloc, body)?;
            let entry = Entry {
                kind: row.0,
                key,
                body,
            };
            Ok(EntryChange::Put(Boxed::new(alloc, entry)?))
        }
        None => Ok(EntryChange::Remove { kind: row.0, key }),
    }
}

fn changes(alloc: Global, rows: &[Row]) -> Result<Seq<EntryChange>, NoMemory> {
    let mut all = Seq::new(alloc);
    for row in rows {
        all.push(change(alloc, *row)?)?;
    }
    Ok(all)
}

/// What the commit of these changes answers.
fn committed(
    alloc: Global,
    keeper: &mut SqliteKeeper,
    rows: &[Row],
) -> Result<(), Or<KeeperFailed>> {
    let Ok(changes) = changes(alloc, rows) else {
        return Err(Or::NoMemory);
    };
    let done = keeper.commit(&changes);
    drop(changes);
    done
}

/// Whether all of these changes are committed, one list after the other.
pub fn commits(alloc: Global, keeper: &mut SqliteKeeper, lists: &[&[Row]]) -> bool {
    let mut done = true;
    for rows in lists {
        done = done && committed(alloc, keeper, rows) == Ok(());
    }
    done
}

fn is_row(entry: &Entry, row: Row) -> bool {
    entry.kind == row.0 && entry.key.view() == row.1 && Some(entry.body.view()) == row.2
}

/// Whether a load finds these rows, in this order, and nothing else.
pub fn finds(keeper: &mut SqliteKeeper, rows: &[Row]) -> bool {
    match keeper.load() {
        Ok(found) => {
            let same = found.len() == rows.len()
                && found
                    .view()
                    .iter()
                    .zip(rows)
                    .all(|(entry, row)| is_row(entry, *row));
            drop(found);
            same
        }
        Err(_) => false,
    }
}

fn fails_to_load(keeper: &mut SqliteKeeper) -> bool {
    match keeper.load() {
        Ok(found) => {
            drop(found);
            false
        }
        Err(why) => why == Or::Why(KeeperFailed),
    }
}

/// Whether a step ends so.
fn goes(alloc: Global, keeper: &mut SqliteKeeper, step: Step<'_>) -> bool {
    match step {
        Step::Finds(rows) => finds(keeper, rows),
        Step::Commits(lists) => commits(alloc, keeper, lists),
        Step::FailsToLoad => fails_to_load(keeper),
        Step::FailsToCommit(rows) => {
            committed(alloc, keeper, rows) == Err(Or::Why(KeeperFailed))
        }
        Step::HasFailed(count, why) => {
            keeper.faults() == count && keeper.trouble() == why.as_ref()
        }
    }
}

/// Whether these steps of a keeper end so, one after the other.
pub fn all_go(alloc: Global, keeper: &mut SqliteKeeper, steps: &[Step<'_>]) -> bool {
    let mut well = true;
    for step in steps {
        well = well && goes(alloc, keeper, *step);
    }
    well
}

/// A keeper of the file at this path, which makes it where it is missing.
pub fn keeper_at(rt: &HostRuntime, path: &str) -> Result<SqliteKeeper, NoMemory> {
    Ok(SqliteKeeper::at(*rt, Text::from_text(rt.alloc(), path)?, true))
}

/// A keeper of a file that has to be there.
pub fn keeper_of(rt: &HostRuntime, path: &str) -> Result<SqliteKeeper, NoMemory> {
    Ok(SqliteKeeper::at(*rt, Text::from_text(rt.alloc(), path)?, false))
}

/// Whether these steps of a new keeper of the file at this path end so.
pub fn all_go_at(rt: &HostRuntime, path: &str, steps: &[Step<'_>]) -> bool {
    let Ok(mut keeper) = keeper_at(rt, path) else {
        return false;
    };
    let well = all_go(rt.alloc(), &mut keeper, steps);
    let _closed = keeper.close();
    well
}
