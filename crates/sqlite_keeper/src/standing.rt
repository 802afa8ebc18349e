//! Whether changes of entries stand in the table `records`.
ghost use Rattle.sqlite_keeper.specs.Guarded.{StaysGuarded};

use crate::content::number;
use size_values::{Entry, EntryChange, Text};
use sqlite::{Alter, Connection, Error, params};

const WITH_BODY: &str = "SELECT count(*) FROM records WHERE kind = ?1 AND key = ?2 AND body = ?3";

const WITH_KEY: &str = "SELECT count(*) FROM records WHERE kind = ?1 AND key = ?2";

/// Whether the table has this entry.
fn has<S: Alter>(database: &mut Connection<S>, entry: &Entry) -> Result<bool, Error>
    ensures { StaysGuarded S.Store database.old database.new }
{
    match number(
        database,
        WITH_BODY,
        params![u32::from(entry.kind), entry.key.view(), entry.body.view()],
    ) {
        Ok(found) => Ok(found == 1),
        Err(error) => Err(error),
    }
}

/// Whether the table has no entry of this kind and key.
fn lacks<S: Alter>(database: &mut Connection<S>, kind: u8, key: &Text) -> Result<bool, Error>
    ensures { StaysGuarded S.Store database.old database.new }
{
    match number(database, WITH_KEY, params![u32::from(kind), key.view()]) {
        Ok(found) => Ok(found == 0),
        Err(error) => Err(error),
    }
}

/// Whether the table is as a change leaves it.
fn stands<S: Alter>(database: &mut Connection<S>, change: &EntryChange) -> Result<bool, Error>
    ensures { StaysGuarded S.Store database.old database.new }
{
    match change {
        EntryChange::Put(entry) => has(database, entry),
        EntryChange::Remove { kind, key } => lacks(database, *kind, key),
    }
}

/// Whether a change is of this kind and key.
fn is_at(change: &EntryChange, kind: u8, key: &Text) -> bool {
    match change {
        EntryChange::Put(entry) => entry.kind == kind && entry.key.view() == key.view(),
        EntryChange::Remove {
            kind: other,
            key: name,
        } => *other == kind && name.view() == key.view(),
    }
}

/// Whether one of the later changes is of the same kind and key.
fn is_replaced(change: &EntryChange, later: &[EntryChange]) -> bool {
    match change {
        EntryChange::Put(entry) => later
            .iter()
            .any(|other| is_at(other, entry.kind, &entry.key)),
        EntryChange::Remove { kind, key } => later.iter().any(|other| is_at(other, *kind, key)),
    }
}

/// Whether the table is as these changes leave it, made one after the other.
pub fn all_stand<S: Alter>(
    database: &mut Connection<S>,
    changes: &[EntryChange],
) -> Result<bool, Error>
    ensures { StaysGuarded S.Store database.old database.new }
{
    'changes: for at in 0..changes.len() {
        let change = &changes[at];
        if !is_replaced(change, &changes[at + 1..]) && !stands(database, change)? {
            return Ok(false);
        }
    }
    Ok(true)
}
