//! The entries that the table `records` has.
ghost use Rattle.std.specs.Prelude.{◌≡◌, true, List, [], ◌∷◌, ◌++◌, IfOk, IfErr, OnOk};
ghost use Rattle.record_keeper.specs.Entries.{IsOrderedEntries};
ghost use Rattle.sqlite.specs.Order.{Row as Values};
ghost use Rattle.sqlite.specs.State.{HasCleanDisk};
ghost use Rattle.sqlite.specs.Held.{state};
ghost use Rattle.sqlite_keeper.specs.Guarded.{StaysGuarded};
ghost use Rattle.sqlite_keeper.specs.Troubles.{is_failure};
ghost use Rattle.sqlite_keeper.specs.Entries.{SaysKind, SaysKey, SaysBody, Says, SayEach, AreKept};

use crate::order::are_ordered;
use crate::trouble::{Trouble, trouble_of};
use size_values::{Entry, Or, Seq, Text};
use sqlite::{Alter, Connection, Error, Row};
use std::alloc::Global;

/// All rows, in the order of entries.
const ALL: &str = "SELECT kind, key, body FROM records ORDER BY kind, key";

fn kind_of(row: &Row) -> Result<u8, Error>
    ensures { IfOk result (SaysKind row.now) }
{
    let kind: u32 = row.get(0)?;
    match u8::try_from(kind) {
        Ok(kind) => Ok(kind),
        Err(_) => Err(Error::IntegralValueOutOfRange(0)),
    }
}

fn key_of(row: &Row) -> Result<Text, Error>
    ensures { IfOk result (SaysKey row.now) }
{
    match row.get(1) {
        Ok(key) => Ok(Text::from_string(key)),
        Err(error) => Err(error),
    }
}

fn body_of(row: &Row) -> Result<Seq<u8>, Error>
    ensures { IfOk result (SaysBody row.now) }
{
    match row.get(2) {
        Ok(body) => Ok(Seq::from_vec(body)),
        Err(error) => Err(error),
    }
}

/// An entry of the kind and the key that a row says, with its body.
fn entry_with(kind: u8, key: Text, row: &Row) -> Result<Entry, Error>
    requires kind { SaysKind row.now kind }
    requires key { SaysKey row.now key }
    ensures { IfOk result (Says row.now) }
{
    match body_of(row) {
        Ok(body) => Ok(Entry { kind, key, body }),
        Err(error) => {
            drop(key);
            Err(error)
        }
    }
}

fn entry_of(row: &Row) -> Result<Entry, Error>
    ensures { IfOk result (Says row.now) }
{
    let kind = kind_of(row)?;
    match key_of(row) {
        Ok(key) => entry_with(kind, key, row),
        Err(error) => Err(error),
    }
}

/// Adds the entry that a row says.
fn push_row(row: &Row, found: &mut Vec<Entry>) -> Result<(), Error>
    ensures { (rows : List Values) → SayEach rows found.old.items
        → OnOk result (SayEach (rows ++ row.now ∷ []) found.new.items) }
{
    match entry_of(row) {
        Ok(entry) => {
            found.push(entry)?;
            Ok(())
        }
        Err(error) => Err(error),
    }
}

/// Adds the entries that rows say, up to the first that says none.
fn push_rows(rows: &[Row], found: &mut Vec<Entry>) -> Result<(), Error>
    requires { found.old.items ≡ [] }
    ensures { OnOk result (SayEach rows.now found.new.items) }
{
    'rows: for row in rows {
        push_row(row, found)?;
    }
    Ok(())
}

/// The entries that all of these rows say.
fn entries_of(alloc: Global, rows: &[Row]) -> Result<Vec<Entry>, Error>
    ensures { IfOk result (λ entries. SayEach rows.now entries.items) }
{
    let mut found = Vec::new(alloc);
    match push_rows(rows, &mut found) {
        Ok(()) => Ok(found),
        Err(error) => {
            drop(found);
            Err(error)
        }
    }
}

/// The entries as a list, where they are in order.
fn ordered(entries: Vec<Entry>) -> Result<Seq<Entry>, Or<Trouble>>
    ensures ordered { IfOk result IsOrderedEntries }
    ensures same { IfOk result (λ list. list ≡ entries.items) }
    ensures cause { IfErr result (λ why. is_failure why ≡ true) }
{
    if are_ordered(&entries) {
        return Ok(Seq::from_vec(entries));
    }
    drop(entries);
    Err(Or::Why(Trouble::NotAnEntry))
}

/// The same of the entries that these rows say.
fn ordered_of(alloc: Global, rows: &[Row]) -> Result<Seq<Entry>, Or<Trouble>>
    ensures ordered { IfOk result IsOrderedEntries }
    ensures say { IfOk result (SayEach rows.now) }
    ensures cause { IfErr result (λ why. is_failure why ≡ true) }
{
    match entries_of(alloc, rows) {
        Ok(found) => ordered(found),
        Err(error) => Err(trouble_of(error)),
    }
}

/// All entries, where each row of the table says one and they are in order.
pub fn entries_in<S: Alter>(
    alloc: Global,
    database: &mut Connection<S>,
) -> Result<Seq<Entry>, Or<Trouble>>
    ensures guarded { StaysGuarded S.Store database.old database.new }
    ensures ordered { IfOk result IsOrderedEntries }
    ensures kept { HasCleanDisk (state S.Store database.new)
        → IfOk result (AreKept S.Store database.old database.new) }
    ensures cause { IfErr result (λ why. is_failure why ≡ true) }
{
    match database.query_all(ALL, &[]) {
        Ok(rows) => {
            let found = ordered_of(alloc, &rows);
            drop(rows);
            found
        }
        Err(error) => Err(trouble_of(error)),
    }
}
