//! The rows that kept entries spell.
ghost use Rattle.std.specs.Prelude.{◌≡◌, ◌∷◌, ◌++◌, [], OnOk};
ghost use Rattle.rules_opening.specs.Entries.{Adds, Fills, AreRows};

use records::Row;
use row_codec::{Damaged, decode};
use size_values::{Entry, Or, Seq};
use std::alloc::Global;

/// Adds the row that an entry spells.
fn add_row(alloc: Global, entry: &Entry, rows: &mut Seq<Row>) -> Result<(), Or<Damaged>>
    ensures { Adds result entry.now rows.old rows.new }
{
    let row = decode(alloc, entry)?;
    rows.push(row)?;
    Ok(())
}

/// Adds the rows of entries, up to the first that spells none, and tells its place.
fn add_rows(alloc: Global, entries: &[Entry], rows: &mut Seq<Row>) -> Result<(), Or<usize>>
    requires { rows.old ≡ [] }
    ensures { Fills result entries.now rows.new }
{
    for place in 0..entries.len() {
        match add_row(alloc, &entries[place], rows) {
            Ok(()) => {}
            Err(Or::NoMemory) => return Err(Or::NoMemory),
            Err(Or::Why(_)) => return Err(Or::Why(place)),
        }
    }
    Ok(())
}

/// The rows that entries spell, or the place of the first entry that spells none.
pub fn rows_in(alloc: Global, entries: &[Entry]) -> Result<Seq<Row>, Or<usize>>
    ensures { AreRows result entries.now }
{
    let mut rows = Seq::new(alloc);
    match add_rows(alloc, entries, &mut rows) {
        Ok(()) => Ok(rows),
        Err(why) => {
            drop(rows);
            Err(why)
        }
    }
}
