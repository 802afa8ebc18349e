//! What kept entries open to: their rows are read, put in a draft, and judged there.
ghost use Rattle.std.specs.Prelude.{◌≢◌, ◌<◌, [], unwrap_or};
ghost use Rattle.plain_lists.specs.Members.{Each};
ghost use Rattle.machine_laws.specs.Openings.{HasBytes};
ghost use Rattle.row_machine.specs.opening.Opening.{damaged, opened};
ghost use Rattle.row_machine.specs.opening.Opening.{opening_of, opening_with, rows_break};
ghost use Rattle.core_rows.specs.Opening.{Gives, GivesDraft, GivesRows, Judges, Tells};

use crate::estate::Estate;
use crate::opening::OpenFault;
use core_drafts::Draft;
use records::Row;
use rules_opening::{rows_break, rows_in};
use size_values::{Entry, NoMemory, Or, Seq};
use std::alloc::Global;

// ---- the rows of entries

/// Each of these numbers is a byte, as their type says: this does nothing.
fn are_bytes(bytes: &[u8])
    ensures { Each (λ b. b < 256) bytes.now }
{
    let _count = bytes.len();
}

/// The body of each entry has bytes: this does nothing.
pub(crate) fn have_bytes(entries: &[Entry])
    ensures { Each HasBytes entries.now }
{
    for entry in entries {
        are_bytes(entry.body.view());
    }
}

/// The kind and key of an entry that spells no row.
fn damage_of(alloc: Global, entry: &Entry) -> OpenFault
    ensures { Tells result (damaged entry.now.kind entry.now.key) }
{
    match entry.key.copy(alloc) {
        Ok(key) => OpenFault::Damaged {
            kind: entry.kind,
            key,
        },
        Err(NoMemory) => OpenFault::NoMemory,
    }
}

/// The rows that entries spell, or the first entry that spells none.
fn read_rows(alloc: Global, entries: &[Entry]) -> Result<Seq<Row>, OpenFault>
    ensures { GivesRows result entries.now }
{
    match rows_in(alloc, entries) {
        Ok(rows) => Ok(rows),
        Err(Or::NoMemory) => Err(OpenFault::NoMemory),
        Err(Or::Why(place)) => match entries.get(place) {
            Some(entry) => Err(damage_of(alloc, entry)),
            None => unreachable!(),
        },
    }
}

// ---- rows in a draft

/// Whether rows in a draft may stand, or the first rule that they break.
fn judge(alloc: Global, draft: &Draft, rows: &[Row]) -> Result<(), OpenFault>
    ensures { Judges result draft.now.state (unwrap_or (rows_break draft.now.state rows.now) (opened draft.now.state)) }
{
    match rows_break(alloc, &draft.view(), rows) {
        Ok(()) => Ok(()),
        Err(Or::NoMemory) => Err(OpenFault::NoMemory),
        Err(Or::Why(breach)) => Err(OpenFault::Broken {
            rule: breach.rule,
            kind: breach.kind,
            key: breach.key,
        }),
    }
}

/// The draft of rows that may stand, or the first rule that they break.
fn judged_draft(alloc: Global, rows: &[Row]) -> Result<Draft, OpenFault>
    ensures { GivesDraft result (opening_with rows.now) }
{
    let Ok(draft) = Draft::of_rows(alloc, rows) else {
        return Err(OpenFault::NoMemory);
    };
    match judge(alloc, &draft, rows) {
        Ok(()) => Ok(draft),
        Err(fault) => {
            drop(draft);
            Err(fault)
        }
    }
}

// ---- what entries open to

/// The draft that entries open to, of which there are some, or why there is none.
fn open_draft(alloc: Global, entries: &[Entry]) -> Result<Draft, OpenFault>
    requires some { entries.now ≢ [] }
    ensures { GivesDraft result (opening_of entries.now) }
{
    match read_rows(alloc, entries) {
        Ok(rows) => {
            let judged = judged_draft(alloc, rows.view());
            drop(rows);
            judged
        }
        Err(fault) => Err(fault),
    }
}

/// The rows that entries open to, of which there are some, or why there are none.
pub(crate) fn open_entries(alloc: Global, entries: &[Entry]) -> Result<Estate, OpenFault>
    requires some { entries.now ≢ [] }
    requires bytes { Each HasBytes entries.now }
    ensures { Gives result (opening_of entries.now) }
{
    match open_draft(alloc, entries) {
        Ok(draft) => match Estate::of(alloc, draft) {
            Ok(estate) => Ok(estate),
            Err(NoMemory) => Err(OpenFault::NoMemory),
        },
        Err(fault) => Err(fault),
    }
}
