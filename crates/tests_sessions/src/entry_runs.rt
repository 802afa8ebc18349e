//! Runs over the entries that a run leaves, of which one is edited.

use crate::running::{change_of, commit};
use crate::spelling::push_texts;
use crate::table_judging::Counts;
use crate::table_runs::{Left, entries_after};
use command_words::RunWords;
use host_model::ModelHost;
use http_front::{ByteSink, ByteSource, StillClock};
use record_keeper::MapKeeper;
use row_codec::{Damaged, decode};
use serial_run::{OpenFault, load_rows, run_main};
use size_values::{Entry, EntryChange, NoMemory, Or, Seq};
use std::alloc::Global;

/// The edits: a byte more at the end, a byte fewer, and another first byte.
const EDITS: &[&str] = &["+", "-", "9"];

/// The kind of an entry that keeps a volume.
const VOLUME: u8 = 5;

/// The exit status of a run over a keeper, with no input, and whether nothing was written.
fn run_alone(alloc: Global, keeper: MapKeeper) -> Result<(u8, bool, MapKeeper), NoMemory> {
    let mut words = Vec::new(alloc);
    let pushed = push_run(alloc, &mut words);
    let mut source = ByteSource::new(Seq::new(alloc), 1, Seq::new(alloc));
    let mut sink = ByteSink::new(alloc, Seq::new(alloc));
    let mut host = ModelHost::new(alloc, Seq::new(alloc));
    let mut clock = StillClock::new(0);
    let (status, keeper) = run_main(
        alloc,
        &words,
        &mut source,
        &mut sink,
        keeper,
        &mut host,
        &mut clock,
        0,
    );
    let is_silent = sink.bytes().is_empty();
    drop(host);
    drop(sink);
    drop(source);
    drop(words);
    match pushed {
        Ok(()) => Ok((status, is_silent, keeper)),
        Err(why) => {
            drop(keeper);
            Err(why)
        }
    }
}

/// Appends the word `run`.
fn push_run(alloc: Global, words: &mut Vec<String>) -> Result<(), NoMemory> {
    words.push(String::from_str(alloc, "run")?)?;
    Ok(())
}

/// Whether the rows of a keeper are not opened since this entry is damaged.
fn is_named(alloc: Global, keeper: &mut MapKeeper, entry: &Entry) -> bool {
    match load_rows(alloc, keeper) {
        Ok(estate) => {
            drop(estate);
            false
        }
        Err(why) => {
            let is = match &why {
                OpenFault::Damaged { kind, key } => *kind == entry.kind && key.is(&entry.key),
                OpenFault::KeeperFailed => false,
                OpenFault::Broken { .. } => false,
                OpenFault::NoMemory => false,
            };
            drop(why);
            is
        }
    }
}

/// Where the last part of a body begins: the moment of a volume, or the last text or list, of which four bytes tell that
/// it fills the rest.
fn last_part(entry: &Entry) -> usize {
    let body = entry.body.view();
    if entry.kind == VOLUME {
        return body.len().saturating_sub(8);
    }
    let mut last = 0usize;
    for place in 0..body.len() {
        if let [a, b, c, d, rest @ ..] = &body[place..] {
            if u32::from_be_bytes([*a, *b, *c, *d]) as usize == rest.len() {
                last = place;
            }
        }
    }
    last
}

/// Where an edit damages an entry: behind the body is a byte too many, its last part lacks a byte, or its first byte is no
/// version.
fn damaged_place(entry: &Entry, edit: &str) -> usize {
    match edit {
        "+" => entry.body.len(),
        "-" => last_part(entry),
        _ => 0,
    }
}

/// Whether an edited entry is damaged at this place.
fn is_damaged_at(alloc: Global, edited: &Entry, due: usize) -> bool {
    let decoded = decode(alloc, edited);
    let is = match &decoded {
        Err(Or::Why(Damaged::Body(place))) => *place == due as u64,
        _ => false,
    };
    drop(decoded);
    is
}

/// Whether the change puts an entry that is damaged at this place.
fn puts_damaged(alloc: Global, change: &EntryChange, due: usize) -> bool {
    match change {
        EntryChange::Put(edited) => is_damaged_at(alloc, edited, due),
        EntryChange::Remove { .. } => false,
    }
}

/// What a run leaves that ends so.
fn left_with(status: u8) -> Left {
    Left {
        status,
        live: 0,
        held: 0,
        unkept: 0,
        undone: 0,
        faults: 0,
    }
}

/// A list of one change.
fn only(alloc: Global, change: EntryChange) -> Result<Seq<EntryChange>, NoMemory> {
    let mut changes = Seq::new(alloc);
    match changes.push(change) {
        Ok(()) => Ok(changes),
        Err(why) => {
            drop(changes);
            Err(why)
        }
    }
}

/// The exit status of a run over the entries of a keeper with this change of an entry, and whether it went as it has to.
fn judge_change(
    alloc: Global,
    mut keeper: MapKeeper,
    entry: &Entry,
    change: EntryChange,
    edit: &str,
) -> Result<(u8, bool), NoMemory> {
    let is_damaged = puts_damaged(alloc, &change, damaged_place(entry, edit));
    let committed = commit(&mut keeper, only(alloc, change));
    if committed.is_err() {
        drop(keeper);
        return Err(NoMemory);
    }
    let (status, is_silent, mut keeper) = run_alone(alloc, keeper)?;
    let is_named = is_named(alloc, &mut keeper, entry);
    drop(keeper);
    Ok((status, status == 7 && is_silent && is_named && is_damaged))
}

/// The same of an edit of an entry.
fn judge_edit(
    alloc: Global,
    entries: &Seq<Entry>,
    entry: &Entry,
    edit: &str,
) -> Result<(u8, bool), NoMemory> {
    let change = change_of(alloc, entry, edit)?;
    match MapKeeper::with_entries(alloc, entries, Seq::new(alloc)) {
        Ok(keeper) => judge_change(alloc, keeper, entry, change, edit),
        Err(why) => {
            drop(change);
            Err(why)
        }
    }
}

/// Reports an entry with which a run went wrong.
fn push_wrong(
    alloc: Global,
    report: &mut String,
    line: &str,
    entry: &Entry,
    edit: &str,
    status: u8,
) -> Result<(), NoMemory> {
    let text = format!(in alloc;
        "~ {line}\n  {} {} {edit}: status {status}\n",
        entry.kind,
        entry.key.view()
    )?;
    let pushed = push_texts(report, &[text.as_str()]);
    drop(text);
    pushed
}

/// Judges the runs over all edits of one entry.
fn judge_entry(
    alloc: Global,
    entries: &Seq<Entry>,
    entry: &Entry,
    line: &str,
    counts: &mut Counts,
    report: &mut String,
) -> Result<(), NoMemory> {
    for edit in EDITS {
        let (status, is_well) = judge_edit(alloc, entries, entry, edit)?;
        if !is_well && counts.wrong == 0 {
            push_wrong(alloc, report, line, entry, edit, status)?;
        }
        counts.count(left_with(status), 0, !is_well);
    }
    Ok(())
}

/// Judges the runs over all edits of all entries.
fn judge_all(
    alloc: Global,
    entries: &Seq<Entry>,
    line: &str,
    counts: &mut Counts,
    report: &mut String,
) -> Result<(), NoMemory> {
    for entry in entries.view() {
        judge_entry(alloc, entries, entry, line, counts, report)?;
    }
    Ok(())
}

/// Judges the runs over the entries that a run over these bytes leaves, each of them edited in turn.
pub(crate) fn judge_entries(
    alloc: Global,
    said: RunWords,
    bytes: &[u8],
    line: &str,
    counts: &mut Counts,
    report: &mut String,
) -> Result<(), NoMemory> {
    let entries = entries_after(alloc, said, bytes)?;
    let judged = judge_all(alloc, &entries, line, counts, report);
    drop(entries);
    judged
}
