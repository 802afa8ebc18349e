//! Runs of the program over objects in memory.

use crate::headers::{Header, numbers_of, value_of, words_of};
use crate::lines::sent_for;
use command_words::setup_of;
use host_model::ModelHost;
use http_front::{ByteSink, ByteSource, StillClock};
use record_keeper::{Keeper, MapKeeper};
use serial_run::run_main;
use size_values::{Boxed, Entry, EntryChange, NoMemory, Or, Seq};
use std::alloc::Global;

/// The moment of the clock that is handed in. Runs whose words give no other one tell it.
const HANDED_MOMENT: u64 = 86_400;

/// The boot word that is handed in.
const HANDED_BOOT: u64 = 7;

/// What stands before the rest of the line at which a run ends and the next one begins.
const RESTART: &str = "\n&";

/// How a run ends: its exit status, how many entries are kept, and how many roots the host has.
#[derive(Clone, Copy)]
struct End {
    status: u8,
    entries: usize,
    roots: usize,
}

/// The numbers of the calls that fail by a setting.
fn failing_calls(alloc: Global, settings: &str, name: &str) -> Result<Seq<u64>, NoMemory> {
    Ok(Seq::from_vec(numbers_of(alloc, value_of(settings, name))?))
}

/// The body of an entry after an edit: `+` is one byte more, `-` one fewer, `9` another first one, and else the last
/// one is another one.
fn edited(alloc: Global, body: &[u8], edit: &str) -> Result<Seq<u8>, NoMemory> {
    let mut bytes = Vec::from_slice(alloc, body)?;
    match edit {
        "+" => bytes.push(0)?,
        "-" => {
            bytes.pop();
        }
        "9" => {
            if let Some(first) = bytes.first_mut() {
                *first = 9;
            }
        }
        _ => {
            if let Some(last) = bytes.pop() {
                bytes.push(last ^ 1)?;
            }
        }
    }
    Ok(Seq::from_vec(bytes))
}

/// The change that edits the entry of this kind and key.
pub(crate) fn change_of(alloc: Global, entry: &Entry, edit: &str) -> Result<EntryChange, NoMemory> {
    let key = entry.key.copy(alloc)?;
    let body = edited(alloc, entry.body.view(), edit)?;
    let edited = Entry {
        kind: entry.kind,
        key,
        body,
    };
    Ok(EntryChange::Put(Boxed::new(alloc, edited)?))
}
/// The changes that edit the entries of this kind and key.
fn edits_of(
    alloc: Global,
    entries: &[Entry],
    kind: u8,
    key: &str,
    edit: &str,
) -> Result<Seq<EntryChange>, NoMemory> {
    let mut changes = Seq::new(alloc);
    for entry in entries {
        if entry.kind == kind && entry.key.view() == key {
            changes.push(change_of(alloc, entry, edit)?)?;
        }
    }
    Ok(changes)
}

/// Commits changes, where there was memory for them.
pub(crate) fn commit(
    keeper: &mut MapKeeper,
    changes: Result<Seq<EntryChange>, NoMemory>,
) -> Result<(), NoMemory> {
    let changes = changes?;
    let done = keeper.commit(&changes);
    drop(changes);
    match done {
        Err(Or::NoMemory) => Err(NoMemory),
        _ => Ok(()),
    }
}

/// Edits the entry that the rest of a line names by its kind and its key, if it names one.
fn edit_entry(alloc: Global, keeper: &mut MapKeeper, rest: &str) -> Result<(), NoMemory> {
    let (_, rest) = rest.split_once(' ').unwrap_or(("", ""));
    let (kind, rest) = rest.split_once(' ').unwrap_or(("", ""));
    let (key, edit) = rest.split_once(' ').unwrap_or(("", ""));
    let Ok(kind) = kind.parse::<u8>() else {
        return Ok(());
    };
    match keeper.load() {
        Ok(entries) => {
            let changes = edits_of(alloc, entries.view(), kind, key, edit);
            drop(entries);
            commit(keeper, changes)
        }
        Err(Or::NoMemory) => Err(NoMemory),
        Err(Or::Why(_)) => Ok(()),
    }
}

/// How many entries the keeper has, or 0 where its load fails.
fn count_entries(keeper: &mut MapKeeper) -> usize {
    match keeper.load() {
        Ok(found) => {
            let count = found.len();
            drop(found);
            count
        }
        Err(_) => 0,
    }
}

/// One run over this source, and its exit status.
fn run_over(
    alloc: Global,
    words: &[String],
    source: &mut ByteSource,
    sink: &mut ByteSink,
    keeper: MapKeeper,
    host: &mut ModelHost,
) -> (u8, MapKeeper) {
    let mut clock = StillClock::new(HANDED_MOMENT);
    run_main(
        alloc,
        words,
        source,
        sink,
        keeper,
        host,
        &mut clock,
        HANDED_BOOT,
    )
}

/// A source of the bytes that are sent for lines.
fn source_of(alloc: Global, lines: &str, settings: &str) -> Result<ByteSource, NoMemory> {
    let piece: usize = value_of(settings, "piece").parse().unwrap_or(65_536);
    let fails = failing_calls(alloc, settings, "reads")?;
    match sent_for(alloc, lines) {
        Ok(bytes) => Ok(ByteSource::new(Seq::from_vec(bytes), piece.max(1), fails)),
        Err(why) => {
            drop(fails);
            Err(why)
        }
    }
}

/// One run over these lines, and its exit status.
fn run_part(
    alloc: Global,
    header: Header<'_>,
    words: &[String],
    lines: &str,
    sink: &mut ByteSink,
    keeper: MapKeeper,
    host: &mut ModelHost,
) -> (Result<u8, NoMemory>, MapKeeper) {
    match source_of(alloc, lines, header.settings) {
        Ok(mut source) => {
            let (status, keeper) = run_over(alloc, words, &mut source, sink, keeper, host);
            drop(source);
            (Ok(status), keeper)
        }
        Err(why) => (Err(why), keeper),
    }
}

/// The runs of a script, one after the other over one keeper and one host, and how the last one
/// ends.
fn run_parts(
    alloc: Global,
    header: Header<'_>,
    words: &[String],
    script: &str,
    sink: &mut ByteSink,
    keeper: MapKeeper,
    host: &mut ModelHost,
) -> Result<End, NoMemory> {
    let mut keeper = keeper;
    let mut ended = Ok(0);
    for (place, part) in script.split(RESTART).enumerate() {
        let (rest, _) = part.split_once('\n').unwrap_or((part, ""));
        if place > 0 && edit_entry(alloc, &mut keeper, rest).is_err() {
            drop(keeper);
            return Err(NoMemory);
        }
        let (status, kept) = run_part(alloc, header, words, part, sink, keeper, host);
        keeper = kept;
        ended = status;
    }
    let entries = count_entries(&mut keeper);
    drop(keeper);
    Ok(End {
        status: ended?,
        entries,
        roots: host.roots().len(),
    })
}

/// Runs with the keeper and the host that the words and the settings ask for.
fn run_with(
    alloc: Global,
    header: Header<'_>,
    words: &[String],
    script: &str,
    sink: &mut ByteSink,
) -> Result<End, NoMemory> {
    let setup = setup_of(alloc, words)?;
    let mut host = ModelHost::new(alloc, setup.fail_host);
    let keeper = MapKeeper::new(alloc, setup.fail_keeper);
    let end = run_parts(alloc, header, words, script, sink, keeper, &mut host);
    drop(host);
    end
}

/// The end of the runs of a script, with the words of its header.
fn end_of(
    alloc: Global,
    header: Header<'_>,
    script: &str,
    sink: &mut ByteSink,
) -> Result<End, NoMemory> {
    let words = words_of(alloc, header.words)?;
    let end = run_with(alloc, header, &words, script, sink);
    drop(words);
    end
}

/// The text that says an end.
fn end_text(alloc: Global, end: End) -> Result<String, NoMemory> {
    let End {
        status,
        entries,
        roots,
    } = end;
    Ok(format!(in alloc; "{status} {entries} {roots}")?)
}

/// Makes the runs of a script, appends what is written, and says how the last one ends.
pub(crate) fn run_end(
    alloc: Global,
    header: Header<'_>,
    script: &str,
    written: &mut Vec<u8>,
) -> Result<String, NoMemory> {
    let fails = failing_calls(alloc, header.settings, "writes")?;
    let mut sink = ByteSink::new(alloc, fails);
    let end = end_of(alloc, header, script, &mut sink);
    let copied = written.extend_from_slice(sink.bytes());
    drop(sink);
    copied?;
    end_text(alloc, end?)
}
