//! Rows as constants, and a keeper that is asked.
use disk_model::{Disk, MemoryDisk};
use journal_keeper::JournalKeeper;
use record_keeper::Keeper;
use size_values::{Boxed, Entry, EntryChange, NoMemory, Seq, Text};
use std::alloc::Global;

/// The body of the project `lab` with the setting `user.a` of the value 1 and no description.
pub const LAB: [u8; 24] = *b"\x01\0\0\0\0\0\0\0\x01\0\0\0\x06user.a\0\0\0\x011";

/// The keys of the rows that tests commit, each in a commit of its own.
pub const KEYS: [&str; 4] = ["a", "b", "c", "d"];

/// A commit that puts one row.
pub fn put(alloc: Global, key: &str, body: &[u8]) -> Result<Seq<EntryChange>, NoMemory> {
    let key = Text::from_text(alloc, key)?;
    let body = Seq::of_bytes(alloc, body)?;
    let entry = Boxed::new(alloc, Entry { kind: 1, key, body })?;
    let mut changes = Seq::new(alloc);
    changes.push(EntryChange::Put(entry))?;
    Ok(changes)
}

/// A disk in memory of which the calls of these numbers fail.
pub fn disk(alloc: Global, fails: &[u64]) -> Option<MemoryDisk> {
    let mut listed = Seq::new(alloc);
    for number in fails {
        if listed.push(*number).is_err() {
            return None;
        }
    }
    Some(MemoryDisk::new(alloc, listed))
}

/// Whether a commit of one row is answered Ok.
pub fn commits<D: Disk>(
    alloc: Global,
    keeper: &mut JournalKeeper<D>,
    key: &str,
    body: &[u8],
) -> bool {
    match put(alloc, key, body) {
        Ok(changes) => {
            let done = keeper.commit(&changes).is_ok();
            drop(changes);
            done
        }
        Err(_) => false,
    }
}

/// Whether a load is answered Ok.
pub fn loads<D: Disk>(keeper: &mut JournalKeeper<D>) -> bool {
    match keeper.load() {
        Ok(found) => {
            drop(found);
            true
        }
        Err(_) => false,
    }
}

/// The bit of a row: of the first key 1, of the next one 2, and so on.
pub fn bit_of(key: &str) -> u64 {
    match key {
        "a" => 1,
        "b" => 2,
        "c" => 4,
        "d" => 8,
        _ => 16,
    }
}

/// The bits of the rows that a load gives, if it is answered Ok.
pub fn rows<D: Disk>(keeper: &mut JournalKeeper<D>) -> Option<u64> {
    match keeper.load() {
        Ok(found) => {
            let mut bits = 0;
            for entry in found.view() {
                bits |= bit_of(entry.key.view());
            }
            drop(found);
            Some(bits)
        }
        Err(_) => None,
    }
}

/// The bits of the rows that the disk has after a crash at this moment.
pub fn rows_after_crash(alloc: Global, disk: &MemoryDisk, pick: u64) -> Option<u64> {
    match disk.crashed(pick) {
        Ok(crashed) => {
            let mut keeper = JournalKeeper::over(alloc, crashed);
            let bits = rows(&mut keeper);
            drop(keeper);
            bits
        }
        Err(_) => None,
    }
}
