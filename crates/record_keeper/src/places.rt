ghost use Rattle.std.specs.Prelude.{◌≡◌, ◌+◌, ◌≤◌, vec_len, vec_capacity};
ghost use Rattle.record_keeper.specs.Entries.{seen_from, put_entry, remove_entry, after_change, IsOrderedEntries};
ghost use Rattle.record_keeper.specs.Places.{Finds};

use size_values::{Boxed, Entry, EntryChange, Text};
use std::cmp::Ordering;

/// Where an entry stands as seen from the place of a kind and key.
fn seen_from(entry: &Entry, kind: u8, key: &Text) -> Ordering
    ensures { result ≡ seen_from kind key.now entry.now }
{
    entry.kind.cmp(&kind).then(entry.key.compare(key))
}

/// The index of the entry of a kind and key, or the one at which it would stand.
fn entry_index(entries: &[Boxed<Entry>], kind: u8, key: &Text) -> Result<usize, usize>
    requires { IsOrderedEntries entries.now }
    ensures { Finds kind key.now entries.now result }
{
    entries.binary_search_by(|entry| seen_from(entry, kind, key))
}

/// Puts the entry at its place, in room that is there.
pub fn put(entries: &mut Vec<Boxed<Entry>>, entry: Boxed<Entry>)
    requires order { IsOrderedEntries entries.old.items }
    requires room { vec_len entries.old + 1 ≤ vec_capacity entries.old }
    ensures items { entries.new.items ≡ put_entry entry entries.old.items }
    ensures order { IsOrderedEntries entries.new.items }
    ensures len { vec_len entries.new ≤ vec_len entries.old + 1 }
    ensures capacity { vec_capacity entries.old ≤ vec_capacity entries.new }
{
    match entry_index(entries, entry.kind, &entry.key) {
        Ok(index) => entries[index] = entry,
        Err(index) => {
            if entries.insert(index, entry).is_err() {
                unreachable!();
            }
        }
    }
}

/// Takes the entry of a kind and key out, if there is one.
pub fn remove(entries: &mut Vec<Boxed<Entry>>, kind: u8, key: &Text)
    requires { IsOrderedEntries entries.old.items }
    ensures items { entries.new.items ≡ remove_entry kind key.now entries.old.items }
    ensures order { IsOrderedEntries entries.new.items }
    ensures len { vec_len entries.new ≤ vec_len entries.old }
    ensures capacity { vec_capacity entries.old ≤ vec_capacity entries.new }
{
    match entry_index(entries, kind, key) {
        Ok(index) => {
            let _removed = entries.remove(index);
        }
        Err(_) => {}
    }
}

/// Makes one change, in room that is there.
pub fn apply_change(entries: &mut Vec<Boxed<Entry>>, change: EntryChange)
    requires order { IsOrderedEntries entries.old.items }
    requires room { vec_len entries.old + 1 ≤ vec_capacity entries.old }
    ensures items { entries.new.items ≡ after_change change entries.old.items }
    ensures order { IsOrderedEntries entries.new.items }
    ensures len { vec_len entries.new ≤ vec_len entries.old + 1 }
    ensures capacity { vec_capacity entries.old ≤ vec_capacity entries.new }
{
    match change {
        EntryChange::Put(entry) => put(entries, entry),
        EntryChange::Remove { kind, key } => remove(entries, kind, &key),
    }
}
