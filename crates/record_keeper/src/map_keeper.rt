ghost use Rattle.std.specs.Prelude.{◌≡◌, [], is_ok, if◌then◌else◌, Some, option_map, IfOk, IfSome, OnOk, OnErr};
ghost use Rattle.std.specs.Prelude.{vec_len, vec_capacity, ◌+◌, ◌≤◌};
ghost use Rattle.size_values.specs.CallCounts.{CountsFailure, called};
ghost use Rattle.size_values.specs.Calls.{no_calls, after_call, is_next_failing, has_failed};
ghost use Rattle.record_keeper.specs.Entries.{IsOrderedEntries, after_changes, entries_put};

use crate::keeper::{Keeper, KeeperFailed};
use crate::places;
use size_values::{Boxed, Entry, EntryChange, FailingCalls, NoMemory, Or, Seq, Text};
use std::alloc::Global;
use std::marker::Model;

/// A keeper whose entries are in memory and end with it. Its calls of `load` and `commit` are numbered from 1
/// together, and those of the listed numbers fail.
#[derive(Drop)]
pub struct MapKeeper {
    alloc: Global,
    entries: Vec<Boxed<Entry>>,
    calls: FailingCalls,
}

impl Model for MapKeeper {
    ghost use Rattle.record_keeper.specs.MapKeeper.{Kept};
    ghost use Rattle.record_keeper.specs.Entries.{IsOrderedEntries};

    ghost Value = { Kept };

    ghost view = { λ k. record { entries = k.entries.items; calls = k.calls } };

    ghost invariant = { λ k. IsOrderedEntries k.entries.items };
}

impl MapKeeper {
    /// A keeper with no entries. It takes no memory.
    pub fn new(alloc: Global, fails: Seq<u64>) -> MapKeeper
        ensures { result ≡ record { entries = []; calls = no_calls fails } }
    {
        MapKeeper {
            alloc,
            entries: Vec::new(alloc),
            calls: FailingCalls::new(fails),
        }
    }

    /// A keeper that has these entries already, put one after the other: of two with one kind and key the
    /// later one stays.
    pub fn with_entries(
        alloc: Global,
        entries: &Seq<Entry>,
        fails: Seq<u64>,
    ) -> Result<MapKeeper, NoMemory>
        ensures { IfOk result (λ k. k ≡ record { entries = entries_put entries.now []; calls = no_calls fails }) }
    {
        let entries = put_all(alloc, entries.view())?;
        Ok(MapKeeper {
            alloc,
            entries,
            calls: FailingCalls::new(fails),
        })
    }
}

impl Keeper for MapKeeper {
    ghost store = { λ k. record { contents = Some k.entries; calls = k.calls.made; failures = k.calls.failed } };

    fn load(&mut self) -> Result<Seq<Entry>, Or<KeeperFailed>>
        ensures found { IfOk result (λ found. found ≡ self.old.entries) }
        ensures ordered { IfOk result IsOrderedEntries }
        ensures failures { CountsFailure self.old.calls.failed self.new.calls.failed result }
        ensures kept { self.new ≡ record self.old { calls = after_call self.old.calls } }
        ensures fails { has_failed result ≡ is_next_failing self.old.calls }
    {
        if self.calls.next() {
            return Err(Or::Why(KeeperFailed));
        }
        let found = copy_entries(self.alloc, &self.entries)?;
        Ok(Seq::from_vec(found))
    }

    fn commit(&mut self, changes: &Seq<EntryChange>) -> Result<(), Or<KeeperFailed>>
        ensures failures { CountsFailure self.old.calls.failed self.new.calls.failed result }
        ensures kept { self.new
            ≡ record {
              entries = if is_ok result
                  then after_changes changes.now self.old.entries
                  else self.old.entries;
              calls = after_call self.old.calls;
            } }
        ensures fails { has_failed result ≡ is_next_failing self.old.calls }
    {
        if self.calls.next() {
            return Err(Or::Why(KeeperFailed));
        }
        let copies = copy_changes(self.alloc, changes.view())?;
        self.entries.reserve(copies.len())?;
        change_all(&mut self.entries, copies);
        Ok(())
    }

    fn faults(&self) -> u64 {
        self.calls.failed()
    }
}

/// Entries of their own with the same parts.
fn copy_entries(alloc: Global, entries: &[Boxed<Entry>]) -> Result<Vec<Entry>, NoMemory>
    ensures { IfOk result (λ v. v.items ≡ entries.now) }
{
    let mut copies = Vec::with_capacity(alloc, entries.len())?;
    for entry in entries {
        copies.push(entry.copy(alloc)?)?;
    }
    Ok(copies)
}

/// Changes of their own with the same parts.
fn copy_changes(alloc: Global, changes: &[EntryChange]) -> Result<Vec<EntryChange>, NoMemory>
    ensures { IfOk result (λ v. v.items ≡ changes.now) }
{
    let mut copies = Vec::with_capacity(alloc, changes.len())?;
    for change in changes {
        copies.push(copy_change(alloc, change)?)?;
    }
    Ok(copies)
}

fn copy_change(alloc: Global, change: &EntryChange) -> Result<EntryChange, NoMemory>
    ensures { IfOk result (λ c. c ≡ change.now) }
{
    match change {
        EntryChange::Put(entry) => Ok(EntryChange::Put(Boxed::new(alloc, entry.copy(alloc)?)?)),
        EntryChange::Remove { kind, key } => Ok(EntryChange::Remove {
            kind: *kind,
            key: key.copy(alloc)?,
        }),
    }
}

/// Makes the changes one after the other, in room that is there.
fn change_all(entries: &mut Vec<Boxed<Entry>>, changes: Vec<EntryChange>)
    requires order { IsOrderedEntries entries.old.items }
    requires room { vec_len entries.old + vec_len changes ≤ vec_capacity entries.old }
    ensures items { entries.new.items ≡ after_changes changes.items entries.old.items }
    ensures order { IsOrderedEntries entries.new.items }
{
    for change in changes {
        places::apply_change(entries, change);
    }
}

/// The entries put one after the other into an empty list.
fn put_all(alloc: Global, entries: &[Entry]) -> Result<Vec<Boxed<Entry>>, NoMemory>
    ensures items { IfOk result (λ v. v.items ≡ entries_put entries.now []) }
    ensures order { IfOk result (λ v. IsOrderedEntries v.items) }
{
    let mut kept = Vec::new(alloc);
    for entry in entries {
        kept.reserve(1)?;
        places::put(&mut kept, Boxed::new(alloc, entry.copy(alloc)?)?);
    }
    Ok(kept)
}
