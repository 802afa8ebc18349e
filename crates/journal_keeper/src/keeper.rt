ghost use Rattle.std.specs.Prelude.{◌≡◌, List, None, false, option_map, is_some, IfOk, OnOk};
ghost use Rattle.std.specs.Prelude.{OnErr, IfSome};
ghost use Rattle.record_keeper.specs.Entries.{IsOrderedEntries, after_changes};
ghost use Rattle.size_values.specs.CallCounts.{CountsFailure, called};
ghost use Rattle.journal_keeper.specs.Texts.{Commit};
ghost use Rattle.journal_keeper.specs.Keeping.{Stands, Commits, Loads, IsTaken, is_taken, entries_told, faults_of};
ghost use Rattle.journal_keeper.specs.Keeping.{CountsBad};
ghost use Rattle.journal_keeper.specs.declared.gate.Gate.TheVariants as gates;

use crate::gate::Gate;
use crate::loading::{count_bad, load_from};
use crate::taking::take_commit;
use disk_model::Disk;
use record_keeper::{Keeper, KeeperFailed};
use size_values::{Entry, EntryChange, Or, Seq};
use std::alloc::Global;
use std::marker::Model;

/// A keeper whose entries are those of a journal on a disk. The file only grows.
#[derive(Drop)]
pub struct JournalKeeper<D: Disk> {
    alloc: Global,
    disk: D,
    gate: Gate,
    calls: u64,
    bad_loads: u64,
    refused: u64,
    bad_record: Option<u64>,
}

impl<D: Disk> Model for JournalKeeper<D> {
    ghost use Rattle.journal_keeper.specs.Keeping.{JournalState, IsSound};

    ghost Value = { JournalState D };

    ghost view = { λ k. record {
      disk = k.disk;
      gate = k.gate;
      calls = k.calls;
      bad_loads = k.bad_loads;
      refused = k.refused;
      bad_record = k.bad_record;
    } };

    ghost invariant = { λ k. IsSound (D.disk k.disk) k.gate };
}

impl<D: Disk> JournalKeeper<D> {
    /// A keeper over a disk. It makes no call and takes no memory.
    pub fn over(alloc: Global, disk: D) -> JournalKeeper<D>
        ensures { result ≡ record {
          disk = disk;
          gate = gates.Unread;
          calls = 0;
          bad_loads = 0;
          refused = 0;
          bad_record = None;
        } }
    {
        JournalKeeper {
            alloc,
            disk,
            gate: Gate::Unread,
            calls: 0,
            bad_loads: 0,
            refused: 0,
            bad_record: None,
        }
    }

    /// The disk.
    pub fn disk(&self) -> &D
        ensures { result.now ≡ self.now.disk }
    {
        &self.disk
    }

    /// The byte at which the bad open record begins that the last load met, if it met one.
    pub fn bad_record(&self) -> Option<u64>
        ensures { result ≡ self.now.bad_record }
    {
        self.bad_record
    }
}

impl<D: Disk> Keeper for JournalKeeper<D> {
    ghost store = { λ k. record {
      contents = entries_told k.gate (D.disk k.disk).contents;
      calls = k.calls;
      failures = faults_of (D.disk k.disk).failures k.bad_loads k.refused;
    } };

    fn load(&mut self) -> Result<Seq<Entry>, Or<KeeperFailed>>
        ensures found { IfOk result (λ found. IfSome (entries_told self.old.gate (D.disk self.old.disk).contents) (λ kept. found ≡ kept)) }
        ensures ordered { IfOk result IsOrderedEntries }
        ensures same { entries_told self.new.gate (D.disk self.new.disk).contents
            ≡ entries_told self.old.gate (D.disk self.old.disk).contents }
        ensures calls { self.new.calls ≡ called 1 self.old.calls }
        ensures failures { CountsFailure (faults_of (D.disk self.old.disk).failures self.old.bad_loads self.old.refused)
            (faults_of (D.disk self.new.disk).failures self.new.bad_loads self.new.refused) result }
        ensures loads { Loads (D.disk self.old.disk) (D.disk self.new.disk) self.old.gate self.new.gate result }
        ensures tells { is_some (D.disk self.new.disk).contents ≡ is_some (D.disk self.old.disk).contents }
        ensures refused { self.new.refused ≡ self.old.refused }
        ensures bad { CountsBad (D.disk self.new.disk).contents self.old.bad_loads self.new.bad_loads self.new.bad_record result }
    {
        self.calls = self.calls.saturating_add(1);
        self.bad_record = None;
        let found = load_from(
            self.alloc,
            &mut self.disk,
            &mut self.gate,
            &mut self.bad_record,
        );
        self.bad_loads = count_bad(self.bad_loads, self.bad_record);
        found
    }

    fn commit(&mut self, changes: &Seq<EntryChange>) -> Result<(), Or<KeeperFailed>>
        ensures ok { OnOk result (entries_told self.new.gate (D.disk self.new.disk).contents
            ≡ option_map (after_changes changes.now) (entries_told self.old.gate (D.disk self.old.disk).contents)) }
        ensures err { OnErr result (entries_told self.new.gate (D.disk self.new.disk).contents
            ≡ entries_told self.old.gate (D.disk self.old.disk).contents) }
        ensures calls { self.new.calls ≡ called 1 self.old.calls }
        ensures failures { CountsFailure (faults_of (D.disk self.old.disk).failures self.old.bad_loads self.old.refused)
            (faults_of (D.disk self.new.disk).failures self.new.bad_loads self.new.refused) result }
        ensures commits { (base : List Commit) (doubts : List Commit)
            → Stands (D.disk self.old.disk) self.old.gate base doubts
            → Commits (D.disk self.old.disk) (D.disk self.new.disk) self.new.gate base doubts changes.now result }
        ensures tells { is_some (D.disk self.new.disk).contents ≡ is_some (D.disk self.old.disk).contents }
        ensures taken { IsTaken self.old.gate changes.now self.old.refused self.new.refused result }
        ensures untouched { is_taken self.old.gate changes.now ≡ false → self.new.disk ≡ self.old.disk }
        ensures bad { (self.new.bad_loads ≡ self.old.bad_loads) × (self.new.bad_record ≡ self.old.bad_record) }
    {
        self.calls = self.calls.saturating_add(1);
        take_commit(
            self.alloc,
            &mut self.disk,
            &mut self.gate,
            &mut self.refused,
            changes,
        )
    }

    fn faults(&self) -> u64 {
        self.disk
            .faults()
            .saturating_add(self.bad_loads.saturating_add(self.refused))
    }
}
