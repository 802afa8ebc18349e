ghost use Rattle.std.specs.Prelude.{◌≡◌, ◌≢◌, true, false, None, Some};
ghost use Rattle.std.specs.Prelude.{IfOk, IsErr, IsErrOf, OnOk};
ghost use Rattle.size_values.specs.CallCounts.{CountsFailure, called};
ghost use Rattle.size_values.specs.Calls.{has_failed};
ghost use Rattle.size_values.specs.declared.memory.Or.TheVariants as or;
ghost use Rattle.record_keeper.specs.Entries.{IsOrderedEntries};
ghost use Rattle.program_start.specs.JournalFiles.{SaysWhy, after_refusal};
ghost use Rattle.program_start.specs.declared.journal_trouble.JournalTrouble.TheVariants.{NotLoaded};

use crate::journal_trouble::JournalTrouble;
use file_disk::{FileDisk, open_journal, open_standing_journal};
use journal_keeper::JournalKeeper;
use record_keeper::{Keeper, KeeperFailed};
use size_values::{Entry, EntryChange, Or, Seq, Text};
use std::marker::Model;

/// A keeper whose entries are those of the journal at a path. It tells no entries.
#[derive(Drop)]
pub struct JournalFile {
    rt: HostRuntime,
    path: Text,
    is_made: bool,
    rows: Option<JournalKeeper<FileDisk>>,
    calls: u64,
    failures: u64,
    trouble: Option<JournalTrouble>,
}

impl Model for JournalFile {
    ghost use Rattle.std.specs.Prelude.{is_some};
    ghost use Rattle.program_start.specs.JournalFiles.{Kept};

    ghost Value = { Kept };

    ghost view = { λ k. record {
      path = k.path;
      is_made = k.is_made;
      is_open = is_some k.rows;
      calls = k.calls;
      failures = k.failures;
      trouble = k.trouble;
    } };
}

/// What a failed call of the keeper of an open journal is told as.
fn trouble_of(bad_record: Option<u64>) -> JournalTrouble {
    match bad_record {
        Some(place) => JournalTrouble::BadRecord(FileDisk::place_in_file(place)),
        None => JournalTrouble::Failed,
    }
}

impl JournalFile {
    /// A keeper of the journal at this path, which its first load opens. One that is missing is made then, or refused.
    pub fn at(rt: HostRuntime, path: Text, is_made: bool) -> JournalFile
        ensures { result ≡ record {
          path = path;
          is_made = is_made;
          is_open = false;
          calls = 0;
          failures = 0;
          trouble = None;
        } }
    {
        JournalFile {
            rt,
            path,
            is_made,
            rows: None,
            calls: 0,
            failures: 0,
            trouble: None,
        }
    }

    /// The path of its file, as it was given.
    pub fn path(&self) -> &str
        ensures { result.now ≡ self.now.path }
    {
        self.path.view()
    }

    /// Why the last call that failed did so, if one did.
    pub fn trouble(&self) -> Option<JournalTrouble>
        ensures { result ≡ self.now.trouble }
    {
        self.trouble
    }

    /// A keeper over the file, which is opened now.
    fn opened(&self) -> Result<JournalKeeper<FileDisk>, Or<JournalTrouble>> {
        let path = self.path.view();
        let opened = if self.is_made {
            open_journal(&self.rt, path)
        } else {
            open_standing_journal(&self.rt, path).map_err(Or::Why)
        };
        match opened {
            Ok(disk) => Ok(JournalKeeper::over(self.rt.alloc(), disk)),
            Err(Or::NoMemory) => Err(Or::NoMemory),
            Err(Or::Why(why)) => Err(Or::Why(JournalTrouble::Refused(why))),
        }
    }

    /// The entries of the journal, which is opened first where it is not open.
    fn entries(&mut self) -> Result<Seq<Entry>, Or<JournalTrouble>>
        ensures ordered { IfOk result IsOrderedEntries }
        ensures kept { self.new ≡ record self.old { is_open = self.new.is_open } }
        ensures open { OnOk result (self.new.is_open ≡ true) }
        ensures stays { self.old.is_open ≡ true → self.new.is_open ≡ true }
    {
        let mut rows = match self.rows.take() {
            Some(rows) => rows,
            None => self.opened()?,
        };
        let found = rows.load();
        let bad = rows.bad_record();
        self.rows = Some(rows);
        match found {
            Ok(found) => Ok(found),
            Err(Or::NoMemory) => Err(Or::NoMemory),
            Err(Or::Why(KeeperFailed)) => Err(Or::Why(trouble_of(bad))),
        }
    }

    /// Makes the changes in the journal, where it is open.
    fn change(&mut self, changes: &Seq<EntryChange>) -> Result<(), Or<JournalTrouble>>
        ensures kept { self.new ≡ self.old }
        ensures before { self.old.is_open ≡ false → IsErrOf result (or.Why NotLoaded) }
    {
        match &mut self.rows {
            Some(rows) => match rows.commit(changes) {
                Ok(()) => Ok(()),
                Err(Or::NoMemory) => Err(Or::NoMemory),
                Err(Or::Why(KeeperFailed)) => Err(Or::Why(JournalTrouble::Failed)),
            },
            None => Err(Or::Why(JournalTrouble::NotLoaded)),
        }
    }

    /// What a call answers that was refused for this: a trouble is counted and kept, and out of memory is none.
    fn refused<T>(&mut self, why: Or<JournalTrouble>) -> Result<T, Or<KeeperFailed>>
        ensures err { IsErr result }
        ensures kept { self.new ≡ after_refusal why self.old }
        ensures failures { CountsFailure self.old.failures self.new.failures result }
        ensures says { SaysWhy self.old self.new result }
        ensures trouble { why ≢ or.NoMemory → has_failed result ≡ true }
    {
        match why {
            Or::NoMemory => Err(Or::NoMemory),
            Or::Why(trouble) => {
                self.failures = self.failures.saturating_add(1);
                self.trouble = Some(trouble);
                Err(Or::Why(KeeperFailed))
            }
        }
    }
}

impl Keeper for JournalFile {
    ghost store = { λ k. record { contents = None; calls = k.calls; failures = k.failures } };

    fn load(&mut self) -> Result<Seq<Entry>, Or<KeeperFailed>>
        ensures ordered { IfOk result IsOrderedEntries }
        ensures counted { self.new
            ≡ record self.old {
              is_open = self.new.is_open;
              calls = called 1 self.old.calls;
              failures = self.new.failures;
              trouble = self.new.trouble;
            } }
        ensures failures { CountsFailure self.old.failures self.new.failures result }
        ensures says { SaysWhy self.old self.new result }
        ensures opens { OnOk result (self.new.is_open ≡ true) }
        ensures stays { self.old.is_open ≡ true → self.new.is_open ≡ true }
    {
        self.calls = self.calls.saturating_add(1);
        match self.entries() {
            Ok(found) => Ok(found),
            Err(why) => self.refused(why),
        }
    }

    /// Before a load that reached the file it fails.
    fn commit(&mut self, changes: &Seq<EntryChange>) -> Result<(), Or<KeeperFailed>>
        ensures counted { self.new
            ≡ record self.old {
              calls = called 1 self.old.calls;
              failures = self.new.failures;
              trouble = self.new.trouble;
            } }
        ensures failures { CountsFailure self.old.failures self.new.failures result }
        ensures says { SaysWhy self.old self.new result }
        ensures early { self.old.is_open ≡ false
            → (has_failed result ≡ true) × (self.new.trouble ≡ Some NotLoaded) }
    {
        self.calls = self.calls.saturating_add(1);
        match self.change(changes) {
            Ok(()) => Ok(()),
            Err(why) => self.refused(why),
        }
    }

    fn faults(&self) -> u64 {
        self.failures
    }
}
