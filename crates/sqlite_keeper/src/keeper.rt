ghost use Rattle.std.specs.Prelude.{◌≡◌, ◌≢◌, true, false, None, Some, option_copied, is_some, is_ok};
ghost use Rattle.std.specs.Prelude.{IfOk, IfErr, OnOk, IsErr, IsErrOf};
ghost use Rattle.size_values.specs.CallCounts.{CountsFailure, called};
ghost use Rattle.size_values.specs.Calls.{has_failed};
ghost use Rattle.record_keeper.specs.Entries.{IsOrderedEntries};
ghost use Rattle.sqlite_keeper.specs.Kept.{SaysWhy, after_refusal, new_keeper, why_closed};
ghost use Rattle.sqlite_keeper.specs.Troubles.{is_failure};

use crate::rows_file::{Identity, Reopened, RowsFile};
use crate::trouble::Trouble;
use record_keeper::{Keeper, KeeperFailed};
use size_values::{Entry, EntryChange, Or, Seq, Text};
use std::marker::Model;

/// A keeper whose entries are the rows of the table `records` of an SQLite file. It tells no entries.
/// The file and the log that SQLite keeps beside it, whose name ends in `-wal`, are one database, and
/// the file alone is it once the keeper is closed.
///
/// After a failed sync the library asks nothing more of the file. So it is opened again, which writes
/// the file to the disk and reads it from there, and the changes stand there or they don't: a commit
/// whose changes stand is well. Where the file can't be opened again, it is lost to this keeper, and
/// nobody knows of the last changes until another keeper opens it.
#[derive(Drop)]
pub struct SqliteKeeper {
    rt: HostRuntime,
    path: Text,
    is_made: bool,
    rows: Option<RowsFile>,
    calls: u64,
    failures: u64,
    trouble: Option<Trouble>,
    lost: Option<Trouble>,
    mended: u64,
}

impl Model for SqliteKeeper {
    ghost use Rattle.std.specs.Prelude.{is_some};
    ghost use Rattle.sqlite_keeper.specs.Kept.{Kept};

    ghost Value = { Kept };

    ghost view = { λ k. record {
      path = k.path;
      is_made = k.is_made;
      is_open = is_some k.rows;
      calls = k.calls;
      failures = k.failures;
      trouble = k.trouble;
      lost = k.lost;
      mended = k.mended;
    } };
}

impl SqliteKeeper {
    /// A keeper of the file at this path, which its first load opens. One that is missing is made then, or refused.
    pub fn at(rt: HostRuntime, path: Text, is_made: bool) -> SqliteKeeper
        ensures { result ≡ new_keeper path is_made }
    {
        SqliteKeeper {
            rt,
            path,
            is_made,
            rows: None,
            calls: 0,
            failures: 0,
            trouble: None,
            lost: None,
            mended: 0,
        }
    }

    /// Lets go of its file, once what the log has is copied into it, so that the file alone holds all rows. Where that
    /// fails, the two files together hold them.
    pub fn close(&mut self) -> Result<(), Or<Trouble>>
        ensures closed { self.new ≡ record self.old { is_open = false } }
        ensures before { self.old.is_open ≡ false → is_ok result ≡ true }
        ensures cause { IfErr result (λ why. is_failure why ≡ true) }
    {
        match self.rows.take() {
            Some(rows) => rows.close(),
            None => Ok(()),
        }
    }

    /// The path of its file, as it was given.
    pub fn path(&self) -> &str
        ensures { result.now ≡ self.now.path }
    {
        self.path.view()
    }

    /// Why the last call that failed did so, if one did.
    pub fn trouble(&self) -> Option<&Trouble>
        ensures { option_copied result ≡ self.now.trouble }
    {
        self.trouble.as_ref()
    }

    /// Whether its file failed and could not be opened again. From then on each commit fails.
    pub fn is_lost(&self) -> bool
        ensures { result ≡ is_some self.now.lost }
    {
        self.lost.is_some()
    }

    /// How many commits were well though the disk had failed: their changes were found in the file.
    pub fn mended(&self) -> u64
        ensures { result ≡ self.now.mended }
    {
        self.mended
    }

    /// The entries of the file, which is opened first where it is not open.
    fn entries(&mut self) -> Result<Seq<Entry>, Or<Trouble>>
        ensures ordered { IfOk result IsOrderedEntries }
        ensures kept { self.new ≡ record self.old { is_open = self.new.is_open; lost = self.new.lost } }
        ensures open { OnOk result ((self.new.is_open ≡ true) × (self.new.lost ≡ None)) }
        ensures stays { self.old.is_open ≡ true → self.new.is_open ≡ true }
    {
        let mut rows = match self.rows.take() {
            Some(rows) => rows,
            None => RowsFile::open(&self.rt, &self.path, self.is_made)?,
        };
        let found = rows.entries(self.rt.alloc());
        self.hold(rows);
        self.lost = None;
        found
    }

    /// Takes its file back.
    fn hold(&mut self, rows: RowsFile)
        ensures { self.new ≡ record self.old { is_open = true } }
    {
        self.rows = Some(rows);
    }

    /// Makes the changes in the file, where it is open.
    fn change(&mut self, changes: &Seq<EntryChange>) -> Result<(), Or<Trouble>>
        ensures kept { self.new
            ≡ record self.old {
              is_open = self.new.is_open;
              lost = self.new.lost;
              mended = self.new.mended;
            } }
        ensures before { self.old.is_open ≡ false
            → (self.new ≡ self.old) × IsErrOf result (Or.Why (why_closed self.old)) }
        ensures open { OnOk result (self.new.is_open ≡ true) }
        ensures mended { IsErr result → self.new.mended ≡ self.old.mended }
        ensures stays { self.new.is_open ≡ true → self.new.lost ≡ self.old.lost }
        ensures lost { self.old.is_open ≡ true → self.new.is_open ≡ false → is_some self.new.lost ≡ true }
    {
        match self.rows.take() {
            Some(rows) => self.change_in(rows, changes),
            None => Err(Or::Why(self.lost.unwrap_or(Trouble::NotLoaded))),
        }
    }

    /// Makes the changes in its file, which it takes back. Where the file closed itself, it is opened again.
    fn change_in(
        &mut self,
        mut rows: RowsFile,
        changes: &Seq<EntryChange>,
    ) -> Result<(), Or<Trouble>>
        requires { self.old.is_open ≡ false }
        ensures kept { self.new
            ≡ record self.old {
              is_open = self.new.is_open;
              lost = self.new.lost;
              mended = self.new.mended;
            } }
        ensures open { OnOk result (self.new.is_open ≡ true) }
        ensures mended { IsErr result → self.new.mended ≡ self.old.mended }
        ensures stays { self.new.is_open ≡ true → self.new.lost ≡ self.old.lost }
        ensures lost { self.new.is_open ≡ false → is_some self.new.lost ≡ true }
    {
        match rows.keep(changes.view()) {
            Ok(()) => {
                self.hold(rows);
                Ok(())
            }
            Err(Or::Why(trouble)) => self.settle(rows, changes, trouble),
            Err(Or::NoMemory) => {
                self.hold(rows);
                Err(Or::NoMemory)
            }
        }
    }

    /// Takes its file back, in which these changes failed for this trouble; where it closed itself, it is opened again.
    fn settle(
        &mut self,
        mut rows: RowsFile,
        changes: &Seq<EntryChange>,
        trouble: Trouble,
    ) -> Result<(), Or<Trouble>>
        requires { self.old.is_open ≡ false }
        ensures kept { self.new
            ≡ record self.old {
              is_open = self.new.is_open;
              lost = self.new.lost;
              mended = self.new.mended;
            } }
        ensures open { OnOk result (self.new.is_open ≡ true) }
        ensures mended { IsErr result → self.new.mended ≡ self.old.mended }
        ensures stays { self.new.is_open ≡ true → self.new.lost ≡ self.old.lost }
        ensures lost { self.new.is_open ≡ false → is_some self.new.lost ≡ true }
        ensures cause { IfErr result (λ why. why ≡ Or.Why trouble) }
    {
        if rows.is_open() {
            self.hold(rows);
            return Err(Or::Why(trouble));
        }
        let identity = rows.identity();
        drop(rows);
        self.reopen(identity, changes, trouble)
    }

    /// Opens its file again, which closed itself for this trouble while these changes were made, and answers whether
    /// they stand.
    fn reopen(
        &mut self,
        identity: Option<Identity>,
        changes: &Seq<EntryChange>,
        trouble: Trouble,
    ) -> Result<(), Or<Trouble>>
        requires { self.old.is_open ≡ false }
        ensures kept { self.new
            ≡ record self.old {
              is_open = self.new.is_open;
              lost = self.new.lost;
              mended = self.new.mended;
            } }
        ensures open { OnOk result (self.new.is_open ≡ true) }
        ensures mended { IsErr result → self.new.mended ≡ self.old.mended }
        ensures stays { self.new.is_open ≡ true → self.new.lost ≡ self.old.lost }
        ensures lost { self.new.is_open ≡ false → self.new.lost ≡ Some trouble }
        ensures cause { IfErr result (λ why. why ≡ Or.Why trouble) }
    {
        match RowsFile::reopen(&self.rt, &self.path, identity, changes.view()) {
            Reopened::Kept(rows) => {
                self.hold(rows);
                self.mended = self.mended.saturating_add(1);
                Ok(())
            }
            Reopened::Undone(rows) => {
                self.hold(rows);
                Err(Or::Why(trouble))
            }
            Reopened::Lost => {
                self.lost = Some(trouble);
                Err(Or::Why(trouble))
            }
        }
    }

    /// What a call answers that was refused for this: a trouble is counted and kept, and out of memory
    /// is none.
    fn refused<T>(&mut self, why: Or<Trouble>) -> Result<T, Or<KeeperFailed>>
        ensures err { IsErr result }
        ensures kept { self.new ≡ after_refusal why self.old }
        ensures open { self.new.is_open ≡ self.old.is_open }
        ensures lost { self.new.lost ≡ self.old.lost }
        ensures mended { self.new.mended ≡ self.old.mended }
        ensures failures { CountsFailure self.old.failures self.new.failures result }
        ensures says { SaysWhy self.old self.new result }
        ensures trouble { why ≢ Or.NoMemory → has_failed result ≡ true }
    {
        match why {
            Or::NoMemory => Err(Or::NoMemory),
            Or::Why(trouble) => {
                self.failures = self.failures.saturating_add(1);
                self.trouble = Some(trouble);
                Err(Or::Why(KeeperFailed))
            }
        }
    }
}

impl Keeper for SqliteKeeper {
    ghost store = { λ k. record { contents = None; calls = k.calls; failures = k.failures } };

    fn load(&mut self) -> Result<Seq<Entry>, Or<KeeperFailed>>
        ensures ordered { IfOk result IsOrderedEntries }
        ensures counted { self.new
            ≡ record self.old {
              is_open = self.new.is_open;
              calls = called 1 self.old.calls;
              failures = self.new.failures;
              trouble = self.new.trouble;
              lost = self.new.lost;
            } }
        ensures failures { CountsFailure self.old.failures self.new.failures result }
        ensures says { SaysWhy self.old self.new result }
        ensures opens { OnOk result ((self.new.is_open ≡ true) × (self.new.lost ≡ None)) }
        ensures stays { self.old.is_open ≡ true → self.new.is_open ≡ true }
    {
        self.calls = self.calls.saturating_add(1);
        match self.entries() {
            Ok(found) => Ok(found),
            Err(why) => self.refused(why),
        }
    }

    /// Before a load that reached the file it fails, and so it does once the file is lost. The file stays open, or it
    /// is lost in this call, which fails then.
    fn commit(&mut self, changes: &Seq<EntryChange>) -> Result<(), Or<KeeperFailed>>
        ensures counted { self.new
            ≡ record self.old {
              is_open = self.new.is_open;
              calls = called 1 self.old.calls;
              failures = self.new.failures;
              trouble = self.new.trouble;
              lost = self.new.lost;
              mended = self.new.mended;
            } }
        ensures failures { CountsFailure self.old.failures self.new.failures result }
        ensures says { SaysWhy self.old self.new result }
        ensures early { self.old.is_open ≡ false
            → (has_failed result ≡ true) × (self.new.trouble ≡ Some (why_closed self.old)) }
        ensures still { self.old.is_open ≡ false → self.new.lost ≡ self.old.lost }
        ensures closed { self.new.is_open ≡ false → IsErr result }
        ensures mended { IsErr result → self.new.mended ≡ self.old.mended }
        ensures stays { self.new.is_open ≡ true → self.new.lost ≡ self.old.lost }
        ensures lost { self.old.is_open ≡ true → self.new.is_open ≡ false → is_some self.new.lost ≡ true }
    {
        self.calls = self.calls.saturating_add(1);
        match self.change(changes) {
            Ok(()) => Ok(()),
            Err(why) => self.refused(why),
        }
    }

    fn faults(&self) -> u64 {
        self.failures
    }
}
