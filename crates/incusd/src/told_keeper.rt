//! A keeper of rows, of whose failures standard error is told.
ghost use Rattle.std.specs.Prelude.{◌≡◌};

use crate::alarm::Alarm;
use crate::telling::PROGRAM;
use program_start::{RowsKeeper, close_rows, tell_line};
use record_keeper::{Keeper, KeeperFailed};
use size_values::{Entry, EntryChange, NoMemory, Or, Seq};
use std::alloc::Global;
use std::fmt::Display;

/// A keeper of rows. Standard error is told when its commits begin to fail, with the cause, when they are made again, and
/// when a failure of the disk was made good. Once the rows are lost, it raises the alarm. It closes its file where it ends
/// with the server.
pub(crate) struct ToldKeeper {
    rt: HostRuntime,
    keeper: RowsKeeper,
    is_failing: bool,
    mended: u64,
    alarm: Alarm,
}

impl Drop for ToldKeeper {
    fn drop(self) {
        let ToldKeeper {
            rt,
            mut keeper,
            is_failing: _,
            mended: _,
            alarm: _,
        } = self;
        close_rows(rt, PROGRAM, &mut keeper);
    }
}

impl ToldKeeper {
    /// This keeper, told of, and with an alarm for the loss of its rows.
    pub(crate) fn over(rt: HostRuntime, keeper: RowsKeeper, alarm: Alarm) -> ToldKeeper
        ensures { result.keeper ≡ keeper }
    {
        let mended = keeper.mended();
        ToldKeeper {
            rt,
            keeper,
            is_failing: false,
            mended,
            alarm,
        }
    }

    /// The keeper that was told of, which is not closed.
    pub(crate) fn into_keeper(self) -> RowsKeeper
        ensures { result ≡ self.keeper }
    {
        let ToldKeeper {
            rt: _,
            keeper,
            is_failing: _,
            mended: _,
            alarm: _,
        } = self;
        keeper
    }

    /// What is told where commits begin to fail, or are made again.
    fn tell_of(&self, is_failing: bool) {
        if is_failing {
            tell_line(self.rt, failure_line(self.rt.alloc(), &self.keeper));
        } else {
            tell_line(self.rt, recovery_line(self.rt.alloc()));
        }
    }

    /// Notes whether a commit shows that changes can be kept, and tells where that is new.
    fn note(&mut self, done: &Result<(), Or<KeeperFailed>>)
        ensures { self.new.keeper ≡ self.old.keeper }
    {
        if let Some(is_failing) = failing_after(done) {
            if is_failing != self.is_failing {
                self.is_failing = is_failing;
                self.tell_of(is_failing);
            }
        }
    }

    /// Notes what became of the file of the rows: a failure of the disk was made good, or the rows are lost.
    fn note_file(&mut self)
        ensures { self.new.keeper ≡ self.old.keeper }
    {
        let mended = self.keeper.mended();
        if mended != self.mended {
            self.mended = mended;
            tell_line(self.rt, mended_line(self.rt.alloc()));
        }
        if self.keeper.is_lost() && !self.alarm.is_raised() {
            self.alarm.raise();
            tell_line(self.rt, lost_line(self.rt.alloc()));
        }
    }
}

/// The line that says that a failure of the disk was made good.
fn mended_line(alloc: Global) -> Result<String, NoMemory> {
    Ok(format!(in alloc;
        "{PROGRAM}: the disk failed at a change, which was found kept once the file was opened again\n"
    )?)
}

/// The line that says why the server ends.
fn lost_line(alloc: Global) -> Result<String, NoMemory> {
    Ok(format!(in alloc;
        "{PROGRAM}: the file can't be opened again after that, so the server ends; the last change may be in it\n"
    )?)
}

/// The line that says why changes are refused.
fn failure_line(alloc: Global, keeper: &RowsKeeper) -> Result<String, NoMemory> {
    match keeper {
        RowsKeeper::File(file) => refusal_line(alloc, file.path(), file.trouble()),
        RowsKeeper::Journal(file) => refusal_line(alloc, file.path(), file.trouble()),
        RowsKeeper::Memory(_) => plain_line(alloc),
    }
}

/// The same of a file.
fn refusal_line<T: Display + Drop>(
    alloc: Global,
    path: &str,
    trouble: Option<T>,
) -> Result<String, NoMemory> {
    match trouble {
        Some(trouble) => {
            Ok(format!(in alloc; "{PROGRAM}: {path}: changes are refused: {trouble}\n")?)
        }
        None => plain_line(alloc),
    }
}

fn plain_line(alloc: Global) -> Result<String, NoMemory> {
    Ok(format!(in alloc; "{PROGRAM}: changes are refused, since they can't be kept\n")?)
}

/// The line that says that changes are kept again.
fn recovery_line(alloc: Global) -> Result<String, NoMemory> {
    Ok(format!(in alloc; "{PROGRAM}: changes are kept again\n")?)
}

/// Whether a commit shows that changes can be kept, where it does.
fn failing_after(done: &Result<(), Or<KeeperFailed>>) -> Option<bool> {
    match done {
        Ok(()) => Some(false),
        Err(Or::Why(_)) => Some(true),
        Err(Or::NoMemory) => None,
    }
}

impl Keeper for ToldKeeper {
    ghost use Rattle.program_start.specs.RowsKeepers.{store_of};

    ghost store = { λ k. store_of k.keeper };

    fn load(&mut self) -> Result<Seq<Entry>, Or<KeeperFailed>> {
        self.keeper.load()
    }

    fn commit(&mut self, changes: &Seq<EntryChange>) -> Result<(), Or<KeeperFailed>> {
        let done = self.keeper.commit(changes);
        self.note(&done);
        self.note_file();
        done
    }

    fn faults(&self) -> u64 {
        self.keeper.faults()
    }
}
