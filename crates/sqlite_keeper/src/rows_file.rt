//! The database file that keeps the rows.
ghost use Rattle.std.specs.Prelude.{◌≡◌, true, false, IsTrue, IfOk, IfErr, IfSome, OnOk, OnErr};
ghost use Rattle.record_keeper.specs.Entries.{IsOrderedEntries};
ghost use Rattle.sqlite.specs.Effect.{Database as Whole};
ghost use Rattle.sqlite.specs.Files.{file_state, over_files};
ghost use Rattle.sqlite.specs.State.{HasCleanDisk, Survives};
ghost use Rattle.sqlite_keeper.specs.Guarded.{StaysGuarded};
ghost use Rattle.sqlite_keeper.specs.Troubles.{is_failure, is_refusal};
ghost use Rattle.sqlite_keeper.specs.Changes.{Leaves};
ghost use Rattle.sqlite_keeper.specs.Entries.{AreKept};

use crate::changes::change_all;
use crate::content::{admit, answers, say_version};
use crate::entries::entries_in;
use crate::standing::all_stand;
use crate::trouble::{Trouble, trouble_of};
use size_values::{Entry, EntryChange, Or, Seq, Text};
use sqlite::{Connection, File, FileStore};
use std::alloc::Global;
use std::io::{ErrorKind, Read};
use std::os::unix::fs::MetadataExt;
use std::{fs, io};

/// The bytes with which each database begins.
const MAGIC: &[u8; 16] = b"SQLite format 3\0";

/// Where the header of a database has four bytes that are not all 0 where SQLite moves its pages (`auto_vacuum`).
const LARGEST_ROOT: usize = 52;

type Database = Connection<FileStore<File>>;

/// A file that has the tables of this program and nothing else. One that has the table `records` alone lacks its
/// version.
#[derive(Drop)]
pub(crate) struct RowsFile {
    database: Database,
    lacks_version: bool,
    identity: Option<Identity>,
}

/// By what one file of the system is told from any other.
#[derive(Clone, Copy, PartialEq, Eq)]
pub(crate) struct Identity {
    device: u64,
    inode: u64,
}

/// What became of changes at which a file closed itself.
#[derive(Drop)]
pub(crate) enum Reopened {
    /// They stand.
    Kept(RowsFile),
    /// They don't.
    Undone(RowsFile),
    /// The file can't be opened, is another one, or doesn't tell.
    Lost,
}

impl RowsFile {
    /// Opens the file. One that is missing, is empty or has no tables is made, or refused. Where it is anything else than a
    /// file of this program, it is not written to.
    pub(crate) fn open(
        rt: &HostRuntime,
        path: &Text,
        is_made: bool,
    ) -> Result<RowsFile, Or<Trouble>>
        ensures settled { IfOk result (λ file. file.database.in_transaction ≡ false) }
        ensures cause { IfErr result (λ why. is_refusal why ≡ true) }
    {
        if let Some(trouble) = trouble_before(rt, path.view(), is_made) {
            return Err(Or::Why(trouble));
        }
        match Connection::open(rt, path.view()) {
            Ok(database) => RowsFile::admitted(database, identity_of(rt, path.view()), is_made),
            Err(error) => Err(trouble_of(error)),
        }
    }

    /// Opens the file of this identity again, after it closed itself at a failure of the disk while these changes were
    /// made.
    pub(crate) fn reopen(
        rt: &HostRuntime,
        path: &Text,
        identity: Option<Identity>,
        changes: &[EntryChange],
    ) -> Reopened {
        match RowsFile::open(rt, path, false) {
            Ok(file) => file.recognized(identity, changes),
            Err(_) => Reopened::Lost,
        }
    }

    /// By what this file is told from others, if that is known.
    pub(crate) fn identity(&self) -> Option<Identity> {
        self.identity
    }

    /// Whether these changes stand in the file, where it is the one of this identity.
    fn recognized(self, identity: Option<Identity>, changes: &[EntryChange]) -> Reopened {
        if is_same(self.identity, identity) {
            self.judged(changes)
        } else {
            drop(self);
            Reopened::Lost
        }
    }

    /// Whether these changes stand in the file.
    fn judged(mut self, changes: &[EntryChange]) -> Reopened {
        match all_stand(&mut self.database, changes) {
            Ok(true) => Reopened::Kept(self),
            Ok(false) => Reopened::Undone(self),
            Err(_) => {
                drop(self);
                Reopened::Lost
            }
        }
    }

    /// Whether the file is open still: a failure of the disk may close it.
    pub(crate) fn is_open(&mut self) -> bool {
        answers(&mut self.database)
    }

    /// Copies what the log has into the file, and lets go of both.
    pub(crate) fn close(self) -> Result<(), Or<Trouble>>
        ensures { IfErr result (λ why. is_failure why ≡ true) }
    {
        match self.database.close() {
            Ok(()) => Ok(()),
            Err(error) => Err(trouble_of(error)),
        }
    }

    fn admitted(
        mut database: Database,
        identity: Option<Identity>,
        is_made: bool,
    ) -> Result<RowsFile, Or<Trouble>>
        requires { database.in_transaction ≡ false }
        ensures settled { IfOk result (λ file. file.database.in_transaction ≡ false) }
        ensures cause { IfErr result (λ why. is_refusal why ≡ true) }
    {
        match admit(&mut database, is_made) {
            Ok(lacks_version) => Ok(RowsFile {
                database,
                lacks_version,
                identity,
            }),
            Err(why) => {
                drop(database);
                Err(why)
            }
        }
    }

    /// All entries.
    pub(crate) fn entries(&mut self, alloc: Global) -> Result<Seq<Entry>, Or<Trouble>>
        ensures guarded { StaysGuarded over_files self.old.database self.new.database }
        ensures ordered { IfOk result IsOrderedEntries }
        ensures kept { HasCleanDisk (file_state self.new.database)
            → IfOk result (AreKept over_files self.old.database self.new.database) }
        ensures cause { IfErr result (λ why. is_failure why ≡ true) }
    {
        entries_in(alloc, &mut self.database)
    }

    /// Gives the file its version, where it lacks it and there are changes to be made.
    fn complete(&mut self, changes: &[EntryChange]) -> Result<(), Or<Trouble>>
        ensures guarded { StaysGuarded over_files self.old.database self.new.database }
        ensures cause { IfErr result (λ why. is_failure why ≡ true) }
    {
        if !self.lacks_version || changes.is_empty() {
            return Ok(());
        }
        match say_version(&mut self.database) {
            Ok(()) => {
                self.lacks_version = false;
                Ok(())
            }
            Err(error) => Err(trouble_of(error)),
        }
    }

    /// Makes all the changes, in their order, or none of them, in a file that has its version.
    pub(crate) fn keep(&mut self, changes: &[EntryChange]) -> Result<(), Or<Trouble>>
        ensures guarded { StaysGuarded over_files self.old.database self.new.database }
        ensures cause { IfErr result (λ why. is_failure why ≡ true) }
    {
        match self.complete(changes) {
            Ok(()) => self.change(changes),
            Err(why) => Err(why),
        }
    }

    /// Makes all the changes, in their order, or none of them; also where it is cut off by a crash.
    fn change(&mut self, changes: &[EntryChange]) -> Result<(), Or<Trouble>>
        ensures guarded { StaysGuarded over_files self.old.database self.new.database }
        ensures all { HasCleanDisk (file_state self.new.database)
            → OnOk result (Leaves over_files changes.now self.old.database (file_state self.new.database).committed) }
        ensures none { HasCleanDisk (file_state self.new.database) → IsTrue (file_state self.new.database).is_open
            → OnErr result (((file_state self.new.database).now ≡ (file_state self.old.database).now)
            × ((file_state self.new.database).committed ≡ (file_state self.old.database).committed)) }
        ensures crash { Survives (file_state self.old.database) (file_state self.new.database)
            (λ trees. (whole : Whole) × Leaves over_files changes.now self.old.database whole × (trees ≡ whole.trees)) }
        ensures cause { IfErr result (λ why. is_failure why ≡ true) }
    {
        match change_all(&mut self.database, changes) {
            Ok(()) => Ok(()),
            Err(error) => Err(trouble_of(error)),
        }
    }
}

/// By what the file at a path is told from others.
fn identity_of(rt: &HostRuntime, path: &str) -> Option<Identity> {
    match fs::metadata(rt, path) {
        Ok(found) => Some(Identity {
            device: found.dev(),
            inode: found.ino(),
        }),
        Err(_) => None,
    }
}

/// Whether both are known, and are one file's.
fn is_same(first: Option<Identity>, second: Option<Identity>) -> bool {
    match (first, second) {
        (Some(first), Some(second)) => first == second,
        _ => false,
    }
}

/// The first bytes of a file, up to the end of those four. An empty file is as one that is not there.
fn head_of(rt: &HostRuntime, path: &str) -> io::Result<[u8; 56]> {
    let mut file = fs::open(rt, path)?;
    let mut head = [0u8; 56];
    if file.read(&mut head)? == 0 {
        return Err(ErrorKind::NotFound.into());
    }
    Ok(head)
}

/// Whether a file that begins so may be a database. In one that is still being made some of these bytes are 0.
fn may_be_database(head: &[u8]) -> bool {
    head.iter()
        .zip(MAGIC)
        .all(|(byte, magic)| *byte == 0 || byte == magic)
}

/// Why a file that begins so is not opened.
fn head_trouble(head: &[u8]) -> Option<Trouble>
    ensures { IfSome result (λ trouble. is_refusal (Or.Why trouble) ≡ true) }
{
    if !may_be_database(head) {
        return Some(Trouble::NotADatabase);
    }
    if head.starts_with(MAGIC) && head.iter().skip(LARGEST_ROOT).any(|byte| *byte != 0) {
        return Some(Trouble::AutoVacuum);
    }
    None
}

/// Why the file is not opened, as far as can be told before it is.
fn trouble_before(rt: &HostRuntime, path: &str, is_made: bool) -> Option<Trouble>
    ensures { IfSome result (λ trouble. is_refusal (Or.Why trouble) ≡ true) }
{
    match head_of(rt, path) {
        Ok(head) => head_trouble(&head),
        Err(error) if error.kind() == ErrorKind::NotFound && !is_made => { Some(Trouble::Missing) }
        Err(_) => None,
    }
}
