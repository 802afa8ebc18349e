ghost use Rattle.std.specs.Prelude.{◌≡◌, ◌↔◌, true};
ghost use Rattle.size_values.specs.declared.memory.Or.TheVariants.{NoMemory as no_memory};
ghost use Rattle.sqlite_keeper.specs.Troubles.{is_failure, is_refusal};

use crate::content::VERSION;
use size_values::Or;
use sqlite::{Error, ErrorCode};
use std::fmt;

/// Why a call of the keeper failed, told to a person. Nothing that a run does depends on it.
#[derive(Clone, Copy, PartialEq, Eq)]
pub enum Trouble {
    CannotOpen,
    /// There is no file, or nothing in it, and none was to be made.
    Missing,
    InUse,
    NotADatabase,
    /// A database whose pages SQLite moves to keep the file short (`auto_vacuum`), which the library doesn't read.
    AutoVacuum,
    /// A whole database, with other tables than those of this program.
    OtherTables,
    /// The version that the file says it has.
    NewerVersion(u32),
    /// A row of the table is no entry, or does not stand above the one before it.
    NotAnEntry,
    /// Changes came before a load that reached the file.
    NotLoaded,
    DiskFull,
    Failed,
}

impl Trouble {
    /// What a person is told, but for the number of a newer version.
    fn sentence(&self) -> &'static str {
        match self {
            Trouble::CannotOpen => "the file cannot be opened for reading and writing, or made",
            Trouble::Missing => "there is no such file, or it is empty",
            Trouble::InUse => "another program has the file open",
            Trouble::NotADatabase => "the file is not a whole SQLite database",
            Trouble::AutoVacuum => {
                "the file has auto_vacuum, which this program doesn't read: \
                 PRAGMA auto_vacuum = 0; VACUUM by sqlite3 takes it off"
            }
            Trouble::OtherTables => "the file is a database of another program",
            Trouble::NewerVersion(_) => "the file was made by a newer version of this program",
            Trouble::NotAnEntry => "a row of the table records is not one that this program writes",
            Trouble::NotLoaded => "rows were to be written before they were read",
            Trouble::DiskFull => "the disk is full",
            Trouble::Failed => "the file could not be read or written",
        }
    }
}

impl fmt::Display for Trouble {
    fn fmt<W: fmt::Write>(&self, f: &mut fmt::Formatter<W>) -> fmt::Result {
        f.write_str(self.sentence())?;
        match self {
            Trouble::NewerVersion(version) => {
                write!(f, " (format {version}, this one reads {VERSION})")
            }
            _ => Ok(()),
        }
    }
}

/// What an error of the database is: out of memory, or the trouble.
pub fn trouble_of(error: Error) -> Or<Trouble>
    ensures memory { (result ≡ no_memory) ↔ (error ≡ Error.SqliteFailure ErrorCode.OutOfMemory) }
    ensures refusal { is_refusal result ≡ true }
    ensures failure { is_failure result ≡ true }
{
    match error {
        Error::SqliteFailure(ErrorCode::OutOfMemory) => Or::NoMemory,
        Error::SqliteFailure(ErrorCode::CannotOpen) => Or::Why(Trouble::CannotOpen),
        Error::SqliteFailure(ErrorCode::DatabaseBusy) => Or::Why(Trouble::InUse),
        Error::SqliteFailure(ErrorCode::NotADatabase | ErrorCode::DatabaseCorrupt) => {
            Or::Why(Trouble::NotADatabase)
        }
        Error::SqliteFailure(ErrorCode::DiskFull) => Or::Why(Trouble::DiskFull),
        Error::InvalidColumnType(..) | Error::IntegralValueOutOfRange(_) | Error::Utf8Error(_) => {
            Or::Why(Trouble::NotAnEntry)
        }
        _ => Or::Why(Trouble::Failed),
    }
}
