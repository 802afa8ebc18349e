use file_disk::FileRefused;
use std::fmt;

/// Why a call of the keeper of a journal failed, told to a person. Nothing that a run does depends on it.
#[derive(Clone, Copy, PartialEq, Eq)]
pub enum JournalTrouble {
    Refused(FileRefused),
    /// The byte of the file at which a record begins that is open, and not whole.
    BadRecord(u64),
    /// Changes came before a load that reached the file.
    NotLoaded,
    Failed,
}

impl fmt::Display for JournalTrouble {
    fn fmt<W: fmt::Write>(&self, f: &mut fmt::Formatter<W>) -> fmt::Result {
        match self {
            JournalTrouble::Refused(why) => write!(f, "{why}"),
            JournalTrouble::BadRecord(byte) => {
                write!(f, "the record at byte {byte} of the journal is damaged")
            }
            JournalTrouble::NotLoaded => f.write_str(
                "rows were to be written before they were read",
            ),
            JournalTrouble::Failed => f.write_str("the journal could not be read or written"),
        }
    }
}
