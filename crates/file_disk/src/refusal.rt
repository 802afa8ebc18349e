use thiserror::Error;

/// Why a file is not opened as a journal, or is not made.
#[derive(Clone, Copy, Debug, PartialEq, Eq, Error)]
pub enum FileRefused {
    #[error("there is no such file, or it is empty")]
    Missing,
    #[error("the file is not a journal")]
    NotAJournal,
    #[error("the journal is in use")]
    InUse,
    #[error("the journal is of a newer version")]
    NewerVersion,
    #[error("the journal can't be made: another file has its name with .new behind it")]
    NewNameTaken,
    #[error("the file could not be opened, read or written")]
    Failed,
}
