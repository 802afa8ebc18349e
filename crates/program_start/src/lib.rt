//! What the programs begin with: the keeper of their rows, and what standard error tells of a server that is not begun.
#![tactic(auto)]

mod closing;
mod file_messages;
mod journal_file;
mod journal_trouble;
mod questions;
mod rows_keeper;
mod start_messages;
mod words;

pub use closing::{close_rows, end_rows};
pub use file_messages::tell_why;
pub use journal_file::JournalFile;
pub use journal_trouble::JournalTrouble;
pub use questions::{Question, answer};
pub use rows_keeper::RowsKeeper;
pub use start_faults::StartFault;
pub use start_messages::{tell, tell_fault, tell_line};
pub use words::{fault_of, words_of};
