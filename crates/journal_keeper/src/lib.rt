//! A keeper of entries in a journal: each commit is a record behind the one before it, and counts from the moment at
//! which its gate is opened. After a crash at any moment the file has the commits that were answered Ok, and at most one
//! more.
#![tactic(auto)]

mod commits;
mod device;
mod gate;
mod history;
mod keeper;
mod laws;
mod loading;
mod records;
mod taking;
mod texts;

pub use gate::Gate;
pub use history::commit_each;
pub use keeper::JournalKeeper;
pub use laws::{a_file_has_one_chain, a_text_is_read_as_its_commit};
