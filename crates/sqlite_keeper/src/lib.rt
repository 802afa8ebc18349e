//! A keeper whose entries are rows of an SQLite file: its tables and version, why a file is refused, and
//! all changes of a commit in one transaction.
#![tactic(auto)]

mod changes;
mod content;
mod entries;
mod keeper;
mod order;
mod rows_file;
mod standing;
mod trouble;

pub use changes::change_all;
pub use content::{admit, answers, say_version};
pub use entries::entries_in;
pub use keeper::SqliteKeeper;
pub use standing::all_stand;
pub use trouble::{Trouble, trouble_of};
