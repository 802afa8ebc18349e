//! The file of a journal as a disk: a header that names it, and behind the header the bytes of the disk. One program has
//! it at a time, and a file that is no journal is not written to.
#![tactic(auto)]

mod disk;
mod header;
mod opening;
mod refusal;

pub use disk::FileDisk;
pub use opening::{open_journal, open_standing_journal};
pub use refusal::FileRefused;
