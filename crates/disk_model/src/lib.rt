//! What a disk does to bytes that are written to it and what a crash may leave of them: the trait of a disk, and a disk
//! in memory that records its writes, whose listed calls fail, and which can be seen as a crash may leave it.
#![tactic(auto)]

mod disk;
mod memory;

pub use disk::{Disk, DiskFailed};
pub use memory::{MemoryDisk, Write};
