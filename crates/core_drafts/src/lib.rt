//! The rows of the server as plain lists in the order of their names: lent to be read, changed without taking memory,
//! and taken back to what they were before the changes.
#![tactic(auto)]

mod background;
mod calls;
mod draft;
mod edits;
mod filling;
mod keys;
mod lists;
mod placed;

pub use calls::Handing;
pub use draft::Draft;
