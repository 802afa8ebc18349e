//! Rules on names, N1 to N5, and on what a request expects, E1: what a command speaks of is there, and as the command
//! expects it, and the name that it gives is good and free.
#![tactic(auto)]

mod expected;
mod free;
mod missing;
mod names;
mod sources;
mod target_refs;

pub use names::names_broken;
