//! Why a server is not begun: its words are not read, or its rows are not opened; and the exit
//! status of a program that ends for it.
#![tactic(auto)]

mod fault;

pub use core_rows::{Estate, OpenFault, default_profile, entry_changes, load_rows, refused_reply};
pub use fault::{StartFault, opening_fault};
