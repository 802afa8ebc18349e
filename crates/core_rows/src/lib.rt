//! The rows of the server with the facts on them in the type: how they are opened, read, and changed by a command,
//! whose changes are made, judged, committed to a keeper, and taken back where a rule is broken or the keeper fails.
#![tactic(auto)]

mod cancels;
mod counted;
mod estate;
mod kept_rows;
mod opening;

pub use core_judging::{Shown, Turned, Waiting, default_profile, entry_changes, refused_reply};
pub use estate::Estate;
pub use opening::{OpenFault, load_rows};
