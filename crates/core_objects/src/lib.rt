//! One command on the objects of the server, from its first rule to its reply: a read is answered, and a change of rows
//! is judged, committed and made.
#![tactic(auto)]

mod commands;
mod objects;

pub use commands::is_object_command;
pub use core_rows::{Estate, OpenFault, Shown, Turned, Waiting, load_rows, refused_reply};
pub use objects::{answer_read, change_at_once, do_object, first_broken};
