//! One command on instances, their snapshots, copies and operations, from its first rule to its reply:
//! a read is answered, an operation is cancelled, a change of an instance's row at once is judged,
//! committed and made, and all else begins in the background.
#![tactic(auto)]

mod beginning;
mod instances;
mod ways;

pub use core_objects::{
    Estate, OpenFault, Shown, Turned, Waiting, do_object, is_object_command, load_rows,
    refused_reply,
};
pub use instances::do_instance;
