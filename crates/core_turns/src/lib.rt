//! The daemon: rows, operations and the last notices as one value, which takes one event after the
//! other, each one step of the machine; with the laws on what a step tells.
#![tactic(auto)]

mod asking;
mod daemon;
mod hearing;
mod laws;
mod notice_laws;
mod promise;
mod working;

pub use core_instances::{OpenFault, do_object, refused_reply};
pub use daemon::Daemon;
pub use laws::server_is_told;
pub use notice_laws::{operations_stay_short, steps_tell_after};
pub use promise::no_project_is_above_its_limits;
