//! A run of the client: requests are sent, the replies to them are read, and what they tell is printed.
#![tactic(auto)]

mod course;
mod inbox;
mod laws;
mod receive;
mod run;
mod talk;

pub use course::Course;
pub use laws::{commands_end_so, good_runs_end_well, prints_are_read, statuses_tell};
pub use run::client_run;
