//! What the client does, step by step: the requests of each command, what follows on each reply, and what is printed.
#![tactic(auto)]

mod cells;
mod laws;
mod legs;
mod lines;
mod members;
mod requests;
mod rows;
mod steps;

pub use laws::{commands_run, ends_once, ends_well, is_answered_first, knows_no_future};
pub use steps::{Next, first_request, next_step};
