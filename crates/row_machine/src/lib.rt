//! The row machine: what a state of the server is, which rule a command breaks first, what an accepted command
//! makes of the state, and one step of the machine for each event. Plain lists, searched and summed anew for every
//! question. Everything above is proved against it.
#![tactic(auto)]

mod changes;
mod events;
mod laws;
mod task;

pub use changes::RowChange;
pub use events::{Answer, Event, Fetched};
pub use laws::{
    a_busy_server_is_whole, a_deletion_is_of_an_instance, a_new_server_is_whole,
    a_refused_request_stays, a_success_tells_what_is_fixed_at_its_entry, an_empty_run_stays,
    an_ended_operation_stays, each_operation_ends_once, examples, examples_of_faults,
    examples_of_opening, runs_join,
};
pub use task::{Task, target_kind};
