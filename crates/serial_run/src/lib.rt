//! One thread: requests of a source are answered on a sink, one after the other, with the steps of the
//! worker after each; the commands of `incus_run`, and its top call `run_main`.
#![tactic(auto)]

mod asking;
mod checking;
mod drilling;
mod laws;
mod making;
mod pacing;
mod report;
mod running;
mod service;
mod session;
mod session_loop;
mod telling;
mod turn;

pub use checking::check;
pub use drilling::drill;
pub use laws::after_each_call;
pub use making::make;
pub use report::check_report;
pub use running::run_main;
pub use serial_steps::do_object;
pub use service::Service;
pub use session::{MOST_REQUESTS, SessionEnd, Turn, sessions_end_after_a_million_requests};
pub use session_loop::serve;
pub use start_faults::{Estate, OpenFault, default_profile, entry_changes, load_rows};
