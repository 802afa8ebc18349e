//! What the worker's calls make of the rows: the first call of an operation is handed out, and the report of a call
//! hands out the next one or ends the operation. And the notices that wait to be taken meanwhile.
#![tactic(auto)]

mod ends;
mod entries;
mod jobs;
mod reported;
mod success;
mod turns;
mod waiting;

pub use ends::cancel;
pub use entries::{default_profile, entry_changes};
pub use jobs::{Turned, begin, first_pending, is_pending, queue_event};
pub use reported::take_report;
pub use turns::live_at;
pub use waiting::{Shown, Waiting, told_by};
