//! The operation that a command begins in the background: the row that it claims, and its calls on the
//! host.
#![tactic(auto)]

mod acts;
mod calls;
mod changes;
mod creation_calls;
mod creations;
mod deletions;
mod finds;
mod making;
mod pairs;
mod plain_tasks;
mod plans;
mod rows;
mod snapshots;
mod tasks;
mod volumes;

pub use creation_calls::{copy_calls, place_of, push_clear};
pub use making::copy_texts;
pub use pairs::both;
pub use plans::plan_task;
pub use tasks::instance_creation;
