//! The state table of instances, the plan of host calls of each deed, and the numbers in the names of snapshots.
#![tactic(auto)]

mod numbers;
mod plan;
mod states;

pub use numbers::SnapshotNumbers;
pub use plan::{CallName, Plan, may_cancel, plan_of};
pub use states::{WrongState, after, is_allowed};
