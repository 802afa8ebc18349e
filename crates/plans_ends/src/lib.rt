//! What the end of a background operation makes: the changes of rows and the status of its target at its success, and
//! the notices that tell of it. The rows are lent.
#![tactic(auto)]

mod changes;
mod notices;
mod power;
mod removals;
mod renames;

pub use changes::success_changes;
pub use notices::{operation_notice, success_notices};
pub use power::{breaks_instance, power_after};
