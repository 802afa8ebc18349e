//! What reads answer: rows, what a project uses, operations.
#![tactic(auto)]

mod listed;
mod operation_ref;
mod operations_shown;
mod reading;
mod row_views;
mod usage;

pub use operations_shown::{operation_reply, operations_reply};
pub use reading::read;
