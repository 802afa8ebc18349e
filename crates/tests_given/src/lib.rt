//! What tests of several crates need: rows that are lent to a view, and sums made anew.
#![tactic(auto)]

mod rows;
mod sums;

pub use rows::{Rows, both, config, device, in_order, texts};
pub use sums::{Sums, claim_sum_on, claim_sums, project_named, sum_on, sums_of};
