//! What a restricted project forbids in the settings and devices of its instances and profiles. A table lists
//! for each restriction and word what it is against; `first_forbidden` finds the first thing that it forbids.
#![tactic(auto)]

mod forbidden;
mod policy;
mod rows;

pub use forbidden::{Forbidden, first_forbidden, snapshots_forbidden};
pub use policy::{Policy, is_restricted, policy_of};
pub use rows::{Subject, Word};
