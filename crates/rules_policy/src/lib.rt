//! Rules on policy, F1 to F8: what a restricted project forbids of its profiles, its instances, and those that live
//! operations would put, and whether it forbids snapshots.
#![tactic(auto)]

mod alone;
mod lowest;
mod policy;
mod restricted;
mod snapshots;

pub use alone::{claim_forbidden, profile_forbidden};
pub use policy::{policy_broken, policy_broken_in};
pub use snapshots::snapshot_blocked;
