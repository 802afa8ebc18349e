//! When snapshots are due and when they expire, by civil dates in UTC.
#![tactic(auto)]

mod days;
mod expiry;
mod minutes;

pub use expiry::expires_at;
pub use minutes::matches;
