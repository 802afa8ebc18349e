//! Tests of schedules of snapshots and of what expires: which texts are read, when they are due, and when an expiry
//! ends. There is nothing else here.
#![tactic(auto)]

#[cfg(test)]
mod chance;
#[cfg(test)]
mod expiries;
#[cfg(test)]
mod minutes;
#[cfg(test)]
mod texts;
