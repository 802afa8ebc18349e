//! Tests of parts of the server by their public calls: readers of values, operations, shares, kept
//! entries, and the hub of events.
#![tactic(auto)]

#[cfg(test)]
mod given;
#[cfg(test)]
mod keepers;
pub mod laws;
#[cfg(test)]
mod listening;
#[cfg(test)]
mod lists;
#[cfg(test)]
mod readers;
#[cfg(test)]
mod shares;
#[cfg(test)]
mod slots;
#[cfg(test)]
mod streams;
#[cfg(test)]
mod values;
