//! Tests of the client's side of events by its public calls.
#![tactic(auto)]

#[cfg(test)]
mod frames;
#[cfg(test)]
mod greetings;
