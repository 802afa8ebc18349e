//! Tests of the client by its public calls.
#![tactic(auto)]

#[cfg(test)]
mod replies;
#[cfg(test)]
mod runs;
#[cfg(test)]
mod steps;
#[cfg(test)]
mod words;
