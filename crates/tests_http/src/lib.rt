//! Tests of requests, bodies, events and command lines by their public calls.
#![tactic(auto)]

#[cfg(test)]
mod answers;
#[cfg(test)]
mod bodies;
#[cfg(test)]
mod clocks;
#[cfg(test)]
mod events;
#[cfg(test)]
mod faults;
#[cfg(test)]
mod incusd_words;
#[cfg(test)]
mod leave;
#[cfg(test)]
mod origins;
#[cfg(test)]
mod preconditions;
#[cfg(test)]
mod readings;
#[cfg(test)]
mod replies;
#[cfg(test)]
mod sayings;
#[cfg(test)]
mod streams;
#[cfg(test)]
mod tables;
#[cfg(test)]
mod upgrades;
#[cfg(test)]
mod words;
