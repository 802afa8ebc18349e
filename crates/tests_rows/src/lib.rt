//! Tests of rows and of what becomes of instances: records as entries and entries as records, what restricted projects
//! forbid, states and plans, the names of snapshots, and the modelled host. Cases of values are laws,
//! and each call is run once.
#![tactic(auto)]

#[cfg(test)]
mod copies;
#[cfg(test)]
mod given;
#[cfg(test)]
mod host;
pub mod laws;
#[cfg(test)]
mod policies;
#[cfg(test)]
mod spellings;
#[cfg(test)]
mod states;
