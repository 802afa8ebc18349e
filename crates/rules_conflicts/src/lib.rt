//! Rules on what stands in the way of a command, B1 to B6: busy instances, statuses, protected objects, users, projects
//! that are not empty, and held profiles.
#![tactic(auto)]

mod asked;
mod busy;
mod features;
mod holders;
mod occupied;
mod powers;
mod protected;
mod standing;
mod used;
mod users;
mod uses;

pub use standing::standing_broken;
