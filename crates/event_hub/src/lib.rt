//! The hub of events: the last notices of the server, numbered in their order, for those who listen
//! (<https://linuxcontainers.org/incus/docs/main/events/>). A notice that is pushed takes no memory,
//! so no step of the server waits for any on account of what it tells.
#![tactic(auto)]

mod hub;
mod laws;
mod progress;
mod short_target;
mod short_text;
mod slot;

pub use hub::Hub;
pub use laws::notices_are_the_machines;
pub use progress::{About, Progress};
