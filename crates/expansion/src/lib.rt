//! The settings and devices of an instance, made of its profiles in the order in which it names them and then
//! its own. Everything that speaks of what an instance has reads it here.
#![tactic(auto)]

mod expanded;
mod laws;

pub use expanded::Expanded;
pub use laws::{layers_are_searched_backwards, none_stands_for_no_device};
