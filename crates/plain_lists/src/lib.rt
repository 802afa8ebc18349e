//! Words on lists that the contracts of all other crates share, with their lemmas: membership, distinct keys,
//! an element put in or taken out, the first answer of a list of rules, and the last elements of a ring.
#![tactic(auto)]

mod laws;
mod reserved;

pub use laws::{found_after_replaced, ring_of_pushes, sum_of_put};
pub use reserved::push_reserved;
