//! What a precondition means (RFC 9110, section 13.1.1), as laws over the row machine: with the tag of its object a
//! request is judged as one without a precondition, with another tag it is refused and changes nothing, and the same
//! tag means the same content, unless a collision of the hash is known.
#![tactic(auto)]

mod laws;

pub use laws::{
    another_tag_is_refused, the_same_tag_expects_nothing_more, the_same_tag_is_the_same_body,
};
