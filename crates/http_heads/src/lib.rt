//! Requests as texts: where the head of an HTTP/1 request ends, what it says of its body, and which messages a
//! whole text has. The readers take slices, and nothing here reads from outside.
#![tactic(auto)]

mod fields;
mod head;
mod laws;
mod request;
mod search;
mod upgrade;

pub use head::{Head, HeaderSpans, SpareTexts, expects_leave, read_head};
pub use laws::{later_bytes, one_ending, one_next_message, one_reading, some_reading};
pub use request::{
    HeadFault, MAX_BODY, MAX_FIELDS, MAX_HEAD, Request, limits_are_those_of_the_definitions,
};
pub use search::{Search, end_of_head, leading_line_bytes};
