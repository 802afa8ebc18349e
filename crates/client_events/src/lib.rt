//! The events of a server: the handshake that asks for them, the head that accepts it, the frames in which they come
//! (RFC 6455), and the lines that are printed of them.
#![tactic(auto)]

mod answers;
mod columns;
mod frames;
mod greeting;
mod heads;
mod members;
mod opening;

pub use columns::EventForm;
pub use frames::{Heard, next_heard};
pub use greeting::Greeting;
pub use heads::read_greeting;
pub use opening::handshake_for;
