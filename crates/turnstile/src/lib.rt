//! One machine at which several threads take turns, under one lock. Each thread turns it by a ticket of its own, which
//! counts the turns that it made; the tickets together count all of them.
#![tactic(auto)]

mod bells;
mod counted;
mod machine;
mod ticket;
mod turnstile;

pub use bells::{Bell, Rings};
pub use machine::Machine;
pub use ticket::Ticket;
pub use turnstile::Turnstile;
