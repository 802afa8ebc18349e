//! Gates to a server: one that owns its server, and one over the lock that many share; what was done at a
//! gate, and which answers its events can have.
#![tactic(auto)]

mod alone;
mod bells;
mod gate;
mod laws;
mod locked;
mod machine;
mod times;

pub use alone::AloneGate;
pub use gate::Gate;
pub use laws::{
    bells_miss_nothing, calls_are_answered, events_are_answered, looks_are_answered,
    reports_are_answered,
};
pub use locked::{LONGEST_IDLE, LockedGate};
pub use machine::DaemonMachine;
pub use rest_answers::{
    ReplyOrWait, Written, answer_for, reply_of, reply_or_wait_of, write_answer, write_refusal,
};
pub use serial_steps::{Daemon, refused_reply};
pub use turnstile::Bell;
