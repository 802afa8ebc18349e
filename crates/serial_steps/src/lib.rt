//! A server on one thread, whose background operations have one worker: it makes their calls on a
//! host, one step after the other.
#![tactic(auto)]

mod laws;
mod serial;
mod worker;

pub use core_turns::{Daemon, do_object, refused_reply, server_is_told};
pub use laws::steps_come_to;
pub use serial::{MOST_STEPS, SerialDaemon};
pub use worker::{facts_hold, go_on};
