//! A server of many threads: the jobs of its links and workers, and the top call `serve_main`.
#![tactic(auto)]

mod busy;
mod door_terms;
mod jobs;
mod server;
mod slots;

pub use door_terms::ServerLogs;
pub use jobs::{JobEnd, ServerJob};
pub use server::serve_main;
pub use slots::JobSlots;
