//! Doors, jobs on threads, and a server that starts its links and workers and joins them; a host under a
//! lock of its own.
#![tactic(auto)]

mod deadline;
mod door;
mod ends;
mod job;
mod jobs;
mod link;
mod links;
mod list;
mod locked;
mod net;
mod net_sink;
mod net_source;
mod open_doors;
mod passing;
mod places;
mod refusing;
mod replies;
mod server;
mod socket_file;
mod spawner;
mod stop;
mod stopping;
mod tally;
mod threads;
mod trouble;
mod workers;

pub use door::{Doors, DoorsFailed};
pub use job::Job;
pub use jobs::Jobs;
pub use link::{DoorKind, Link};
pub use list::ListDoors;
pub use locked::LockedHost;
pub use net::{DoorEvents, LinkTimes, NetDoors};
pub use net_sink::NetSink;
pub use net_source::NetSource;
pub use passing::pass_on;
pub use places::{DoorFault, Places};
pub use refusing::{Kept, RefusingSpawner};
pub use replies::Replies;
pub use server::serve;
pub use spawner::{Spawner, StartFailed};
pub use stop::Stop;
pub use stopping::stop_at_end;
pub use threads::{ThreadSpawner, ThreadTask, start_thread, start_thread_or_decline};
pub use trouble::{Trouble, status_of};
