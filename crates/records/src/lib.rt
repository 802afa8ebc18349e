//! The objects of the server as plain data: the rows that are kept, the commands that ask for changes of them,
//! the rules and refusals, the replies, and the notices of events. Every crate of the core, of the routes and of
//! the store speaks of them.
#![tactic(auto)]

mod any_row;
mod commands;
mod notices;
mod refusals;
mod replies;
mod rows;
mod texts;

pub use any_row::AnyRow;
pub use commands::{Body, Command, Origin, Target, What};
pub use config_lists::{Changes, Config, Device, Devices};
pub use notices::{EventBody, Filter, Life, Notice, Untold};
pub use operations::{OpFault, Status};
pub use refusals::{Details, Refusal, Rule};
pub use replies::{LimitKeyName, OpView, Reply, UsageLine, View};
pub use rows::{Driver, Instance, Network, Pool, Profile, Project, Row, Snapshot, Volume};
