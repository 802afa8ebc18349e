//! The bodies of requests to the REST API: JSON objects (RFC 8259) whose fields are judged in order, each by its form,
//! and what they say of an object.
#![tactic(auto)]

mod actions;
mod bodies;
mod copies;
mod drivers;
mod fields;
mod given;
mod instances;
mod keys;
mod laws;
mod members;
mod origins;
mod profiles;
mod sent;
mod settings;
mod without;

pub use actions::action_at;
pub use bodies::body_of;
pub use fields::{Field, Shape, judge_fields};
pub use instances::restore_at;
pub use laws::names_first_bad;
pub use members::{name_at, object_in};
pub use origins::asks_for_copy;
pub use sent::SentBody;
pub use without::{with_own_snapshot, without_empty, without_start, without_untyped_source};
