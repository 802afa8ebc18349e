//! The URLs of objects, the keys of their rows, and what notices tell of objects and of operations.
#![tactic(auto)]

mod keys;
mod notices;
mod targets;
mod urls;

pub use keys::{three_names, two_names};
pub use notices::{life_notice, view_of};
pub use targets::{snapshot_target, target_named, target_of, volume_target};
pub use urls::url_of;
