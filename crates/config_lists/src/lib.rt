//! Settings and devices as sorted lists. A `Config` maps keys to texts, a `Devices` maps names to
//! devices, and `Changes` say what a request sets and removes. Every other crate reads them through
//! their look-ups, and prints them in the order of their keys.
#![tactic(auto)]

mod changes;
mod config;
mod devices;
mod laws;
mod root;
mod sorted;

pub use changes::Changes;
pub use config::{Config, Device};
pub use devices::Devices;
pub use laws::{
    look_ups_tell_entries, setting_after_patch, setting_after_settling, value_after_put,
    value_after_removal, value_after_replacement,
};
pub use root::{Root, is_root_disk};
