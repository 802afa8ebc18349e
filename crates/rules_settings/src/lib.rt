//! Rules on settings, V1 to V5, of the rows that a command would put, over the rows as they stand after it.
#![tactic(auto)]

mod devices;
mod instances;
mod rows;

pub use rows::{claim_settings_broken, settings_broken};
