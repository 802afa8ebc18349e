//! Rows of all kinds as entries, and entries as rows: the bytes of their fields, of each kind of row,
//! and how many bytes the body of a row has.
#![tactic(auto)]

mod body_rows;
mod damage;
mod field_writing;
mod keys;
mod laws;
mod lists;
mod parts;
mod reading;
mod size_laws;
mod sizes;
mod tags;
mod unreadable;
mod writing;

pub use damage::Damaged;
pub use field_writing::{
    boolean_byte, driver_byte, kind_byte, put_devices, put_number, put_settings, put_text,
    put_texts,
};
pub use laws::{each_row_is_spelled, no_spelling_goes_on, one_spelling, spelled_or_damaged};
pub use lists::{devices_at, settings_at, shape_at};
pub use parts::{Shape, boolean_at, driver_at, kind_at, moment_at, stops_at, str_at};
pub use reading::decode;
pub use size_laws::{capped_large, capped_small, small_rows_are_short};
pub use sizes::{
    instance_size, network_size, pool_size, profile_size, project_size, row_size, snapshot_size,
    volume_size,
};
pub use tags::tag_of;
pub use unreadable::Unreadable;
pub use writing::{encode, key_of, kind_of};
