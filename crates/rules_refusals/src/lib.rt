//! The refusals of the rules of the row machine: what each tells, and those of settings and devices against the tables
//! of options.
#![tactic(auto)]

mod refusals;
mod tables;

pub use refusals::{
    no_details, on_held, on_key_of, on_kind, on_name, on_number, on_object, on_object_of,
    on_project,
};
pub use tables::{key_at, name_at, tables_break};
