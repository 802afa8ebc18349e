//! Rules on the number of operations, O1 to O5, and on the size of tables and rows, C1 and C2.
#![tactic(auto)]

mod entering;
mod tables;

pub use entering::{cancel_broken, enter_fault, entry_broken, refuse_entry};
pub use tables::{claim_tables_broken, tables_broken};
