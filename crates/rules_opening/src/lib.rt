//! What kept entries open to: the rows that they spell, and the first rule that the rows break, with the row.
#![tactic(auto)]

mod breach;
mod counting;
mod entries;
mod places;
mod policies;
mod references;
mod rules;
mod settings;
mod whole;

pub use breach::Breach;
pub use entries::rows_in;
pub use whole::rows_break;
