//! The ledger of shares: what live operations hold of the limits of their projects, and the books of what was
//! granted to operations, converted into objects, and returned.
#![tactic(auto)]

mod books;
mod ledger;

pub use books::{Books, Hold};
pub use ledger::Ledger;
