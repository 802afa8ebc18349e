//! What the keeper has opens again to the rows that stand: the law of what is kept, of every view of rows and of every
//! server. That the texts of rows are UTF-8, and that settings and devices rise by their keys, holds by their types.
#![tactic(auto)]

mod opening;
mod parts;
mod rows;
mod server;

pub use opening::view_opens_again;
pub use server::daemon_opens_again;
