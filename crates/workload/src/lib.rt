//! Input of any size for the programs, made from a number, and the summary of what they answered.
#![tactic(auto)]

mod replies;
mod stream;
mod summary;

pub use stream::make_stream;
pub use summary::summary_of;
