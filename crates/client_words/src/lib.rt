//! The words of the command line of `incusctl`, the client.
#![tactic(auto)]

mod help;
mod laws;
mod program;
mod values;
mod words;

pub use help::client_help;
pub use laws::client_examples;
pub use words::{Asks, ClientWords, Door, Format, read_words};
