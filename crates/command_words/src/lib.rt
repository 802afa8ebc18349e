//! The words of the command lines of `incus_run` and `incusd`.
#![tactic(auto)]

mod commands;
mod help;
mod numbers;
mod reading;
mod rows_path;
mod run_laws;
mod run_program;
mod run_setup;
mod run_values;
mod run_words;
mod serve_laws;
mod serve_program;
mod serve_setup;
mod serve_values;
mod serve_words;

pub use commands::{with_command, with_flag, with_option, with_positional};
pub use help::{run_help, serve_help};
pub use numbers::number_said;
pub use reading::{is_flagged, parse_words, value_of};
pub use rest_json::Dialect;
pub use rows_path::RowsPath;
pub use run_laws::run_examples;
pub use run_setup::{Setup, setup_of};
pub use run_words::{CommandWords, Pace, RunWords, read_words};
pub use serve_laws::serve_examples;
pub use serve_setup::{ServeSetup, serve_setup_of};
pub use serve_words::{ServeWords, read_serve_words};
