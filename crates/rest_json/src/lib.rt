//! Objects of all kinds and operations as JSON: moments, settings, devices and ids as they are printed.
#![tactic(auto)]

mod ids;
mod laws;
mod moments;
mod object;
mod operation;
mod terms;
mod text;
mod texts;
mod views;
mod words;

pub use ids::{id_text, number_of, operation_url};
pub use laws::ids_read_back;
pub use moments::moment_text;
pub use object::Object;
pub use operation::operation_value;
pub use terms::{Dialect, Terms};
pub use text::JsonText;
pub use texts::{write_operation, write_view};
pub use words::status_key;
