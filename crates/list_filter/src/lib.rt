//! Which objects of a list a filter takes: `GET /1.0/instances?filter=..` and its like
//! (<https://linuxcontainers.org/incus/docs/main/rest-api/>, "Filtering").
#![tactic(auto)]

mod laws;
mod members;
mod operation_members;
mod settings;
mod taking;
mod texts;
mod truths;
mod urls;
mod values;
mod words;

pub use laws::{comparisons, fields_lead, filters_take_what_they_mean, urls_are_those_of_rows};
pub use taking::takes;
pub use urls::url_of_view;
pub use values::value_of;
