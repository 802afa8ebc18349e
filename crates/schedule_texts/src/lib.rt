//! The texts of `snapshots.schedule`: their reader, and what they mean. Dates stand here in plain
//! arithmetic alone, so that rules can speak of schedules without a calendar.
#![tactic(auto)]

mod aliases;
mod cuts;
mod fields;
mod laws;
mod minute;
mod numbers;
mod part;
mod schedule;

pub use aliases::AliasSet;
pub use fields::FieldSets;
pub use laws::{dates_by_example, days_have_dates, fields_have_the_numbers_of_their_parts};
pub use minute::CivilMinute;
pub use numbers::NumberSet;
pub use schedule::{Schedule, read_schedule};
