//! The replies of the REST API as its client reads them: which bytes are a reply, and what it tells.
#![tactic(auto)]

mod answer;
mod fields;
mod floats;
mod forms;
mod head;
mod laws;
mod metadata;
mod reading;

pub use answer::Answer;
pub use forms::is_id;
pub use laws::{
    bytes_behind_replies, one_list_of_replies, one_reading_of_replies, parts_of_replies,
};
pub use metadata::Metadata;
pub use reading::{Reading, read_reply};
