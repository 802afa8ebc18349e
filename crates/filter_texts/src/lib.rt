//! The filters of lists, as `filter` in the query of a list has them: their reader, and what they mean.
#![tactic(auto)]

mod choice;
mod laws;
mod reader;
mod reading;
mod token;

pub use choice::{Choice, ChoiceFault, Comparison, Step, Test};
pub use laws::{
    a_text_spells_its_tokens, each_filter_is_read, faults_stand_where_a_text_leaves_all_filters,
    filters_by_example, steps_choose_as_their_filter, tokens_are_of_one_filter,
    what_is_read_is_a_filter,
};
pub use reading::read_choice;
