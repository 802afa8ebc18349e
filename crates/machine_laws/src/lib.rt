//! What follows from the row machine, as laws: every step keeps all facts, what the server promises over
//! all runs, what is kept for a state, and that what is kept opens again.
#![tactic(auto)]

mod cancels;
mod kept_records;
mod kinds;
mod laws;
mod openings;
mod reopening;
mod repeats;
mod usage;
mod waits;

pub use cancels::{
    a_cancel_goes_on, a_cancel_takes_back_the_deed, a_running_operation_is_cancelled,
};
pub use kept_records::{
    commands_keep_the_records, commits_keep_the_records, records_are_ordered,
    successes_keep_the_records,
};
pub use kinds::{
    a_call_handed_out_keeps_the_facts, a_cancel_keeps_the_facts, an_end_keeps_the_facts,
    an_entry_keeps_the_facts, notices_and_closing_keep_the_facts, rows_put_at_once_keep_the_facts,
};
pub use laws::{
    a_new_server_keeps_the_facts, a_run_keeps_the_facts, step_keeps_the_facts,
    steps_keep_settings_in_order, the_headline,
};
pub use openings::{an_accepted_opening_is_whole, an_opening_keeps_its_entries};
pub use reopening::kept_rows_open;
pub use repeats::a_creation_sent_again_is_refused;
pub use usage::{an_update_lowers_usage, no_success_raises_usage};
pub use waits::{a_held_wait_ends, a_held_wait_takes_few_steps};
