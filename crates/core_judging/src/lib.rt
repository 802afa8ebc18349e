//! The parts of a change of rows and of a beginning in the background, over a draft: what they need is made ready,
//! they are judged by the state after them, and committed or given up.
#![tactic(auto)]

mod changing;
mod one_project;
mod starting;

pub use changing::{Before, Ready, commit, judge, prepare, refused_reply, roll_back};
pub use core_totals::{
    Counted, Shown, Totals, Turned, Waiting, begin, cancel, count, default_profile, entry_changes,
    first_pending, follow_end, give_back_held, is_pending, live_at, queue_event, take_report,
    told_by,
};
pub use one_project::OneProject;
pub use starting::{PreparedStart, commit_start, judge_claim, prepare_start};
