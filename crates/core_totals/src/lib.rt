//! What projects use of their limits, kept from one request to the next; with the laws that what is
//! known is what is used, and that a new operation is judged by what it claims alone.
#![tactic(auto)]

mod amount_totals;
mod ends;
mod laws;
mod pool_totals;
mod totals;

pub use core_reports::{
    Shown, Turned, Waiting, begin, cancel, default_profile, entry_changes, first_pending,
    is_pending, live_at, queue_event, take_report, told_by,
};
pub use ends::{Counted, count, follow_end, give_back_held};
pub use laws::{claims_are_judged_alone, new_profiles_are_judged_alone, projects_are_judged_alone};
pub use totals::Totals;
