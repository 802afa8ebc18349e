//! The slots of background operations: which are live, which ended last, and which number comes next. Room for
//! all of them is taken once, so no later call takes memory.
#![tactic(auto)]

mod faults;
mod limits;
mod lists;
mod operation;
mod slots;
mod status;

pub use faults::{CancelFault, EnterFault};
pub use limits::{ENDED_LIMIT, LIVE_LIMIT, NUMBER_LIMIT, limits_are_the_defined_numbers};
pub use lists::{drop_oldest, index_of, known_place, set_status, swap_in, take_out};
pub use operation::{OpFault, Operation};
pub use size_values::MOMENT_LIMIT;
pub use slots::Slots;
pub use status::Status;
