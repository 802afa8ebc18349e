//! Where the rows outlive a run: the trait of a keeper of entries, and a keeper in memory whose listed calls
//! fail, for runs without a file and for tests.
#![tactic(auto)]

mod keeper;
mod laws;
mod map_keeper;
mod places;

pub use keeper::{Keeper, KeeperFailed};
pub use laws::{changes_by_place, order_of_changes};
pub use map_keeper::MapKeeper;
