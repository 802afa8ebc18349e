//! Rules on the objects of the estate that are decided by texts alone: which names objects may have, and which
//! networks, pools and volumes a list of devices names.
#![tactic(auto)]

mod names;
mod uses;

pub use names::good_name;
pub use uses::{names_network, names_pool, names_volume};
