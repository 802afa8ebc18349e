//! A view of the rows, operations and held shares as they stand, lent without a copy, and what is read
//! off it: rows by their names, homes, expansions, claims, what a project uses of its limits and of limited pools,
//! what is busy, held or in use.
#![tactic(auto)]

mod amounts;
mod claims;
mod found_rows;
mod homes;
mod instances;
mod layers;
mod lookups;
mod named;
mod on_pools;
mod places;
mod pool_limits;
mod readings;
mod snapshots;
mod state_ref;
mod usage;

pub use amounts::{
    Footprint, Load, footprint_of_instance, loads, project_of_row, share_of, usage_in,
};
pub use claims::{claimed_instance, claimed_snapshot, claimed_volume, replaced_instance};
pub use found_rows::row_of;
pub use homes::{is_on, is_true};
pub use lookups::{kept_at, power_of};
pub use named::{Named, Names};
pub use on_pools::{pool_sums, pool_uses};
pub use places::{place_named, rises, rows_at_home, rows_of};
pub use pool_limits::{PoolLimit, PoolLimits};
pub use snapshots::next_snapshot;
pub use state_ref::{InstancePower, StateRef};
pub use usage::usage_of;
