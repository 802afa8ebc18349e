//! The limits of a project, on its sums and on storage pools: what its settings limit, what an instance or a volume
//! counts for, whether a sum can be taken of it at all, and whether more still fits.
#![tactic(auto)]

mod admission;
mod amounts;
mod limits;
mod pools;
mod sums;

pub use admission::{LimitKey, Over, admit, admit_networks};
pub use amounts::{amounts_of, disk_in, volume_amounts};
pub use limits::{Limits, limits_of};
pub use pools::{
    admit_pool, limits_pools, pool_countable, pool_limit, pool_of_key, pool_volume_countable,
    pool_without_size, root_pool, volume_pool_without_size,
};
pub use sums::{SumKey, countable, volume_countable};
