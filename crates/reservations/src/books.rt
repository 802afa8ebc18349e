use size_values::{Amounts, PoolPart, Text};

/// The share that an operation holds of the limits of a project, which is named by its name, and the part of it that
/// is on a storage pool.
#[derive(Drop)]
pub struct Hold {
    pub op: u64,
    pub project: Text,
    pub share: Amounts,
    pub part: PoolPart,
}

/// The sums of all shares: those granted to operations; those converted, since the operation succeeded and they
/// became its object's; and those returned, since it failed or was cancelled. The same of their parts on storage
/// pools, in bytes over all pools.
#[derive(Clone, Copy, PartialEq, Eq)]
pub struct Books {
    pub granted: Amounts,
    pub converted: Amounts,
    pub returned: Amounts,
    pub pool_granted: u128,
    pub pool_converted: u128,
    pub pool_returned: u128,
}
