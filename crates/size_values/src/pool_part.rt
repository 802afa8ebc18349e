ghost use Rattle.std.specs.Prelude.{◌≡◌, ◌≤◌, IfOk};
ghost use Rattle.size_values.specs.PoolParts.{no_part, on_pool, part_above};

use crate::memory::NoMemory;
use crate::text::Text;
use std::alloc::Global;

/// Bytes of disk on one storage pool, which is named by its name. Without bytes the name says nothing.
#[derive(Drop)]
pub struct PoolPart {
    pub pool: Text,
    pub disk: u128,
}

impl PoolPart {
    /// No bytes of any pool. It takes no memory.
    pub fn none(alloc: Global) -> PoolPart
        ensures { result ≡ no_part }
    {
        PoolPart {
            pool: Text::new(alloc),
            disk: 0,
        }
    }

    /// The same part, of its own.
    pub fn copy(&self, alloc: Global) -> Result<PoolPart, NoMemory>
        ensures { IfOk result (λ p. p ≡ self.now) }
    {
        Ok(PoolPart {
            pool: self.pool.copy(alloc)?,
            disk: self.disk,
        })
    }

    /// The bytes that are on this pool.
    pub fn on(&self, pool: &str) -> u128
        ensures value { result ≡ on_pool pool.now self.now }
        ensures within { result ≤ self.now.disk }
    {
        if self.pool.view() == pool {
            self.disk
        } else {
            0
        }
    }

    /// By how much it is above what the other has on its pool, and 0 where it is not.
    pub fn above(self, other: &PoolPart) -> PoolPart
        ensures { result ≡ part_above self other.now }
    {
        let there = other.on(self.pool.view());
        PoolPart {
            disk: self.disk.saturating_sub(there),
            pool: self.pool,
        }
    }
}
