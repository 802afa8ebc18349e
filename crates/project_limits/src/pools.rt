ghost use Rattle.std.specs.Prelude.{◌≡◌, ◌+◌, ◌<◌, ◌^◌};
ghost use Rattle.std.specs.Option.{option_copied};
ghost use Rattle.project_limits.specs.Pools.{is_pool_key, pool_of_key, pool_limit, limits_pools, root_pool};
ghost use Rattle.project_limits.specs.Pools.{if_limited, pool_without_size, volume_pool_without_size};
ghost use Rattle.project_limits.specs.Pools.{pool_countable, pool_volume_countable, fits_on_pool};

use crate::amounts::disk_in;
use crate::limits::size_in;
use config_lists::{Config, Devices, Root};
use size_values::read_size;

/// The limit of a project on a storage pool in bytes, by the key `limits.disk.pool.POOL` of the page on project
/// configuration, where it is set. A value that can't be read counts as unset; accepted settings have none. The pool
/// needn't exist.
#[tactic(auto, unfolding(crate::specs::Pools::pool_limit, crate::specs::Limits::size_in))]
pub fn pool_limit(project: &Config, pool: &str) -> Option<u64>
    ensures { result ≡ pool_limit project.now pool.now }
{
    read_size(project.get_joined("limits.disk.pool.", pool)?).ok()
}

/// The pool that a project's key limits, where it is such a key.
pub fn pool_of_key(key: &str) -> Option<&str>
    ensures { option_copied result ≡ pool_of_key key.now }
{
    key.strip_prefix("limits.disk.pool.")
}

/// Whether a project has a key of a limit on a pool.
#[tactic(auto, unfolding(crate::specs::Pools::limits_pools))]
pub fn limits_pools(project: &Config) -> bool
    ensures { result ≡ limits_pools project.now }
{
    for place in 0..project.len() {
        if is_pool_key(project.key_at(place)) {
            return true;
        }
    }
    false
}

fn is_pool_key(key: &str) -> bool
    ensures { result ≡ is_pool_key key.now }
{
    key.as_bytes().starts_with(b"limits.disk.pool.")
}

/// The pool of an instance's one root disk.
#[tactic(auto, unfolding(crate::specs::Pools::root_pool))]
pub fn root_pool(devices: &Devices) -> Option<&str>
    ensures { option_copied result ≡ root_pool devices.now }
{
    match devices.root() {
        Root::One(place) => devices.device_at(place).get("pool"),
        Root::None | Root::Several => None,
    }
}

/// The limited pool on which an instance has a root disk without `size`.
#[tactic(auto, unfolding(crate::specs::Pools::pool_without_size))]
pub fn pool_without_size<'x>(project: &Config, devices: &'x Devices) -> Option<&'x str>
    ensures { option_copied result ≡ pool_without_size project.now devices.now }
{
    if disk_in(devices).is_some() {
        return None;
    }
    match root_pool(devices) {
        Some(pool) => if_limited(project, pool),
        None => None,
    }
}

/// The pool of a volume, where the project limits it and the volume has no `size`.
#[tactic(auto, unfolding(crate::specs::Pools::volume_pool_without_size))]
pub fn volume_pool_without_size<'x>(
    project: &Config,
    pool: &'x str,
    config: &Config,
) -> Option<&'x str>
    ensures { option_copied result ≡ volume_pool_without_size project.now pool.now config.now }
{
    if size_in(config, "size").is_some() {
        return None;
    }
    if_limited(project, pool)
}

/// The pool, where the project limits it.
fn if_limited<'x>(project: &Config, pool: &'x str) -> Option<&'x str>
    ensures { option_copied result ≡ if_limited project.now pool.now }
{
    if pool_limit(project, pool).is_some() {
        Some(pool)
    } else {
        None
    }
}

/// Whether an instance counts for the limits on pools: not where its one root disk has no `size` and its pool has a
/// limit.
pub fn pool_countable(project: &Config, devices: &Devices) -> bool
    ensures { result ≡ pool_countable project.now devices.now }
{
    pool_without_size(project, devices).is_none()
}

/// Whether a volume of this pool counts for the limits on pools: not where it has no `size` and its pool has a limit.
pub fn pool_volume_countable(project: &Config, pool: &str, config: &Config) -> bool
    ensures { result ≡ pool_volume_countable project.now pool.now config.now }
{
    volume_pool_without_size(project, pool, config).is_none()
}

/// Whether what is asked for fits under the limit on a pool beside what is used of it: both together may be equal to
/// the limit.
pub fn admit_pool(limit: u64, used: u128, asked: u128) -> bool
    requires { used + asked < 2 ^ 128 }
    ensures { result ≡ fits_on_pool limit used asked }
{
    used + asked <= u128::from(limit)
}
