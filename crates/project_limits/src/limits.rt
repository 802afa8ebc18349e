ghost use Rattle.std.specs.Prelude.{◌≡◌};
ghost use Rattle.std.specs.List.{list_any};
ghost use Rattle.std.specs.Map.{keys_of};
ghost use Rattle.project_limits.specs.Limits.{count_in, is_limit_key, limits_of, size_in};

use config_lists::Config;
use size_values::{read_count, read_size};

/// The limits of a project on its sums, each None where it is not set: numbers of instances, containers,
/// virtual machines and networks, processors, bytes of memory, processes, and bytes of disk.
#[derive(Clone, Copy, PartialEq, Eq)]
pub struct Limits {
    pub instances: Option<u64>,
    pub containers: Option<u64>,
    pub machines: Option<u64>,
    pub networks: Option<u64>,
    pub cpu: Option<u64>,
    pub memory: Option<u64>,
    pub processes: Option<u64>,
    pub disk: Option<u64>,
}

/// The limits where no setting is one.
const UNLIMITED: Limits = Limits {
    instances: None,
    containers: None,
    machines: None,
    networks: None,
    cpu: None,
    memory: None,
    processes: None,
    disk: None,
};

/// The limits that a project's settings set, by the keys `limits.*` of the page on project configuration. A
/// value that can't be read counts as unset; accepted settings have none. Most projects have no such key, and then
/// none of the eight is looked for.
#[tactic(auto, unfolding(crate::specs::Limits::limits_of))]
pub fn limits_of(project: &Config) -> Limits
    ensures { result ≡ limits_of project.now }
{
    if !has_limits(project) {
        return UNLIMITED;
    }
    Limits {
        instances: count_in(project, "limits.instances"),
        containers: count_in(project, "limits.containers"),
        machines: count_in(project, "limits.virtual-machines"),
        networks: count_in(project, "limits.networks"),
        cpu: count_in(project, "limits.cpu"),
        memory: size_in(project, "limits.memory"),
        processes: count_in(project, "limits.processes"),
        disk: size_in(project, "limits.disk"),
    }
}

/// Whether a key begins as those of limits do.
fn has_limits(project: &Config) -> bool
    ensures { result ≡ list_any is_limit_key (keys_of project.now) }
{
    for place in 0..project.len() {
        if is_limit_key(project.key_at(place)) {
            return true;
        }
    }
    false
}

fn is_limit_key(key: &str) -> bool
    ensures { result ≡ is_limit_key key.now }
{
    key.as_bytes().starts_with(b"limits.")
}

/// The number of a setting that is a count.
#[tactic(auto, unfolding(crate::specs::Limits::count_in))]
pub(crate) fn count_in(config: &Config, key: &str) -> Option<u64>
    ensures { result ≡ count_in config.now key.now }
{
    read_count(config.get(key)?, 0, 9223372036854775807).ok()
}

/// The bytes of a setting that is a size.
#[tactic(auto, unfolding(crate::specs::Limits::size_in))]
pub(crate) fn size_in(config: &Config, key: &str) -> Option<u64>
    ensures { result ≡ size_in config.now key.now }
{
    read_size(config.get(key)?).ok()
}
