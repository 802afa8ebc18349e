ghost use Rattle.std.specs.Prelude.{◌≡◌};
ghost use Rattle.project_limits.specs.Instance.{cpu_in, disk_in, instance_amounts, memory_in, one_if_container};
ghost use Rattle.project_limits.specs.Instance.{one_if_machine, processes_in, volume_amounts};

use crate::limits::{count_in, size_in};
use config_lists::{Config, Devices, Root};
use size_values::{Amounts, Cpu, Kind, Memory, read_cpu, read_memory};

/// What an instance counts for in its project, by its expanded settings and devices: one instance of its kind,
/// its processors where they are a count, its memory where it is in bytes, the processes of a container, and the
/// size of its one root disk. What its settings do not give as a number counts as 0.
#[tactic(auto, unfolding(crate::specs::Instance::instance_amounts))]
pub fn amounts_of(kind: Kind, config: &Config, devices: &Devices) -> Amounts
    ensures { result ≡ instance_amounts kind config.now devices.now }
{
    Amounts {
        instances: 1,
        containers: containers_of(kind),
        machines: machines_of(kind),
        cpu: u128::from(cpu_in(config).unwrap_or(0)),
        memory: u128::from(memory_in(config).unwrap_or(0)),
        processes: u128::from(processes_in(kind, config).unwrap_or(0)),
        disk: u128::from(disk_in(devices).unwrap_or(0)),
    }
}

/// What a volume counts for in its project: its size as disk, or nothing where it has none.
#[tactic(auto, unfolding(crate::specs::Instance::volume_amounts))]
pub fn volume_amounts(config: &Config) -> Amounts
    ensures { result ≡ volume_amounts config.now }
{
    Amounts {
        disk: u128::from(size_in(config, "size").unwrap_or(0)),
        ..Amounts::zero()
    }
}

fn containers_of(kind: Kind) -> u128
    ensures { result ≡ one_if_container kind }
{
    match kind {
        Kind::Container => 1,
        Kind::Machine => 0,
    }
}

fn machines_of(kind: Kind) -> u128
    ensures { result ≡ one_if_machine kind }
{
    match kind {
        Kind::Container => 0,
        Kind::Machine => 1,
    }
}

/// The number of processors, where it is set and no set of pinned ones.
#[tactic(auto, unfolding(crate::specs::Instance::cpu_in))]
pub(crate) fn cpu_in(config: &Config) -> Option<u64>
    ensures { result ≡ cpu_in config.now }
{
    match read_cpu(config.get("limits.cpu")?).ok()? {
        Cpu::Count(count) => Some(u64::from(count)),
        Cpu::Pinned => None,
    }
}

/// The bytes of memory, where they are set and no percentage.
#[tactic(auto, unfolding(crate::specs::Instance::memory_in))]
pub(crate) fn memory_in(config: &Config) -> Option<u64>
    ensures { result ≡ memory_in config.now }
{
    match read_memory(config.get("limits.memory")?).ok()? {
        Memory::Bytes(bytes) => Some(bytes),
        Memory::Percent(_) => None,
    }
}

/// The number of processes of a container, where it is set. A virtual machine's are not counted: it has none.
pub(crate) fn processes_in(kind: Kind, config: &Config) -> Option<u64>
    ensures { result ≡ processes_in kind config.now }
{
    match kind {
        Kind::Container => count_in(config, "limits.processes"),
        Kind::Machine => Some(0),
    }
}

/// The size of the one root disk, where there is one and it has one.
#[tactic(auto, unfolding(crate::specs::Instance::disk_in))]
pub fn disk_in(devices: &Devices) -> Option<u64>
    ensures { result ≡ disk_in devices.now }
{
    match devices.root() {
        Root::One(place) => size_in(devices.device_at(place), "size"),
        Root::None | Root::Several => None,
    }
}
