ghost use Rattle.std.specs.Prelude.{◌≡◌};
ghost use Rattle.std.specs.Result.{result_err};
ghost use Rattle.project_limits.specs.Countable.{first_without_amount, without_amount, volume_without_amount};

use crate::amounts::{cpu_in, disk_in, memory_in, processes_in};
use crate::limits::{Limits, size_in};
use config_lists::{Config, Devices};
use size_values::Kind;

/// The sums that settings of instances add to.
#[derive(Clone, Copy, PartialEq, Eq)]
pub enum SumKey {
    Cpu,
    Memory,
    Processes,
    Disk,
}

/// Whether an instance gives a number for each sum that the project limits. The error is the first sum for which
/// it gives none: its setting is absent, a set of pinned processors, a percentage of memory, or a root disk
/// without `size`. The processes of a virtual machine are not judged.
#[tactic(auto, unfolding(crate::specs::Countable::first_without_amount))]
pub fn countable(
    limits: &Limits,
    kind: Kind,
    config: &Config,
    devices: &Devices,
) -> Result<(), SumKey>
    ensures { result_err result ≡ first_without_amount limits.now kind config.now devices.now }
{
    refuse_without_amount(SumKey::Cpu, limits.cpu, cpu_in(config))?;
    refuse_without_amount(SumKey::Memory, limits.memory, memory_in(config))?;
    refuse_without_amount(
        SumKey::Processes,
        limits.processes,
        processes_in(kind, config),
    )?;
    refuse_without_amount(SumKey::Disk, limits.disk, disk_in(devices))
}

/// Whether a volume has a size where the project limits its disk.
#[tactic(auto, unfolding(crate::specs::Countable::volume_without_amount))]
pub fn volume_countable(limits: &Limits, config: &Config) -> Result<(), SumKey>
    ensures { result_err result ≡ volume_without_amount limits.now config.now }
{
    refuse_without_amount(SumKey::Disk, limits.disk, size_in(config, "size"))
}

/// Whether a sum has a number where it has a limit.
fn refuse_without_amount(key: SumKey, limit: Option<u64>, number: Option<u64>) -> Result<(), SumKey>
    ensures { result_err result ≡ without_amount key limit number }
{
    if limit.is_some() && number.is_none() {
        Err(key)
    } else {
        Ok(())
    }
}
