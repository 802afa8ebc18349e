ghost use Rattle.std.specs.Prelude.{◌≡◌, ◌+◌, ◌<◌, ◌^◌, None, Some, option_map};
ghost use Rattle.std.specs.Result.{result_err};
ghost use Rattle.size_values.specs.Amounts.{part};
ghost use Rattle.size_values.specs.declared.amounts.Part.{Part};
ghost use Rattle.project_limits.specs.Admission.{first_over, networks_over, exceeded};

use crate::limits::Limits;
use size_values::Amounts;

/// The keys of limits, in the order in which they are judged.
#[derive(Clone, Copy, PartialEq, Eq)]
pub enum LimitKey {
    Instances,
    Containers,
    Machines,
    Cpu,
    Memory,
    Processes,
    Disk,
    Networks,
    DiskOnPool,
}

/// A limit that would be exceeded: what is used, what is asked for beside it, and the limit.
#[derive(Clone, Copy, PartialEq, Eq)]
pub struct Over {
    pub key: LimitKey,
    pub used: u128,
    pub asked: u128,
    pub limit: u128,
}

/// Whether what is asked for fits under the limits beside what is used: a sum may be equal to its limit. The
/// error is the first limit that it does not fit under. The number of networks is not judged here.
#[tactic(auto, unfolding(crate::specs::Admission::first_over))]
pub fn admit(limits: &Limits, used: &Amounts, asked: &Amounts) -> Result<(), Over>
    requires { (p : Part) → part p used.now + part p asked.now < 2 ^ 128 }
    ensures { result_err result ≡ first_over limits.now used.now asked.now }
{
    refuse_over(
        LimitKey::Instances,
        limits.instances,
        used.instances,
        asked.instances,
    )?;
    refuse_over(
        LimitKey::Containers,
        limits.containers,
        used.containers,
        asked.containers,
    )?;
    refuse_over(
        LimitKey::Machines,
        limits.machines,
        used.machines,
        asked.machines,
    )?;
    refuse_over(LimitKey::Cpu, limits.cpu, used.cpu, asked.cpu)?;
    refuse_over(LimitKey::Memory, limits.memory, used.memory, asked.memory)?;
    refuse_over(
        LimitKey::Processes,
        limits.processes,
        used.processes,
        asked.processes,
    )?;
    refuse_over(LimitKey::Disk, limits.disk, used.disk, asked.disk)
}

/// Whether more networks fit under the limit on their number.
#[tactic(auto, unfolding(crate::specs::Admission::networks_over))]
pub fn admit_networks(limits: &Limits, used: u64, asked: u64) -> Result<(), Over>
    requires { used + asked < 2 ^ 64 }
    ensures { result_err result ≡ networks_over limits.now used asked }
{
    refuse_over(
        LimitKey::Networks,
        limits.networks,
        u128::from(used),
        u128::from(asked),
    )
}

/// Whether one sum is at most its limit, where it has one.
fn refuse_over(key: LimitKey, limit: Option<u64>, used: u128, asked: u128) -> Result<(), Over>
    requires { used + asked < 2 ^ 128 }
    ensures { result_err result ≡ exceeded key limit used asked }
{
    let Some(limit) = limit else {
        return Ok(());
    };
    let limit = u128::from(limit);
    if used + asked <= limit {
        Ok(())
    } else {
        Err(Over {
            key,
            used,
            asked,
            limit,
        })
    }
}
