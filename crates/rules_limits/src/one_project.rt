//! L1 to L9 of one project, by what it used before a change and what it uses after it.
ghost use Rattle.std.specs.Prelude.{◌≡◌, length};
ghost use Rattle.size_values.specs.Causes.{Says};
ghost use Rattle.rules_limits.specs.OneProject.{amounts_over, network_use_over, uses_over};

use crate::exceeded::{limit_exceeded, line_exceeds};
use crate::limited::Limited;
use crate::parts::PARTS;
use crate::pool_lines::lines_exceed;
use project_limits::LimitKey;
use records::Refusal;
use row_readings::PoolLimits;
use size_values::{Amounts, Or, Seq};
use std::alloc::Global;

/// What a project uses of its limits: the parts of amounts, its networks, and bytes on each pool that it limits.
#[derive(Drop)]
pub struct InUse {
    pub amounts: Amounts,
    pub networks: usize,
    pub pools: Seq<u128>,
}

/// L1 to L7: the first part that is exceeded.
pub(crate) fn amounts_exceed(
    alloc: Global,
    project: &Limited<'_>,
    before: &Amounts,
    after: &Amounts,
) -> Result<(), Or<Refusal>>
    ensures { Says result (amounts_over before.now after.now project.now) }
{
    for part in PARTS {
        if let Err(why) = line_exceeds(alloc, part, project, before, after) {
            return Err(why);
        }
    }
    Ok(())
}

/// L8.
fn network_use_exceeds(
    alloc: Global,
    project: &Limited<'_>,
    before: usize,
    after: usize,
) -> Result<(), Or<Refusal>>
    ensures { Says result (network_use_over before after project.now) }
{
    let Some(limit) = project.limits().networks else {
        return Ok(());
    };
    limit_exceeded(
        alloc,
        project,
        LimitKey::Networks,
        limit,
        before as u128,
        after as u128,
    )
}

/// L1 to L9 of a project, which limits these pools, that used so much before a change and uses so much after it: the
/// first limit that is exceeded.
pub fn uses_exceed(
    alloc: Global,
    project: &Limited<'_>,
    pools: &PoolLimits,
    before: &InUse,
    after: &InUse,
) -> Result<(), Or<Refusal>>
    requires before { length before.now.pools ≡ length pools.now }
    requires after { length after.now.pools ≡ length pools.now }
    ensures { Says result (uses_over pools.now before.now after.now project.now) }
{
    amounts_exceed(alloc, project, &before.amounts, &after.amounts)?;
    network_use_exceeds(alloc, project, before.networks, after.networks)?;
    lines_exceed(alloc, pools.view(), before.pools.view(), after.pools.view())
}
