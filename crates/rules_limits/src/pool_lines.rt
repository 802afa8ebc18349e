//! L9: that what projects use of pools stands within their limits there.
ghost use Rattle.std.specs.Prelude.{◌≡◌, length};
ghost use Rattle.plain_lists.specs.Firsts.{first_of};
ghost use Rattle.size_values.specs.Causes.{Says};
ghost use Rattle.row_machine.specs.facts.Whole.{Rise};
ghost use Rattle.row_machine.specs.machine.LimitRules.{pool_limit_exceeded};
ghost use Rattle.row_machine.specs.machine.Rows.{project_names};
ghost use Rattle.row_readings.specs.Loads.{AreSmall};
ghost use Rattle.row_readings.specs.PoolLimits.{all_limits};
ghost use Rattle.rules_limits.specs.Pools.{pool_line_over, pool_lines, pools_over};

use crate::exceeded::pool_exceeded;
use records::{Project, Refusal};
use row_readings::{Load, PoolLimit, PoolLimits, pool_sums};
use size_values::Or;
use std::alloc::Global;

/// One pool, by what its project uses of it before and after. One whose limit can't be read is not looked at.
fn line_exceeds(
    alloc: Global,
    limit: &PoolLimit,
    before: u128,
    after: u128,
) -> Result<(), Or<Refusal>>
    ensures { Says result
        (pool_limit_exceeded limit.now.project limit.now.pool limit.now.limit before after) }
{
    let Some(most) = limit.limit else {
        return Ok(());
    };
    let project = limit.project.view();
    let pool = limit.pool.view();
    pool_exceeded(alloc, project, pool, most, before, after)
}

/// By the sums of each limit, at its place.
pub(crate) fn lines_exceed(
    alloc: Global,
    limits: &[PoolLimit],
    before: &[u128],
    after: &[u128],
) -> Result<(), Or<Refusal>>
    requires before { length before.now ≡ length limits.now }
    requires after { length after.now ≡ length limits.now }
    ensures { Says result (first_of pool_line_over (pool_lines limits.now before.now after.now)) }
{
    for (place, limit) in limits.iter().enumerate() {
        if let Err(why) = line_exceeds(alloc, limit, before[place], after[place]) {
            return Err(why);
        }
    }
    Ok(())
}

/// By all that counts before and after. Where no pool is limited, nothing is summed.
fn loads_exceed(
    alloc: Global,
    limits: &PoolLimits,
    before: &[Load],
    after: &[Load],
) -> Result<(), Or<Refusal>>
    requires before { AreSmall before.now }
    requires after { AreSmall after.now }
    ensures { Says result (pools_over before.now after.now limits.now) }
{
    if limits.view().is_empty() {
        return Ok(());
    }
    let before = pool_sums(alloc, before, limits)?;
    let after = pool_sums(alloc, after, limits)?;
    lines_exceed(alloc, limits.view(), before.view(), after.view())
}

/// The first pool, of the first project, of which more is used than the project's limit there.
pub(crate) fn pools_exceed(
    alloc: Global,
    before: &[Load],
    after: &[Load],
    projects: &[Project],
) -> Result<(), Or<Refusal>>
    requires rising { Rise project_names projects.now }
    requires before { AreSmall before.now }
    requires after { AreSmall after.now }
    ensures { Says result (pools_over before.now after.now (all_limits projects.now)) }
{
    let limits = PoolLimits::of_all(alloc, projects)?;
    let exceeded = loads_exceed(alloc, &limits, before, after);
    drop(limits);
    exceeded
}
