//! The rules on limits for a new operation, by what it claims alone: where all facts hold before it, nothing else can
//! break them.
ghost use Rattle.std.specs.Prelude.{◌≡◌, ◌+◌, ◌<◌, ◌≤◌, ◌^◌, ℕ, List, IsFalse, option_and_then};
ghost use Rattle.size_values.specs.Amounts.{part, nothing, fits_in};
ghost use Rattle.size_values.specs.Causes.{Says};
ghost use Rattle.size_values.specs.declared.amounts.Amounts.{Amounts as AmountsValue};
ghost use Rattle.size_values.specs.declared.amounts.Part.{Part as PartValue};
ghost use Rattle.records.specs.declared.rows.Project.{Project as ProjectValue};
ghost use Rattle.row_machine.specs.machine.LimitRules.{claim_without_amount};
ghost use Rattle.rules_limits.specs.Limited.{limits_named};
ghost use Rattle.rules_limits.specs.OneProject.{asked_over, part_over, share_over, of_project, limit_on_pool};

use crate::counts::claim_without_amount;
use crate::exceeded::pool_exceeded;
use crate::limited::Limited;
use crate::one_project::amounts_exceed;
use crate::parts::is_limited_by;
use project_limits::{Limits, pool_limit};
use records::Refusal;
use row_machine::Task;
use row_readings::{Footprint, StateRef};
use size_values::{Amounts, Or, PoolPart};
use std::alloc::Global;

/// L0: the row that an operation would put gives no number for a sum that its project limits. No other project is
/// asked.
pub fn claim_lacks_amount(
    alloc: Global,
    view: &StateRef<'_>,
    project: &Option<Limited<'_>>,
    work: &Task,
) -> Result<(), Or<Refusal>>
    ensures { Says result (option_and_then (λ p. claim_without_amount view.now p work.now) project.now) }
{
    match project {
        Some(project) => claim_without_amount(alloc, view, project, work),
        None => Ok(()),
    }
}

/// Whether a share is nothing.
fn is_nothing(share: &Amounts) -> bool
    ensures { result ≡ fits_in share.now nothing }
{
    share.fits(&Amounts::zero())
}

/// What a project uses, as far as a share is judged by it: amounts, and bytes on the pool of the share's part.
#[derive(Clone, Copy)]
pub struct Beside {
    pub amounts: Amounts,
    pub on_pool: u128,
}

/// Whether the amounts of a share are judged by what a project of these limits uses: they are something, and the
/// project has a limit. Where they are not, whatever the project uses may stand for it.
pub fn needs_usage(limits: Option<Limits>, asked: &Amounts) -> bool
    ensures { IsFalse result → (projects : List ProjectValue) (name : List ℕ) (used other : AmountsValue)
        → limits ≡ limits_named projects name
        → of_project (asked_over used asked.now) projects name ≡ of_project (asked_over other asked.now) projects name }
{
    if is_nothing(asked) {
        return false;
    }
    is_limited_by(limits)
}

/// Whether the part of a share on a pool is judged by what a project uses there: it is something, and the project has
/// this limit on the pool. Where it is not, whatever the project uses may stand for it.
pub fn needs_use_of_pool(limit: Option<u64>, part: &PoolPart) -> bool
    ensures { IsFalse result → (projects : List ProjectValue) (name : List ℕ) (used other : ℕ)
        → limit ≡ limit_on_pool projects name part.now.pool
        → of_project (part_over used part.now) projects name ≡ of_project (part_over other part.now) projects name }
{
    if part.disk == 0 {
        return false;
    }
    limit.is_some()
}

/// The limit of the project of this name on a pool, if it is there and sets one.
pub fn limit_on_pool(view: &StateRef<'_>, name: &str, pool: &str) -> Option<u64>
    ensures { result ≡ limit_on_pool view.now.projects name.now pool.now }
{
    match view.project_named(name) {
        Some(project) => pool_limit(&project.config, pool),
        None => None,
    }
}

/// L1 to L7 of a project by what it uses and amounts above it. Amounts that are nothing exceed no limit.
fn asked_exceeds(
    alloc: Global,
    project: &Limited<'_>,
    used: &Amounts,
    asked: &Amounts,
) -> Result<(), Or<Refusal>>
    requires used { (k : PartValue) → part k used.now ≤ 2 ^ 127 + 2 ^ 126 }
    requires share { (k : PartValue) → part k asked.now < 2 ^ 80 }
    ensures { Says result (asked_over used.now asked.now project.now) }
{
    if is_nothing(asked) {
        return Ok(());
    }
    amounts_exceed(alloc, project, used, &used.plus(asked))
}

/// L9 of a project by what it uses of a pool and a part above it. A part that is nothing exceeds no limit.
fn part_exceeds(
    alloc: Global,
    project: &Limited<'_>,
    used: u128,
    part: &PoolPart,
) -> Result<(), Or<Refusal>>
    requires used { used ≤ 2 ^ 127 + 2 ^ 126 }
    requires part { part.now.disk < 2 ^ 80 }
    ensures { Says result (part_over used part.now project.now) }
{
    if part.disk == 0 {
        return Ok(());
    }
    let pool = part.pool.view();
    let Some(limit) = pool_limit(project.config(), pool) else {
        return Ok(());
    };
    pool_exceeded(
        alloc,
        project.name().view(),
        pool,
        limit,
        used,
        used + part.disk,
    )
}

/// L1 to L7, and L9 of the pool of the share's part.
fn share_exceeds(
    alloc: Global,
    project: &Limited<'_>,
    used: &Beside,
    share: &Footprint,
) -> Result<(), Or<Refusal>>
    requires used { (k : PartValue) → part k used.now.amounts ≤ 2 ^ 127 + 2 ^ 126 }
    requires used_pool { used.now.on_pool ≤ 2 ^ 127 + 2 ^ 126 }
    requires share { (k : PartValue) → part k share.now.amounts < 2 ^ 80 }
    requires part { share.now.on.disk < 2 ^ 80 }
    ensures { Says result (share_over used.now share.now project.now) }
{
    asked_exceeds(alloc, project, &used.amounts, &share.amounts)?;
    part_exceeds(alloc, project, used.on_pool, &share.on)
}

/// L1 to L9: the first limit of the project that what it uses and a share exceed together. No other project is asked,
/// and a share counts for no network.
pub fn share_broken(
    alloc: Global,
    project: &Option<Limited<'_>>,
    used: &Beside,
    share: &Footprint,
) -> Result<(), Or<Refusal>>
    requires used { (k : PartValue) → part k used.now.amounts ≤ 2 ^ 127 + 2 ^ 126 }
    requires used_pool { used.now.on_pool ≤ 2 ^ 127 + 2 ^ 126 }
    requires share { (k : PartValue) → part k share.now.amounts < 2 ^ 80 }
    requires part { share.now.on.disk < 2 ^ 80 }
    ensures { Says result (option_and_then (share_over used.now share.now) project.now) }
{
    match project {
        Some(project) => share_exceeds(alloc, project, used, share),
        None => Ok(()),
    }
}
