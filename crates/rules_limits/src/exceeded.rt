//! Whether one limit of one project is exceeded.
ghost use Rattle.std.specs.Prelude.{◌≡◌, IfOk, Some};
ghost use Rattle.project_limits.specs.Admission.{exceeded};
ghost use Rattle.size_values.specs.Amounts.{amount_above};
ghost use Rattle.size_values.specs.Causes.{Says};
ghost use Rattle.row_machine.specs.machine.LimitRules.{over_refusal, limit_exceeded, pool_refusal};
ghost use Rattle.row_machine.specs.machine.LimitRules.{pool_limit_exceeded};
ghost use Rattle.rules_limits.specs.Sums.{line_over};

use crate::limited::Limited;
use crate::parts::{key_of, limit_on, limit_rule, limit_text, part_of};
use project_limits::{LimitKey, Over};
use records::{Details, Refusal};
use size_values::{Amounts, NoMemory, Or, Part, Text};
use std::alloc::Global;

/// A refusal by a limit of a project.
fn over_refusal(alloc: Global, project: &Limited<'_>, over: Over) -> Result<Refusal, NoMemory>
    ensures { IfOk result (λ r. r ≡ over_refusal project.now over) }
{
    let key = Text::from_text(alloc, limit_text(over.key))?;
    let project = project.name().copy(alloc)?;
    let details = Details {
        kind: Text::new(alloc),
        project,
        name: Text::new(alloc),
        key,
        number: 0,
        used: over.used,
        asked: over.asked,
        limit: over.limit,
    };
    let rule = limit_rule(over.key);
    Ok(Refusal { rule, details })
}

/// What is used before a change, and what the change asks for above it, where both are together above a limit.
fn over_limit(key: LimitKey, limit: u64, before: u128, after: u128) -> Option<Over>
    ensures { result ≡ exceeded key (Some limit) before (amount_above after before) }
{
    let limit = u128::from(limit);
    let asked = after.saturating_sub(before);
    if before + asked <= limit {
        return None;
    }
    Some(Over {
        key,
        used: before,
        asked,
        limit,
    })
}

/// What is used before a change, and what the change asks for above it, are together above a limit.
pub(crate) fn limit_exceeded(
    alloc: Global,
    project: &Limited<'_>,
    key: LimitKey,
    limit: u64,
    before: u128,
    after: u128,
) -> Result<(), Or<Refusal>>
    ensures { Says result (limit_exceeded project.now key (Some limit) before after) }
{
    match over_limit(key, limit, before, after) {
        Some(over) => Err(Or::Why(over_refusal(alloc, project, over)?)),
        None => Ok(()),
    }
}

// ---- a pool

/// A refusal by the limit of a project on a pool.
fn pool_refusal(alloc: Global, project: &str, pool: &str, over: Over) -> Result<Refusal, NoMemory>
    ensures { IfOk result (λ r. r ≡ pool_refusal project.now pool.now over) }
{
    let key = Text::joined(alloc, limit_text(over.key), pool)?;
    let project = Text::from_text(alloc, project)?;
    let details = Details {
        kind: Text::new(alloc),
        project,
        name: Text::new(alloc),
        key,
        number: 0,
        used: over.used,
        asked: over.asked,
        limit: over.limit,
    };
    let rule = limit_rule(over.key);
    Ok(Refusal { rule, details })
}

/// The same of what a project uses of a pool.
pub(crate) fn pool_exceeded(
    alloc: Global,
    project: &str,
    pool: &str,
    limit: u64,
    before: u128,
    after: u128,
) -> Result<(), Or<Refusal>>
    ensures { Says result (pool_limit_exceeded project.now pool.now (Some limit) before after) }
{
    match over_limit(LimitKey::DiskOnPool, limit, before, after) {
        Some(over) => Err(Or::Why(pool_refusal(alloc, project, pool, over)?)),
        None => Ok(()),
    }
}

// ---- a part

/// One part, by what the project uses before and after. A part that it does not limit is not looked at.
pub(crate) fn line_exceeds(
    alloc: Global,
    part: Part,
    project: &Limited<'_>,
    before: &Amounts,
    after: &Amounts,
) -> Result<(), Or<Refusal>>
    ensures { Says result (line_over part (project.now, (before.now, after.now))) }
{
    let Some(limit) = limit_on(part, project.limits()) else {
        return Ok(());
    };
    let before = part_of(part, before);
    let after = part_of(part, after);
    limit_exceeded(alloc, project, key_of(part), limit, before, after)
}
