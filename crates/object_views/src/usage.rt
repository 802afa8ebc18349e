//! The usage of a project: each limit with what is used of it.
ghost use Rattle.std.specs.Prelude.{◌≡◌, ◌++◌, ◌∷◌, [], IfOk, OnOk, length, map};
ghost use Rattle.size_values.specs.Amounts.{part};
ghost use Rattle.project_limits.specs.Admission.{limit_on, parts};
ghost use Rattle.project_limits.specs.Pools.{limited_pools};
ghost use Rattle.records.specs.declared.replies.LimitKeyName.TheVariants as line;
ghost use Rattle.row_machine.specs.shown.Views.{line_key, usage_line, networks_line, pool_line, usage_view};
ghost use Rattle.object_views.specs.Limited.{limited_line, limited_lines};

use project_limits::{Limits, limits_of};
use records::{LimitKeyName, Project, UsageLine, View};
use row_readings::{PoolLimit, PoolLimits, StateRef, pool_uses, rows_of, usage_of};
use size_values::{Amounts, NoMemory, Seq};
use std::alloc::Global;

/// Each limit with what is used of it.
fn usage_lines(
    alloc: Global,
    limits: &Limits,
    used: &Amounts,
    networks: u128,
) -> Result<Seq<UsageLine>, NoMemory>
    ensures { IfOk result (λ lines. lines
        ≡ map (λ k. record { key = line_key k; used = part k used.now; limit = limit_on k limits.now }) parts
        ++ record { key = line.Networks; used = networks; limit = limits.now.networks } ∷ []) }
{
    let mut lines = Seq::new(alloc);
    add(
        &mut lines,
        LimitKeyName::Instances,
        used.instances,
        limits.instances,
    )?;
    add(
        &mut lines,
        LimitKeyName::Containers,
        used.containers,
        limits.containers,
    )?;
    add(
        &mut lines,
        LimitKeyName::Machines,
        used.machines,
        limits.machines,
    )?;
    add(&mut lines, LimitKeyName::Cpu, used.cpu, limits.cpu)?;
    add(&mut lines, LimitKeyName::Memory, used.memory, limits.memory)?;
    add(
        &mut lines,
        LimitKeyName::Processes,
        used.processes,
        limits.processes,
    )?;
    add(&mut lines, LimitKeyName::Disk, used.disk, limits.disk)?;
    add(
        &mut lines,
        LimitKeyName::Networks,
        networks,
        limits.networks,
    )?;
    Ok(lines)
}

fn add(
    lines: &mut Seq<UsageLine>,
    key: LimitKeyName,
    used: u128,
    limit: Option<u64>,
) -> Result<(), NoMemory>
    ensures { OnOk result (lines.new ≡ lines.old ++ record { key = key; used = used; limit = limit } ∷ []) }
{
    lines.push(UsageLine { key, used, limit })
}

/// A line for each sum of the project, and one for its networks.
#[tactic(auto, unfolding(row_machine::specs::machine::Usage::usage_of, row_machine::specs::machine::Usage::networks_of))]
fn sum_lines(
    alloc: Global,
    view: &StateRef<'_>,
    project: &Project,
) -> Result<Seq<UsageLine>, NoMemory>
    ensures { IfOk result (λ lines. lines
        ≡ map (usage_line view.now project.now) parts ++ networks_line view.now project.now ∷ []) }
{
    let limits = limits_of(&project.config);
    let used = usage_of(alloc, view, project.name.view())?;
    let networks = rows_of(view.networks, project.name.view()).len() as u128;
    usage_lines(alloc, &limits, &used, networks)
}

// ---- limits on pools

/// The limit on a pool with what is used of it.
fn limited_line(alloc: Global, limit: &PoolLimit, used: u128) -> Result<UsageLine, NoMemory>
    ensures { IfOk result (λ shown. shown ≡ limited_line limit.now used) }
{
    let pool = limit.pool.copy(alloc)?;
    Ok(UsageLine {
        key: LimitKeyName::DiskOnPool(pool),
        used,
        limit: limit.limit,
    })
}

/// Adds each limit on a pool with what is used of it, at its place.
fn add_limited(
    alloc: Global,
    limits: &[PoolLimit],
    uses: &[u128],
    lines: &mut Seq<UsageLine>,
) -> Result<(), NoMemory>
    requires { length uses.now ≡ length limits.now }
    ensures { OnOk result (lines.new ≡ lines.old ++ limited_lines limits.now uses.now) }
{
    for (place, limit) in limits.iter().enumerate() {
        lines.push(limited_line(alloc, limit, uses[place])?)?;
    }
    Ok(())
}

/// Adds a line for each pool that the project limits.
fn add_pools(
    alloc: Global,
    view: &StateRef<'_>,
    project: &Project,
    lines: &mut Seq<UsageLine>,
) -> Result<(), NoMemory>
    ensures { OnOk result (lines.new
        ≡ lines.old ++ map (pool_line view.now project.now) (limited_pools project.now.config)) }
{
    let name = project.name.view();
    let pools = PoolLimits::of(alloc, project)?;
    let uses = pool_uses(alloc, view, name, &pools)?;
    let limits = pools.view();
    let used = uses.view();
    add_limited(alloc, limits, used, lines)
}

// ---- all

/// The state of a project.
#[tactic(auto, unfolding(row_machine::specs::shown::Views::usage_view))]
pub(crate) fn usage_view(
    alloc: Global,
    view: &StateRef<'_>,
    project: &Project,
) -> Result<View, NoMemory>
    ensures { IfOk result (λ v. v ≡ usage_view view.now project.now) }
{
    let mut lines = sum_lines(alloc, view, project)?;
    add_pools(alloc, view, project, &mut lines)?;
    Ok(View::Usage(lines))
}
