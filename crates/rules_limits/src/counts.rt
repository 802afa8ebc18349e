//! L0: that each instance and volume gives a number for each limited sum, and has a size on a limited pool.
ghost use Rattle.std.specs.Prelude.{◌≡◌, ◌∷◌, [], option_and_then};
ghost use Rattle.std.specs.Option.{option_copied};
ghost use Rattle.plain_lists.specs.Firsts.{first, first_of};
ghost use Rattle.project_limits.specs.Countable.{first_without_amount};
ghost use Rattle.project_limits.specs.Limits.{limits_of};
ghost use Rattle.project_limits.specs.Pools.{pool_without_size};
ghost use Rattle.size_values.specs.Causes.{Says};
ghost use Rattle.row_machine.specs.machine.Claims.{claimed_instance, claimed_volume};
ghost use Rattle.row_machine.specs.machine.LimitRules.{sum_text, object_without_amount, object_without_size};
ghost use Rattle.row_machine.specs.machine.LimitRules.{claim_without_amount, project_without_amount};
ghost use Rattle.row_machine.specs.machine.LimitRules.{counts_broken};
ghost use Rattle.rules_limits.specs.Within.{own_instance, own_volume, own_objects};

use crate::limited::Limited;
use config_lists::{Config, Devices};
use operations::Operation;
use project_limits::{
    SumKey, countable, pool_without_size, volume_countable, volume_pool_without_size,
};
use records::{Instance, Refusal, Rule, Volume};
use row_machine::Task;
use row_readings::{StateRef, claimed_instance, claimed_volume, rows_of};
use rules_refusals::on_key_of;
use size_values::{Boxed, Kind, Or, Text};
use std::alloc::Global;

fn sum_text(key: SumKey) -> &'static str
    ensures { result.now ≡ sum_text key }
{
    match key {
        SumKey::Cpu => "limits.cpu",
        SumKey::Memory => "limits.memory",
        SumKey::Processes => "limits.processes",
        SumKey::Disk => "limits.disk",
    }
}

/// An object of this name gives no number for this sum.
fn object_without_amount(
    alloc: Global,
    project: &Limited<'_>,
    name: &Text,
    key: Option<SumKey>,
) -> Result<(), Or<Refusal>>
    ensures { Says result (object_without_amount project.now name.now key) }
{
    let Some(key) = key else {
        return Ok(());
    };
    let key = sum_text(key);
    Err(Or::Why(on_key_of(alloc, Rule::L0, key, name.view(), project.name().view())?))
}

/// An object of this name has no size on this limited pool.
fn object_without_size(
    alloc: Global,
    project: &Limited<'_>,
    name: &Text,
    pool: Option<&str>,
) -> Result<(), Or<Refusal>>
    ensures { Says result (object_without_size project.now name.now (option_copied pool.entry)) }
{
    let Some(pool) = pool else {
        return Ok(());
    };
    let key = Text::joined(alloc, "limits.disk.pool.", pool)?;
    let refusal = on_key_of(
        alloc,
        Rule::L0,
        key.view(),
        name.view(),
        project.name().view(),
    );
    drop(key);
    Err(Or::Why(refusal?))
}

/// An object of this name, an instance with these settings and devices, gives no number for a sum that the project
/// limits, or no size on a pool that it limits.
fn lacks_amount(
    alloc: Global,
    project: &Limited<'_>,
    name: &Text,
    kind: Kind,
    config: &Config,
    devices: &Devices,
) -> Result<(), Or<Refusal>>
    ensures { Says result (first
        (object_without_amount project.now name.now
        (first_without_amount (limits_of project.now.config) kind config.now devices.now)
        ∷ object_without_size project.now name.now (pool_without_size project.now.config devices.now)
        ∷ [])) }
{
    let key = countable(project.limits(), kind, config, devices).err();
    object_without_amount(alloc, project, name, key)?;
    let pool = pool_without_size(project.config(), devices);
    object_without_size(alloc, project, name, pool)
}

/// An instance of the project gives no number for a sum that the project limits, or has no size on a limited pool.
#[tactic(auto, unfolding(row_machine::specs::machine::LimitRules::instance_without_amount))]
fn instance_without_amount(
    alloc: Global,
    view: &StateRef<'_>,
    project: &Limited<'_>,
    row: &Instance,
) -> Result<(), Or<Refusal>>
    ensures { Says result (own_instance view.now project.now row.now) }
{
    if !row.project.is(project.name()) {
        return Ok(());
    }
    let expanded = view.expansion(alloc, row)?;
    let config = &expanded.config;
    let lacks = lacks_amount(
        alloc,
        project,
        &row.name,
        row.kind,
        config,
        &expanded.devices,
    );
    drop(expanded);
    lacks
}

fn instances_without_amount(
    alloc: Global,
    view: &StateRef<'_>,
    project: &Limited<'_>,
    rows: &[Boxed<Instance>],
) -> Result<(), Or<Refusal>>
    ensures { Says result (first_of (own_instance view.now project.now) rows.now) }
{
    for row in rows {
        if let Err(why) = instance_without_amount(alloc, view, project, row) {
            return Err(why);
        }
    }
    Ok(())
}

/// A volume of the project has no size although the project limits its disk, or its pool.
#[tactic(auto, unfolding(row_machine::specs::machine::LimitRules::volume_lacks_amount))]
fn volume_without_amount(
    alloc: Global,
    project: &Limited<'_>,
    row: &Volume,
) -> Result<(), Or<Refusal>>
    ensures { Says result (own_volume project.now row.now) }
{
    if !row.project.is(project.name()) {
        return Ok(());
    }
    let key = volume_countable(project.limits(), &row.config).err();
    object_without_amount(alloc, project, &row.name, key)?;
    let pool = volume_pool_without_size(project.config(), row.pool.view(), &row.config);
    object_without_size(alloc, project, &row.name, pool)
}

fn volumes_without_amount(
    alloc: Global,
    project: &Limited<'_>,
    rows: &[Boxed<Volume>],
) -> Result<(), Or<Refusal>>
    ensures { Says result (first_of (own_volume project.now) rows.now) }
{
    for row in rows {
        if let Err(why) = volume_without_amount(alloc, project, row) {
            return Err(why);
        }
    }
    Ok(())
}

fn claimed_instance_without_amount(
    alloc: Global,
    view: &StateRef<'_>,
    project: &Limited<'_>,
    work: &Task,
) -> Result<(), Or<Refusal>>
    ensures { Says result (option_and_then (own_instance view.now project.now) (claimed_instance work.now)) }
{
    match claimed_instance(work) {
        Some(row) => instance_without_amount(alloc, view, project, row),
        None => Ok(()),
    }
}

fn claimed_volume_without_amount(
    alloc: Global,
    project: &Limited<'_>,
    work: &Task,
) -> Result<(), Or<Refusal>>
    ensures { Says result (option_and_then (own_volume project.now) (claimed_volume work.now)) }
{
    match claimed_volume(work) {
        Some(row) => volume_without_amount(alloc, project, row),
        None => Ok(()),
    }
}

/// The row that a live operation would put is not countable.
pub(crate) fn claim_without_amount(
    alloc: Global,
    view: &StateRef<'_>,
    project: &Limited<'_>,
    work: &Task,
) -> Result<(), Or<Refusal>>
    ensures { Says result (claim_without_amount view.now project.now work.now) }
{
    claimed_instance_without_amount(alloc, view, project, work)?;
    claimed_volume_without_amount(alloc, project, work)
}

fn claims_without_amount(
    alloc: Global,
    view: &StateRef<'_>,
    project: &Limited<'_>,
    live: &[Operation<Task>],
) -> Result<(), Or<Refusal>>
    ensures { Says result (first_of (λ o. claim_without_amount view.now project.now o.work) live.now) }
{
    for operation in live {
        if let Err(why) = claim_without_amount(alloc, view, project, &operation.work) {
            return Err(why);
        }
    }
    Ok(())
}

/// The first instance of the project that is not countable. Instances of other projects are not asked.
fn own_instances_without_amount(
    alloc: Global,
    view: &StateRef<'_>,
    project: &Limited<'_>,
) -> Result<(), Or<Refusal>>
    ensures { Says result (first_of (own_instance view.now project.now) view.now.instances) }
{
    let rows = rows_of(view.instances, project.name().view());
    instances_without_amount(alloc, view, project, rows)
}

/// The first volume of the project that is not countable. Volumes of other projects are not asked.
fn own_volumes_without_amount(
    alloc: Global,
    view: &StateRef<'_>,
    project: &Limited<'_>,
) -> Result<(), Or<Refusal>>
    ensures { Says result (first_of (own_volume project.now) view.now.volumes) }
{
    let rows = rows_of(view.volumes, project.name().view());
    volumes_without_amount(alloc, project, rows)
}

fn objects_without_amount(
    alloc: Global,
    view: &StateRef<'_>,
    project: &Limited<'_>,
) -> Result<(), Or<Refusal>>
    ensures { Says result (own_objects view.now project.now) }
{
    own_instances_without_amount(alloc, view, project)?;
    own_volumes_without_amount(alloc, view, project)?;
    claims_without_amount(alloc, view, project, view.live)
}

/// L0 of a project: the first instance, volume or claim of it that gives no number for a sum that it limits, or no size
/// on a pool that it limits. Where it limits none, none is asked.
pub fn project_without_amount(
    alloc: Global,
    view: &StateRef<'_>,
    project: &Limited<'_>,
) -> Result<(), Or<Refusal>>
    ensures { Says result (project_without_amount view.now project.now) }
{
    if !project.needs_numbers() {
        return Ok(());
    }
    objects_without_amount(alloc, view, project)
}

/// L0 of all projects, each with its limits: the first of them, and there the first instance, volume or claim, that
/// gives no number for a sum that its project limits.
#[tactic(auto, unfolding(row_machine::specs::machine::LimitRules::counts_broken))]
pub fn counts_broken(
    alloc: Global,
    after: &StateRef<'_>,
    projects: &[Limited<'_>],
) -> Result<(), Or<Refusal>>
    requires { projects.now ≡ after.now.projects }
    ensures { Says result (counts_broken after.now) }
{
    for project in projects {
        if let Err(why) = project_without_amount(alloc, after, project) {
            return Err(why);
        }
    }
    Ok(())
}
