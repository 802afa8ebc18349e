//! What instances, volumes and live operations count for in their projects, and the sums of it.
ghost use Rattle.std.specs.Prelude.{◌≡◌, ◌<◌, ◌^◌, ◌++◌, IfOk, OnOk, map};
ghost use Rattle.std.specs.List.{filter_map, sum_by};
ghost use Rattle.std.specs.Option.{option_copied, option_to_list};
ghost use Rattle.size_values.specs.Amounts.{part};
ghost use Rattle.size_values.specs.declared.amounts.Part.{Part};
ghost use Rattle.project_limits.specs.Pools.{root_part};
ghost use Rattle.row_machine.specs.machine.Claims.{project_of_row, share_of};
ghost use Rattle.row_machine.specs.machine.Usage.{loads, instance_load, volume_load, claim_load, amount_for};
ghost use Rattle.row_readings.specs.Footprints.{no_footprint, footprint_above, instance_footprint, volume_footprint};
ghost use Rattle.row_readings.specs.Footprints.{row_footprint, footprint_over, share_footprint};
ghost use Rattle.row_readings.specs.Loads.{AreSmall};

use crate::claims::replaced_instance;
use crate::state_ref::StateRef;
use config_lists::Devices;
use operations::Operation;
use project_limits::{disk_in, root_pool};
use records::{Instance, Row, Volume};
use row_machine::Task;
use size_values::{Amounts, Boxed, NoMemory, PoolPart, Text};
use std::alloc::Global;
use std::marker::Model;

/// What an instance, a volume or an operation counts for: amounts, and of their disk what is on a storage pool.
#[derive(Drop)]
pub struct Footprint {
    pub amounts: Amounts,
    pub on: PoolPart,
}

impl Footprint {
    /// Nothing. It takes no memory.
    pub fn none(alloc: Global) -> Footprint
        ensures { result ≡ no_footprint }
    {
        Footprint {
            amounts: Amounts::zero(),
            on: PoolPart::none(alloc),
        }
    }

    /// By how much it is above another one, part by part and on its pool.
    pub fn above(self, other: &Footprint) -> Footprint
        ensures { result ≡ footprint_above self other.now }
    {
        Footprint {
            amounts: self.amounts.excess(&other.amounts),
            on: self.on.above(&other.on),
        }
    }
}

/// What counts for the limits of a project: amounts, and of their disk what is on a storage pool.
#[derive(Drop)]
pub struct Load {
    pub project: Text,
    pub amounts: Amounts,
    pub on: PoolPart,
}

impl Model for Load {
    ghost use Rattle.row_machine.specs.machine.Usage.{Load as LoadValue};

    ghost Value = { LoadValue };

    ghost view = { λ l. record { project = l.project; amounts = l.amounts; on = l.on } };
}

impl Load {
    /// What it adds to what this project uses.
    fn amounts_for(&self, project: &str) -> Amounts
        ensures { (k : Part) → part k result ≡ amount_for project.now k self.now }
    {
        if self.project.view() == project {
            self.amounts
        } else {
            Amounts::zero()
        }
    }
}

// ---- what each counts for

/// What an instance counts for. What it has by its profiles is laid once for all of it.
#[tactic(auto, unfolding(row_machine::specs::machine::Claims::amounts_of_instance, row_machine::specs::machine::Claims::part_of_instance))]
pub fn footprint_of_instance(
    alloc: Global,
    view: &StateRef<'_>,
    row: &Instance,
) -> Result<Footprint, NoMemory>
    ensures { IfOk result (λ f. f ≡ instance_footprint view.now row.now) }
{
    let expanded = view.expansion(alloc, row)?;
    let amounts = project_limits::amounts_of(row.kind, &expanded.config, &expanded.devices);
    let on = part_of_root(alloc, &expanded.devices);
    drop(expanded);
    Ok(Footprint { amounts, on: on? })
}

/// What the one root disk of these devices has on its pool.
#[tactic(auto, unfolding(project_limits::specs::Pools::root_part))]
fn part_of_root(alloc: Global, devices: &Devices) -> Result<PoolPart, NoMemory>
    ensures { IfOk result (λ p. p ≡ root_part devices.now) }
{
    match root_pool(devices) {
        Some(pool) => Ok(PoolPart {
            pool: Text::from_text(alloc, pool)?,
            disk: u128::from(disk_in(devices).unwrap_or(0)),
        }),
        None => Ok(PoolPart::none(alloc)),
    }
}

/// What a volume counts for.
#[tactic(auto, unfolding(project_limits::specs::Pools::sized_part, project_limits::specs::Instance::volume_amounts))]
fn footprint_of_volume(alloc: Global, row: &Volume) -> Result<Footprint, NoMemory>
    ensures { IfOk result (λ f. f ≡ volume_footprint row.now) }
{
    let amounts = project_limits::volume_amounts(&row.config);
    let on = PoolPart {
        pool: row.pool.copy(alloc)?,
        disk: amounts.disk,
    };
    Ok(Footprint { amounts, on })
}

fn footprint_of_row(alloc: Global, view: &StateRef<'_>, row: &Row) -> Result<Footprint, NoMemory>
    ensures { IfOk result (λ f. f ≡ row_footprint view.now row.now) }
{
    match row {
        Row::Instance(row) => footprint_of_instance(alloc, view, row),
        Row::Volume(row) => footprint_of_volume(alloc, row),
        Row::Project(_) | Row::Profile(_) | Row::Network(_) | Row::Pool(_) | Row::Snapshot(_) => Ok(
            Footprint::none(alloc),
        ),
    }
}

/// The project that a row belongs to.
pub fn project_of_row(row: &Row) -> &str
    ensures { result.now ≡ project_of_row row.now }
{
    match row {
        Row::Project(row) => row.name.view(),
        Row::Profile(row) => row.project.view(),
        Row::Network(row) => row.project.view(),
        Row::Pool(_) => "",
        Row::Volume(row) => row.project.view(),
        Row::Instance(row) => row.project.view(),
        Row::Snapshot(row) => row.project.view(),
    }
}

/// By how much a claimed row is above the one that it replaces in its own project.
fn footprint_over(
    alloc: Global,
    view: &StateRef<'_>,
    new: &Row,
    old: Option<&Instance>,
) -> Result<Footprint, NoMemory>
    ensures { IfOk result (λ f. f ≡ footprint_over view.now new.now (option_copied old.entry)) }
{
    let Some(old) = old else {
        return footprint_of_row(alloc, view, new);
    };
    if old.project.view() == project_of_row(new) {
        let before = footprint_of_instance(alloc, view, old)?;
        let after = footprint_of_row(alloc, view, new)?;
        Ok(after.above(&before))
    } else {
        footprint_of_row(alloc, view, new)
    }
}

/// What the claimed row of an operation adds to the usage of that row's project, by the rows as they stand: its share.
#[tactic(auto, unfolding(row_machine::specs::machine::Claims::share_of, row_machine::specs::machine::Claims::part_of_share))]
pub fn share_of(alloc: Global, view: &StateRef<'_>, work: &Task) -> Result<Footprint, NoMemory>
    ensures { IfOk result (λ f. f ≡ share_footprint view.now work.now) }
{
    match &work.claim {
        Some(new) => footprint_over(alloc, view, new, replaced_instance(view, work)),
        None => Ok(Footprint::none(alloc)),
    }
}

/// The amounts of that share.
pub(crate) fn amounts_of_share(
    alloc: Global,
    view: &StateRef<'_>,
    work: &Task,
) -> Result<Amounts, NoMemory>
    ensures { IfOk result (λ a. a ≡ share_of view.now work.now) }
{
    let share = share_of(alloc, view, work)?;
    Ok(share.amounts)
}

// ---- all that counts

/// All that counts: instances, volumes, and the shares of live operations.
pub fn loads(alloc: Global, view: &StateRef<'_>) -> Result<Vec<Load>, NoMemory>
    ensures loads { IfOk result (λ all. all.items ≡ loads view.now) }
    ensures small { IfOk result (λ all. AreSmall all.items) }
{
    let mut all = Vec::new(alloc);
    add_instances(alloc, view, view.instances, &mut all)?;
    add_volumes(alloc, view.volumes, &mut all)?;
    add_claims(alloc, view, view.live, &mut all)?;
    Ok(all)
}

fn instance_load(alloc: Global, view: &StateRef<'_>, row: &Instance) -> Result<Load, NoMemory>
    ensures { IfOk result (λ l. l ≡ instance_load view.now row.now) }
{
    let project = row.project.copy(alloc)?;
    let footprint = footprint_of_instance(alloc, view, row)?;
    Ok(Load {
        project,
        amounts: footprint.amounts,
        on: footprint.on,
    })
}

fn add_instances(
    alloc: Global,
    view: &StateRef<'_>,
    rows: &[Boxed<Instance>],
    all: &mut Vec<Load>,
) -> Result<(), NoMemory>
    ensures { OnOk result (all.new.items ≡ all.old.items ++ map (instance_load view.now) rows.now) }
{
    for row in rows {
        all.push(instance_load(alloc, view, row)?)?;
    }
    Ok(())
}

fn volume_load(alloc: Global, row: &Volume) -> Result<Load, NoMemory>
    ensures { IfOk result (λ l. l ≡ volume_load row.now) }
{
    let project = row.project.copy(alloc)?;
    let footprint = footprint_of_volume(alloc, row)?;
    Ok(Load {
        project,
        amounts: footprint.amounts,
        on: footprint.on,
    })
}

fn add_volumes(alloc: Global, rows: &[Boxed<Volume>], all: &mut Vec<Load>) -> Result<(), NoMemory>
    ensures { OnOk result (all.new.items ≡ all.old.items ++ map volume_load rows.now) }
{
    for row in rows {
        all.push(volume_load(alloc, row)?)?;
    }
    Ok(())
}

fn add_claims(
    alloc: Global,
    view: &StateRef<'_>,
    live: &[Operation<Task>],
    all: &mut Vec<Load>,
) -> Result<(), NoMemory>
    ensures { OnOk result (all.new.items ≡ all.old.items ++ filter_map (λ o. claim_load view.now o.work) live.now) }
{
    for operation in live {
        add_claim(alloc, view, &operation.work, all)?;
    }
    Ok(())
}

/// An operation counts for the project of its claimed row, with its share.
fn add_claim(
    alloc: Global,
    view: &StateRef<'_>,
    work: &Task,
    all: &mut Vec<Load>,
) -> Result<(), NoMemory>
    ensures { OnOk result (all.new.items ≡ all.old.items ++ option_to_list (claim_load view.now work.now)) }
{
    let Some(new) = &work.claim else {
        return Ok(());
    };
    let project = Text::from_text(alloc, project_of_row(new))?;
    let share = share_of(alloc, view, work)?;
    all.push(Load {
        project,
        amounts: share.amounts,
        on: share.on,
    })?;
    Ok(())
}

/// What a project uses, of all that counts.
pub fn usage_in(loads: &[Load], project: &str) -> Amounts
    requires { AreSmall loads.now }
    ensures sums { (k : Part) → part k result ≡ sum_by (amount_for project.now k) loads.now }
    ensures few { (k : Part) → part k result < 2 ^ 126 }
{
    let mut used = Amounts::zero();
    for load in loads {
        used = used.plus(&load.amounts_for(project));
    }
    used
}
