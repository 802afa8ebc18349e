//! What projects use of the pools that they limit.
ghost use Rattle.std.specs.Prelude.{◌≡◌, ◌<◌, ◌^◌, IfOk, OnOk, filter, map};
ghost use Rattle.std.specs.List.{filter_map};
ghost use Rattle.std.specs.Str.{bytes_eq};
ghost use Rattle.plain_lists.specs.Members.{Each};
ghost use Rattle.expansion.specs.Layers.{nothing};
ghost use Rattle.project_limits.specs.Pools.{root_part};
ghost use Rattle.row_machine.specs.facts.Whole.{Rise};
ghost use Rattle.row_machine.specs.machine.Claims.{part_of_volume};
ghost use Rattle.row_machine.specs.machine.Usage.{loads, claim_load, instance_load, volume_load};
ghost use Rattle.row_readings.specs.Layered.{root_over};
ghost use Rattle.row_readings.specs.Loads.{AreSmall};
ghost use Rattle.row_readings.specs.PoolLimits.{limit_names, pool_sums, added, together, with_claim};
ghost use Rattle.row_readings.specs.PoolLimits.{AreSums};

use crate::amounts::{Load, project_of_row, share_of};
use crate::layers::lay_again;
use crate::named::Names;
use crate::places::{place_named, rows_of};
use crate::pool_limits::{PoolLimit, PoolLimits};
use crate::state_ref::StateRef;
use config_lists::Devices;
use expansion::Expanded;
use operations::Operation;
use project_limits::{disk_in, root_pool};
use records::{Instance, Volume};
use row_machine::Task;
use size_values::{Boxed, NoMemory, Seq, Text};
use std::alloc::Global;

// ---- one more part

/// A line of nothing for each limit.
fn no_sums(alloc: Global, limits: &[PoolLimit]) -> Result<Vec<u128>, NoMemory>
    ensures { IfOk result (λ sums. sums.items ≡ map (λ l. 0) limits.now) }
{
    let mut sums = Vec::new(alloc);
    for _limit in limits {
        sums.push(0)?;
    }
    Ok(sums)
}

/// Adds the bytes that something has on a pool to the line of its project there, which is found by binary search.
fn add_to_line(limits: &[PoolLimit], sums: &mut Vec<u128>, project: &str, pool: &str, disk: u128)
    requires rising { Rise limit_names limits.now }
    requires sums { AreSums limits.now sums.old.items }
    requires small { disk < 2 ^ 64 }
    ensures { sums.new.items
        ≡ added limits.now project.now (record { pool = pool.now; disk = disk }) sums.old.items }
{
    if disk == 0 {
        return;
    }
    let Ok(place) = place_named(limits, Names::Two(project, pool)) else {
        return;
    };
    let sum = &mut sums[place];
    *sum += disk;
}

// ---- all that counts

/// What loads have on each limited pool. All loads are walked once.
pub fn pool_sums(alloc: Global, loads: &[Load], limits: &PoolLimits) -> Result<Seq<u128>, NoMemory>
    requires { AreSmall loads.now }
    ensures { IfOk result (λ sums. sums ≡ pool_sums loads.now limits.now) }
{
    let lines = limits.view();
    let mut sums = no_sums(alloc, lines)?;
    for load in loads {
        add_to_line(
            lines,
            &mut sums,
            load.project.view(),
            load.on.pool.view(),
            load.on.disk,
        );
    }
    Ok(Seq::from_vec(sums))
}

// ---- instances

/// Adds what these devices have on the pool of the one root disk.
#[tactic(auto, unfolding(project_limits::specs::Pools::root_part))]
fn add_root_of(project: &str, devices: &Devices, limits: &[PoolLimit], sums: &mut Vec<u128>)
    requires rising { Rise limit_names limits.now }
    requires sums { AreSums limits.now sums.old.items }
    ensures { sums.new.items ≡ added limits.now project.now (root_part devices.now) sums.old.items }
{
    if let Some(pool) = root_pool(devices) {
        let disk = u128::from(disk_in(devices).unwrap_or(0));
        add_to_line(limits, sums, project, pool, disk);
    }
}

/// Adds what an instance has on a pool over what its profiles lay. Only where it has devices of its own, devices are
/// copied.
fn add_root(
    row: &Instance,
    below: &Expanded,
    limits: &[PoolLimit],
    sums: &mut Vec<u128>,
) -> Result<(), NoMemory>
    requires rising { Rise limit_names limits.now }
    requires sums { AreSums limits.now sums.old.items }
    ensures { OnOk result (sums.new.items
        ≡ added limits.now row.now.project (root_over below.now row.now) sums.old.items) }
{
    if row.devices.len() == 0 {
        add_root_of(row.project.view(), &below.devices, limits, sums);
        return Ok(());
    }
    let devices = below.devices.replaced(&row.devices)?;
    add_root_of(row.project.view(), &devices, limits, sums);
    drop(devices);
    Ok(())
}

/// Whether an instance is of the project.
fn is_of(row: &Instance, project: &str) -> bool
    ensures { result ≡ bytes_eq row.now.project project.now }
{
    row.project.view() == project
}

/// What the instances of the project have. What the profiles of one lay is kept for the next one.
fn sums_of_instances(
    alloc: Global,
    view: &StateRef<'_>,
    rows: &[Boxed<Instance>],
    project: &str,
    limits: &[PoolLimit],
    expanded: &mut Expanded,
) -> Result<Vec<u128>, NoMemory>
    requires rising { Rise limit_names limits.now }
    requires bare { expanded.old ≡ nothing }
    ensures sums { IfOk result (λ sums. AreSums limits.now sums.items) }
    ensures table { IfOk result (λ sums. sums.items ≡ pool_sums
        (map (instance_load view.now) (filter (λ row. bytes_eq row.project project.now) rows.now)) limits.now) }
{
    let home = view.profile_home(project);
    let mut last: &[Text] = &[];
    let mut sums = no_sums(alloc, limits)?;
    for row in rows {
        let row: &Instance = row;
        if !is_of(row, project) {
            continue;
        }
        let names = row.profiles.view();
        lay_again(alloc, view, home, last, names, expanded)?;
        last = names;
        add_root(row, expanded, limits, &mut sums)?;
    }
    Ok(sums)
}

fn instance_sums(
    alloc: Global,
    view: &StateRef<'_>,
    rows: &[Boxed<Instance>],
    project: &str,
    limits: &[PoolLimit],
) -> Result<Vec<u128>, NoMemory>
    requires { Rise limit_names limits.now }
    ensures sums { IfOk result (λ sums. AreSums limits.now sums.items) }
    ensures table { IfOk result (λ sums. sums.items ≡ pool_sums
        (map (instance_load view.now) (filter (λ row. bytes_eq row.project project.now) rows.now)) limits.now) }
{
    let mut expanded = Expanded::new(alloc);
    let sums = sums_of_instances(alloc, view, rows, project, limits, &mut expanded);
    drop(expanded);
    sums
}

// ---- volumes

#[tactic(auto, unfolding(project_limits::specs::Pools::sized_part, project_limits::specs::Instance::volume_amounts))]
fn add_volume(row: &Volume, limits: &[PoolLimit], sums: &mut Vec<u128>)
    requires rising { Rise limit_names limits.now }
    requires sums { AreSums limits.now sums.old.items }
    ensures { sums.new.items ≡ added limits.now row.now.project (part_of_volume row.now) sums.old.items }
{
    let disk = project_limits::volume_amounts(&row.config).disk;
    add_to_line(limits, sums, row.project.view(), row.pool.view(), disk);
}

fn volume_sums(
    alloc: Global,
    rows: &[Boxed<Volume>],
    limits: &[PoolLimit],
) -> Result<Vec<u128>, NoMemory>
    requires { Rise limit_names limits.now }
    ensures sums { IfOk result (λ sums. AreSums limits.now sums.items) }
    ensures table { IfOk result (λ sums. sums.items ≡ pool_sums (map volume_load rows.now) limits.now) }
{
    let mut sums = no_sums(alloc, limits)?;
    for row in rows {
        add_volume(row, limits, &mut sums);
    }
    Ok(sums)
}

// ---- live operations

/// The share of an operation counts for the project of its claimed row.
fn add_claim(
    alloc: Global,
    view: &StateRef<'_>,
    work: &Task,
    limits: &[PoolLimit],
    sums: &mut Vec<u128>,
) -> Result<(), NoMemory>
    requires rising { Rise limit_names limits.now }
    requires sums { AreSums limits.now sums.old.items }
    ensures { OnOk result (sums.new.items ≡ with_claim limits.now (claim_load view.now work.now) sums.old.items) }
{
    let Some(new) = &work.claim else {
        return Ok(());
    };
    let share = share_of(alloc, view, work)?;
    add_to_line(
        limits,
        sums,
        project_of_row(new),
        share.on.pool.view(),
        share.on.disk,
    );
    Ok(())
}

fn claim_sums(
    alloc: Global,
    view: &StateRef<'_>,
    live: &[Operation<Task>],
    limits: &[PoolLimit],
) -> Result<Vec<u128>, NoMemory>
    requires { Rise limit_names limits.now }
    ensures sums { IfOk result (λ sums. AreSums limits.now sums.items) }
    ensures table { IfOk result (λ sums. sums.items
        ≡ pool_sums (filter_map (λ o. claim_load view.now o.work) live.now) limits.now) }
{
    let mut sums = no_sums(alloc, limits)?;
    for operation in live {
        add_claim(alloc, view, &operation.work, limits, &mut sums)?;
    }
    Ok(sums)
}

// ---- together

/// Three sums of each line together.
fn together(
    alloc: Global,
    limits: &[PoolLimit],
    some: &[u128],
    more: &[u128],
    others: &[u128],
) -> Result<Seq<u128>, NoMemory>
    requires some { AreSums limits.now some.now }
    requires more { AreSums limits.now more.now }
    requires others { AreSums limits.now others.now }
    ensures { IfOk result (λ sums. sums ≡ together some.now more.now others.now) }
{
    let mut sums = Vec::new(alloc);
    for place in 0..limits.len() {
        let of_rows = some[place] + more[place];
        let all = of_rows + others[place];
        sums.push(all)?;
    }
    Ok(Seq::from_vec(sums))
}

/// What a project uses of the pools that it limits, with what live operations claim: the sums over its own rows and
/// claims, each walked once. No list of them is made. The only error is that there is no memory.
pub fn pool_uses(
    alloc: Global,
    view: &StateRef<'_>,
    project: &str,
    limits: &PoolLimits,
) -> Result<Seq<u128>, NoMemory>
    requires { Each (λ limit. limit.project ≡ project.now) limits.now }
    ensures { IfOk result (λ sums. sums ≡ pool_sums (loads view.now) limits.now) }
{
    let lines = limits.view();
    let instances = rows_of(view.instances, project);
    let of_instances = instance_sums(alloc, view, instances, project, lines)?;
    let of_volumes = volume_sums(alloc, rows_of(view.volumes, project), lines)?;
    let of_claims = claim_sums(alloc, view, view.live, lines)?;
    together(alloc, lines, &of_instances, &of_volumes, &of_claims)
}
