//! How a row is shown.
ghost use Rattle.std.specs.Prelude.{◌≡◌, Ok, IfOk, map, unwrap_or};
ghost use Rattle.size_values.specs.declared.kinds.Power.TheVariants as power_of_kind;
ghost use Rattle.row_machine.specs.machine.StandingRules.{power_of};
ghost use Rattle.row_machine.specs.shown.Views.{instance_view, row_view};

use object_users::{RowRef, used_by};
use records::{AnyRow, Instance, View};
use row_readings::{StateRef, power_of};
use size_values::{NoMemory, Power, Seq};
use std::alloc::Global;

fn shown_power(view: &StateRef<'_>, row: &Instance) -> Power
    ensures { result ≡ unwrap_or (power_of view.now row.now.project row.now.name) power_of_kind.Stopped }
{
    match power_of(view, row.project.view(), row.name.view()) {
        Some(power) => power,
        None => Power::Stopped,
    }
}

/// An instance with what it has and its status.
fn instance_view(alloc: Global, view: &StateRef<'_>, row: &Instance) -> Result<View, NoMemory>
    ensures { IfOk result (λ v. v ≡ instance_view view.now row.now) }
{
    let power = shown_power(view, row);
    let (expanded, row) = both(view.expansion(alloc, row), row.copy(alloc))?;
    Ok(View::Instance {
        row,
        config: expanded.config,
        devices: expanded.devices,
        power,
    })
}

/// Two parts of a view, where memory was refused for neither.
fn both<A: Drop, B: Drop>(
    first: Result<A, NoMemory>,
    second: Result<B, NoMemory>,
) -> Result<(A, B), NoMemory>
    ensures { IfOk result (λ pair. (first ≡ Ok pair.0) × (second ≡ Ok pair.1)) }
{
    let first = first?;
    let second = second?;
    Ok((first, second))
}

/// How a row is shown.
pub(crate) fn row_view(
    alloc: Global,
    view: &StateRef<'_>,
    row: &RowRef<'_>,
) -> Result<View, NoMemory>
    ensures { IfOk result (λ v. v ≡ row_view view.now row.now) }
{
    match row.row {
        AnyRow::Project(project) => {
            let (project, users) = both(project.copy(alloc), used_by(alloc, view, row))?;
            Ok(View::Project(project, users))
        }
        AnyRow::Profile(profile) => {
            let (profile, users) = both(profile.copy(alloc), used_by(alloc, view, row))?;
            Ok(View::Profile(profile, users))
        }
        AnyRow::Network(network) => {
            let (network, users) = both(network.copy(alloc), used_by(alloc, view, row))?;
            Ok(View::Network(network, users))
        }
        AnyRow::Pool(pool) => {
            let (pool, users) = both(pool.copy(alloc), used_by(alloc, view, row))?;
            Ok(View::Pool(pool, users))
        }
        AnyRow::Volume(volume) => {
            let (volume, users) = both(volume.copy(alloc), used_by(alloc, view, row))?;
            Ok(View::Volume(volume, users))
        }
        AnyRow::Instance(instance) => instance_view(alloc, view, instance),
        AnyRow::Snapshot(snapshot) => Ok(View::Snapshot(snapshot.copy(alloc)?)),
    }
}

/// How rows are shown.
pub(crate) fn row_views(
    alloc: Global,
    view: &StateRef<'_>,
    rows: &[RowRef<'_>],
) -> Result<Seq<View>, NoMemory>
    ensures { IfOk result (λ vs. vs ≡ map (row_view view.now) rows.now) }
{
    let mut views = Seq::new(alloc);
    for row in rows {
        views.push(row_view(alloc, view, row)?)?;
    }
    Ok(views)
}
