//! The users of an object: the rows that name it, or that belong to it.
ghost use Rattle.std.specs.Prelude.{◌≡◌, ◌++◌, [], IfOk, OnOk, map, filter};
ghost use Rattle.records.specs.declared.rows.Row.TheVariants as row;
ghost use Rattle.row_machine.specs.machine.Holders.{instance_uses, names_profile, profile_uses, volume_uses};
ghost use Rattle.row_machine.specs.shown.Urls.{sorted, target_of};
ghost use Rattle.row_machine.specs.shown.Views.{urls, rows_in, rows_using, used_by};

use crate::at_home::rows_that_may_use;
use crate::gathered::{add_instances, add_networks, add_profiles, add_volumes};
use crate::row_ref::RowRef;
use crate::row_urls::{sorted_urls, target_of};
use crate::uses::{instance_uses, names_profile, profile_uses, volume_uses};
use records::{AnyRow, Instance, Profile, Target};
use row_readings::{StateRef, rows_at_home, rows_of};
use size_values::{Boxed, NoMemory, ObjectKind, Seq, Text};
use std::alloc::Global;

/// The instances, networks, volumes and profiles of a project.
fn rows_in<'x>(
    alloc: Global,
    view: &StateRef<'x>,
    project: &str,
) -> Result<Vec<RowRef<'x>>, NoMemory>
    ensures { IfOk result (λ all. all.items ≡ rows_in view.now project.now) }
{
    let mut all = Vec::new(alloc);
    add_instances(rows_of(view.instances, project), &mut all)?;
    add_networks(rows_of(view.networks, project), &mut all)?;
    add_volumes(rows_of(view.volumes, project), &mut all)?;
    add_profiles(rows_of(view.profiles, project), &mut all)?;
    Ok(all)
}

/// Those of these instances that name the profile of this home and name.
fn naming_among<'x>(
    alloc: Global,
    view: &StateRef<'x>,
    home: &str,
    profile: &str,
    rows: &'x [Boxed<Instance>],
) -> Result<Vec<RowRef<'x>>, NoMemory>
    ensures { IfOk result (λ all. all.items
        ≡ map row.Instance (filter (names_profile view.now home.now profile.now) rows.now)) }
{
    let mut all = Vec::new(alloc);
    for row in rows {
        if names_profile(view, home, profile, row) {
            all.push(RowRef {
                row: AnyRow::Instance(row),
            })?;
        }
    }
    Ok(all)
}

/// The instances that name the profile of this home and name. Those of projects that can't have this home are not gone
/// over.
fn instances_naming<'x>(
    alloc: Global,
    view: &StateRef<'x>,
    home: &str,
    profile: &str,
) -> Result<Vec<RowRef<'x>>, NoMemory>
    ensures { IfOk result (λ all. all.items
        ≡ map row.Instance (filter (names_profile view.now home.now profile.now) view.now.instances)) }
{
    let rows = rows_at_home(view.instances, home);
    naming_among(alloc, view, home, profile, rows)
}

/// Adds those of these instances that name the object.
fn add_instances_among<'x>(
    alloc: Global,
    view: &StateRef<'x>,
    home: &str,
    of: &Target,
    rows: &'x [Boxed<Instance>],
    all: &mut Vec<RowRef<'x>>,
) -> Result<(), NoMemory>
    ensures { OnOk result (all.new.items ≡ all.old.items
        ++ map row.Instance (filter (instance_uses view.now home.now of.now) rows.now)) }
{
    for row in rows {
        if instance_uses(alloc, view, home, of, row)? {
            all.push(RowRef {
                row: AnyRow::Instance(row),
            })?;
        }
    }
    Ok(())
}

/// Adds the instances that name the object. Those of projects that can't have its home are not gone over.
fn add_using_instances<'x>(
    alloc: Global,
    view: &StateRef<'x>,
    home: &str,
    of: &Target,
    all: &mut Vec<RowRef<'x>>,
) -> Result<(), NoMemory>
    ensures { OnOk result (all.new.items ≡ all.old.items
        ++ map row.Instance (filter (instance_uses view.now home.now of.now) view.now.instances)) }
{
    let rows = rows_that_may_use(view.instances, home, of);
    add_instances_among(alloc, view, home, of, rows, all)
}

/// Adds those of these profiles that name the object.
fn add_profiles_among<'x>(
    view: &StateRef<'x>,
    home: &str,
    of: &Target,
    rows: &'x [Boxed<Profile>],
    all: &mut Vec<RowRef<'x>>,
) -> Result<(), NoMemory>
    ensures { OnOk result (all.new.items ≡ all.old.items
        ++ map row.Profile (filter (profile_uses view.now home.now of.now) rows.now)) }
{
    for row in rows {
        if profile_uses(view, home, of, row) {
            all.push(RowRef {
                row: AnyRow::Profile(row),
            })?;
        }
    }
    Ok(())
}

/// Adds the profiles that name the object. Those of projects that can't have its home are not gone over.
fn add_using_profiles<'x>(
    view: &StateRef<'x>,
    home: &str,
    of: &Target,
    all: &mut Vec<RowRef<'x>>,
) -> Result<(), NoMemory>
    ensures { OnOk result (all.new.items ≡ all.old.items
        ++ map row.Profile (filter (profile_uses view.now home.now of.now) view.now.profiles)) }
{
    let rows = rows_that_may_use(view.profiles, home, of);
    add_profiles_among(view, home, of, rows, all)
}

fn add_volumes_of<'x>(
    view: &StateRef<'x>,
    of: &Target,
    all: &mut Vec<RowRef<'x>>,
) -> Result<(), NoMemory>
    ensures { OnOk result (all.new.items ≡ all.old.items
        ++ map row.Volume (filter (volume_uses of.now) view.now.volumes)) }
{
    for row in view.volumes {
        if volume_uses(of, row) {
            all.push(RowRef {
                row: AnyRow::Volume(row),
            })?;
        }
    }
    Ok(())
}

/// The volumes of a pool. Nothing else is used by volumes, so for it they are not gone over: a list
/// of volumes with their users would cost the square of their number.
fn add_using_volumes<'x>(
    view: &StateRef<'x>,
    of: &Target,
    all: &mut Vec<RowRef<'x>>,
) -> Result<(), NoMemory>
    ensures { OnOk result (all.new.items ≡ all.old.items
        ++ map row.Volume (filter (volume_uses of.now) view.now.volumes)) }
{
    match of.kind {
        ObjectKind::Pool => add_volumes_of(view, of, all),
        ObjectKind::Project
        | ObjectKind::Profile
        | ObjectKind::Network
        | ObjectKind::Volume
        | ObjectKind::Instance
        | ObjectKind::Snapshot
        | ObjectKind::Operation => Ok(()),
    }
}

/// The instances and profiles that name a network, pool or volume, and the volumes of a pool.
fn rows_using<'x>(
    alloc: Global,
    view: &StateRef<'x>,
    home: &str,
    of: &Target,
) -> Result<Vec<RowRef<'x>>, NoMemory>
    ensures { IfOk result (λ all. all.items ≡ rows_using view.now home.now of.now) }
{
    let mut all = Vec::new(alloc);
    add_using_instances(alloc, view, home, of, &mut all)?;
    add_using_profiles(view, home, of, &mut all)?;
    add_using_volumes(view, of, &mut all)?;
    Ok(all)
}

/// The URLs of the rows that name a row, in byte order.
fn urls_using(
    alloc: Global,
    view: &StateRef<'_>,
    home: &str,
    row: &RowRef<'_>,
) -> Result<Seq<Text>, NoMemory>
    ensures { IfOk result (λ ts. ts ≡ sorted (urls (rows_using view.now home.now (target_of row.now)))) }
{
    let of = target_of(alloc, row)?;
    let using = rows_using(alloc, view, home, &of);
    drop(of);
    sorted_urls(alloc, &using?)
}

/// The URLs of the rows of a project, in byte order.
fn urls_in(alloc: Global, view: &StateRef<'_>, project: &str) -> Result<Seq<Text>, NoMemory>
    ensures { IfOk result (λ ts. ts ≡ sorted (urls (rows_in view.now project.now))) }
{
    let rows = rows_in(alloc, view, project)?;
    sorted_urls(alloc, &rows)
}

/// The URLs of the instances that name a profile, in byte order.
fn urls_naming(
    alloc: Global,
    view: &StateRef<'_>,
    home: &str,
    profile: &str,
) -> Result<Seq<Text>, NoMemory>
    ensures { IfOk result (λ ts. ts
        ≡ sorted (urls (map row.Instance (filter (names_profile view.now home.now profile.now) view.now.instances)))) }
{
    let rows = instances_naming(alloc, view, home, profile)?;
    sorted_urls(alloc, &rows)
}

/// The URLs of the users of a row, in byte order. Rows count, claims do not.
#[tactic(auto, unfolding(row_machine::specs::shown::Views::used_by))]
pub fn used_by(alloc: Global, view: &StateRef<'_>, row: &RowRef<'_>) -> Result<Seq<Text>, NoMemory>
    ensures { IfOk result (λ ts. ts ≡ used_by view.now row.now) }
{
    match row.row {
        AnyRow::Project(project) => urls_in(alloc, view, project.name.view()),
        AnyRow::Profile(profile) => {
            urls_naming(alloc, view, profile.project.view(), profile.name.view())
        }
        AnyRow::Network(network) => urls_using(alloc, view, network.project.view(), row),
        AnyRow::Pool(_) => urls_using(alloc, view, "", row),
        AnyRow::Volume(volume) => urls_using(alloc, view, volume.project.view(), row),
        AnyRow::Instance(_) => Ok(Seq::new(alloc)),
        AnyRow::Snapshot(_) => Ok(Seq::new(alloc)),
    }
}
