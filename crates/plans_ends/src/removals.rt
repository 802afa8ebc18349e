//! Changes that remove an instance with all its snapshots, or one snapshot.
ghost use Rattle.std.specs.Prelude.{◌≡◌, [], ◌∷◌, ◌++◌, IfOk, OnOk, map, filter, if◌then◌else◌, false};
ghost use Rattle.std.specs.Str.{bytes_eq};
ghost use Rattle.std.specs.Option.{option_to_list, option_copied};
ghost use Rattle.records.specs.declared.rows.Row.TheVariants as row_of;
ghost use Rattle.row_machine.specs.machine.Changes.{removal};
ghost use Rattle.row_machine.specs.machine.Rows.{snapshot_named};
ghost use Rattle.row_machine.specs.machine.Operations.{removes_instance};

use object_links::{three_names, two_names};
use records::{Instance, Snapshot};
use row_machine::{RowChange, Task};
use row_readings::{StateRef, rows_of};
use size_values::{Boxed, NoMemory, ObjectKind, Seq};
use std::alloc::Global;

/// The change that removes a snapshot.
fn snapshot_removal(alloc: Global, row: &Snapshot) -> Result<RowChange, NoMemory>
    ensures { IfOk result (λ c. c ≡ removal (row_of.Snapshot row.now)) }
{
    let key = three_names(alloc, &row.project, &row.instance, &row.name)?;
    Ok(RowChange::Remove(ObjectKind::Snapshot, key))
}

/// The change that removes an instance.
fn instance_removal(alloc: Global, row: &Instance) -> Result<RowChange, NoMemory>
    ensures { IfOk result (λ c. c ≡ removal (row_of.Instance row.now)) }
{
    let key = two_names(alloc, row.project.view(), row.name.view())?;
    Ok(RowChange::Remove(ObjectKind::Instance, key))
}

/// Whether a snapshot is one of the instance of this project and name.
pub(crate) fn is_of(row: &Snapshot, project: &str, instance: &str) -> bool
    ensures { result ≡
        (if bytes_eq row.now.project project.now then bytes_eq row.now.instance instance.now else false) }
{
    row.project.view() == project && row.instance.view() == instance
}

fn remove_snapshots(
    alloc: Global,
    snapshots: &[Boxed<Snapshot>],
    project: &str,
    instance: &str,
    changes: &mut Seq<RowChange>,
) -> Result<(), NoMemory>
    ensures { OnOk result (changes.new ≡ changes.old
        ++ map removal (map row_of.Snapshot
        (filter (λ r. if bytes_eq r.project project.now
        then bytes_eq r.instance instance.now else false) snapshots.now))) }
{
    for row in snapshots {
        if is_of(row, project, instance) {
            changes.push(snapshot_removal(alloc, row)?)?;
        }
    }
    Ok(())
}

/// Adds the removals of all snapshots of an instance. Those of other projects are not gone over.
fn remove_snapshots_of(
    alloc: Global,
    view: &StateRef<'_>,
    project: &str,
    instance: &str,
    changes: &mut Seq<RowChange>,
) -> Result<(), NoMemory>
    ensures { OnOk result (changes.new ≡ changes.old
        ++ map removal (map row_of.Snapshot
        (filter (λ r. if bytes_eq r.project project.now
        then bytes_eq r.instance instance.now else false) view.now.snapshots))) }
{
    let rows = rows_of(view.snapshots, project);
    remove_snapshots(alloc, rows, project, instance, changes)
}

fn remove_instance(
    alloc: Global,
    row: Option<&Instance>,
    changes: &mut Seq<RowChange>,
) -> Result<(), NoMemory>
    ensures { OnOk result (changes.new ≡ changes.old
        ++ map removal (map row_of.Instance (option_to_list (option_copied row.entry)))) }
{
    match row {
        Some(row) => changes.push(instance_removal(alloc, row)?),
        None => Ok(()),
    }
}

/// The removal of an instance, after those of all its snapshots.
pub(crate) fn removes_instance(
    alloc: Global,
    view: &StateRef<'_>,
    project: &str,
    name: &str,
) -> Result<Seq<RowChange>, NoMemory>
    ensures { IfOk result (λ cs. cs ≡ removes_instance view.now project.now name.now) }
{
    let mut changes = Seq::new(alloc);
    remove_snapshots_of(alloc, view, project, name, &mut changes)?;
    let row = view.instance_named(project, name);
    remove_instance(alloc, row, &mut changes)?;
    Ok(changes)
}

/// The removal of the snapshot that an operation is about, where there is one.
pub(crate) fn removes_snapshot(
    alloc: Global,
    view: &StateRef<'_>,
    work: &Task,
) -> Result<Seq<RowChange>, NoMemory>
    ensures { IfOk result (λ cs. cs ≡ map removal (map row_of.Snapshot (option_to_list
        (snapshot_named view.now.snapshots work.now.project work.now.target.instance work.now.target.name)))) }
{
    let of = &work.target;
    let project = work.project.view();
    let mut changes = Seq::new(alloc);
    if let Some(row) = view.snapshot_named(project, of.instance.view(), of.name.view()) {
        changes.push(snapshot_removal(alloc, row)?)?;
    }
    Ok(changes)
}
