//! Changes that put the row of an operation in place of an instance of another name.
ghost use Rattle.std.specs.Prelude.{◌≡◌, [], ◌∷◌, ◌++◌, IfOk, OnOk, map, filter, if◌then◌else◌, false};
ghost use Rattle.std.specs.Str.{bytes_eq};
ghost use Rattle.records.specs.declared.rows.Row.TheVariants as row_of;
ghost use Rattle.row_machine.specs.declared.changes.RowChange.TheVariants as change;
ghost use Rattle.row_machine.specs.machine.Operations.{renames_instance};

use crate::removals::{is_of, removes_instance};
use records::{Instance, Row, Snapshot};
use row_machine::{RowChange, Task};
use row_readings::{StateRef, rows_of};
use size_values::{Boxed, NoMemory, Seq, Text};
use std::alloc::Global;

/// A snapshot as one of another instance.
fn moved_to_instance(row: Snapshot, project: Text, instance: Text) -> Snapshot
    ensures { result ≡ record row { project = project; instance = instance } }
{
    Snapshot {
        project,
        instance,
        name: row.name,
        created: row.created,
        expires: row.expires,
        profiles: row.profiles,
        config: row.config,
        devices: row.devices,
    }
}

/// The change that puts a snapshot as one of another instance.
fn snapshot_moved(alloc: Global, row: &Snapshot, to: &Instance) -> Result<RowChange, NoMemory>
    ensures { IfOk result (λ c. c ≡ change.Put (row_of.Snapshot
        (record row.now { instance = to.now.name; project = to.now.project }))) }
{
    let project = to.project.copy(alloc)?;
    let instance = to.name.copy(alloc)?;
    let copy = row.copy(alloc)?;
    Ok(RowChange::Put(Row::Snapshot(Boxed::new(
        alloc,
        moved_to_instance(copy, project, instance),
    )?)))
}

fn put_instance(alloc: Global, row: &Instance, changes: &mut Seq<RowChange>) -> Result<(), NoMemory>
    ensures { OnOk result (changes.new ≡ changes.old ++ change.Put (row_of.Instance row.now) ∷ []) }
{
    let row = row.copy(alloc)?;
    changes.push(RowChange::Put(Row::Instance(Boxed::new(alloc, row)?)))
}

/// Puts an instance, and the snapshots of the one whose place it takes as its own.
fn put_moved(
    alloc: Global,
    snapshots: &[Boxed<Snapshot>],
    project: &str,
    instance: &str,
    to: &Instance,
    changes: &mut Seq<RowChange>,
) -> Result<(), NoMemory>
    ensures { OnOk result (changes.new ≡ changes.old
        ++ map change.Put (row_of.Instance to.now
        ∷ map (λ r. row_of.Snapshot (record r { instance = to.now.name; project = to.now.project }))
        (filter (λ r. if bytes_eq r.project project.now
        then bytes_eq r.instance instance.now else false) snapshots.now))) }
{
    put_instance(alloc, to, changes)?;
    for row in snapshots {
        if is_of(row, project, instance) {
            changes.push(snapshot_moved(alloc, row, to)?)?;
        }
    }
    Ok(())
}

/// Puts an instance, and the snapshots of the one whose place it takes. Those of other projects are not gone over.
fn put_moved_of(
    alloc: Global,
    view: &StateRef<'_>,
    project: &str,
    instance: &str,
    to: &Instance,
    changes: &mut Seq<RowChange>,
) -> Result<(), NoMemory>
    ensures { OnOk result (changes.new ≡ changes.old
        ++ map change.Put (row_of.Instance to.now
        ∷ map (λ r. row_of.Snapshot (record r { instance = to.now.name; project = to.now.project }))
        (filter (λ r. if bytes_eq r.project project.now
        then bytes_eq r.instance instance.now else false) view.now.snapshots))) }
{
    let rows = rows_of(view.snapshots, project);
    put_moved(alloc, rows, project, instance, to, changes)
}

/// A row takes the place of the instance that an operation is about, and the snapshots go with it.
pub(crate) fn renames_instance(
    alloc: Global,
    view: &StateRef<'_>,
    work: &Task,
    to: &Instance,
) -> Result<Seq<RowChange>, NoMemory>
    ensures { IfOk result (λ cs. cs ≡ renames_instance view.now work.now to.now) }
{
    let project = work.project.view();
    let name = work.target.name.view();
    let mut changes = removes_instance(alloc, view, project, name)?;
    put_moved_of(alloc, view, project, name, to, &mut changes)?;
    Ok(changes)
}
