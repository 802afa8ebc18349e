//! What the creation of a snapshot begins.
ghost use Rattle.std.specs.Prelude.{◌≡◌, ◌==◌, IfOk, Some, length, if◌then◌else◌};
ghost use Rattle.std.specs.Option.{option_copied};
ghost use Rattle.host_model.specs.declared.call.HostCall.TheVariants as call;
ghost use Rattle.records.specs.declared.rows.Row.TheVariants as row_of;
ghost use Rattle.size_values.specs.declared.kinds.Deed.TheVariants as deed;
ghost use Rattle.row_machine.specs.machine.Asked.{next_snapshot, with_name};
ghost use Rattle.row_machine.specs.machine.NewRows.{made_snapshot};
ghost use Rattle.row_machine.specs.machine.Plans.{if_there, starts};
ghost use Rattle.row_machine.specs.machine.Rows.{instance_named};
ghost use Rattle.row_machine.specs.machine.Tasks.{plain_task, snapshot_creation};
ghost use Rattle.plans_tasks.specs.Begun.{task_in};

use crate::calls::{snap_calls, snapshot_place};
use crate::pairs::both;
use crate::plain_tasks::project_and_target;
use crate::rows::copied_parts;
use host_model::{HostCall, Place};
use records::{Instance, Row, Snapshot, Target};
use row_machine::Task;
use row_readings::{StateRef, next_snapshot};
use size_values::{Boxed, Deed, NoMemory, Seq, Text};
use std::alloc::Global;

/// A new snapshot of an instance.
fn made_snapshot(
    alloc: Global,
    row: &Instance,
    name: &Text,
    moment: u64,
) -> Result<Snapshot, NoMemory>
    ensures { IfOk result (λ r. r ≡ made_snapshot row.now name.now moment) }
{
    let names = both(row.project.copy(alloc), row.name.copy(alloc));
    let names = both(names, name.copy(alloc));
    let parts = copied_parts(alloc, &row.profiles, &row.config, &row.devices);
    let (names, parts) = both(names, parts)?;
    let of = names.0;
    Ok(Snapshot {
        project: of.0,
        instance: of.1,
        name: names.1,
        created: moment,
        expires: 0,
        profiles: parts.profiles,
        config: parts.config,
        devices: parts.devices,
    })
}

/// The name that a new snapshot of an instance gets: where the request gives none, the next one.
fn name_of(
    alloc: Global,
    view: &StateRef<'_>,
    of: &Target,
    row: &Instance,
) -> Result<Text, NoMemory>
    ensures { IfOk result (λ t. t
        ≡ (if length of.now.name == 0 then next_snapshot view.now row.now else of.now.name)) }
{
    if of.name.is_empty() {
        next_snapshot(alloc, view, row)
    } else {
        of.name.copy(alloc)
    }
}

/// The new snapshot under its name.
fn with_name(
    alloc: Global,
    view: &StateRef<'_>,
    of: &Target,
    row: &Instance,
) -> Result<Target, NoMemory>
    ensures { IfOk result (λ t. t
        ≡ (if length of.now.name == 0
        then record of.now { name = next_snapshot view.now row.now } else of.now)) }
{
    let (of, name) = both(of.copy(alloc), name_of(alloc, view, of, row))?;
    Ok(Target { name, ..of })
}

/// The operation that makes a snapshot, which its undoing takes away.
fn snapshot_task(
    about: (Text, Target),
    row: Boxed<Snapshot>,
    calls: Seq<HostCall>,
    place: (Place, Text),
) -> Task
    ensures { result
        ≡ record (plain_task deed.Snap about.0 about.1 calls) {
          claim = Some (row_of.Snapshot row);
          undo = Some (call.Unsnap place.0 place.1);
        } }
{
    Task {
        deed: Deed::Snap,
        project: about.0,
        target: about.1,
        claim: Some(Row::Snapshot(row)),
        replaces: None,
        source: None,
        calls,
        undo: Some(HostCall::Unsnap {
            at: place.0,
            name: place.1,
        }),
        done: 0,
    }
}

/// A snapshot of this name is made of an instance.
fn snapshot_creation(
    alloc: Global,
    project: &Text,
    of: &Target,
    row: &Instance,
    moment: u64,
) -> Result<Task, NoMemory>
    ensures { IfOk result (λ w. w ≡ snapshot_creation project.now of.now moment row.now) }
{
    let names = both(
        project_and_target(alloc, project, of),
        snapshot_place(alloc, project, of),
    );
    let made = Boxed::of(alloc, made_snapshot(alloc, row, &of.name, moment));
    let made = both(made, snap_calls(alloc, project, of));
    let (names, made) = both(names, made)?;
    Ok(snapshot_task(names.0, made.0, made.1, names.1))
}

/// What the creation of a snapshot begins, where its instance is there.
pub(crate) fn plan_snapshot(
    alloc: Global,
    view: &StateRef<'_>,
    project: &Text,
    of: &Target,
    moment: u64,
) -> Result<Option<Task>, NoMemory>
    ensures { IfOk result (λ w. w ≡ task_in
        (if_there (λ i. starts (snapshot_creation project.now (with_name view.now project.now of.now) moment i))
        (instance_named view.now.instances project.now of.now.instance))) }
{
    let Some(row) = view.instance_named(project.view(), of.instance.view()) else {
        return Ok(None);
    };
    let of = with_name(alloc, view, of, row)?;
    let work = snapshot_creation(alloc, project, &of, row, moment);
    drop(of);
    Ok(Some(work?))
}
