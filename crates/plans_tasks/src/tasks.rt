//! What the creation of an instance does in the background, and the row that it claims.
ghost use Rattle.std.specs.Prelude.{◌≡◌, IfOk, Some};
ghost use Rattle.std.specs.Option.{option_copied};
ghost use Rattle.size_values.specs.declared.kinds.Deed.TheVariants as deed;
ghost use Rattle.host_model.specs.declared.call.HostCall.TheVariants as call;
ghost use Rattle.records.specs.declared.rows.Row.TheVariants as row_of;
ghost use Rattle.row_machine.specs.machine.NewRows.{source_instance, source_snapshot};
ghost use Rattle.row_machine.specs.machine.HostCalls.{place_of, create_calls, copy_calls};
ghost use Rattle.row_machine.specs.machine.Plans.{instance_target};
ghost use Rattle.row_machine.specs.machine.Plans.{snapshot_target, copy_from, instance_creation};
ghost use Rattle.row_machine.specs.machine.Tasks.{plain_task, creation_task, copy};
ghost use Rattle.plans_tasks.specs.Planned.{planned};

use crate::creation_calls::{copy_calls, create_calls, place_of};
use crate::making::{Source, copied_instance, image_of, made_instance};
use crate::pairs::both;
use host_model::{HostCall, Place};
use records::{Body, Instance, Origin, Row, Snapshot, Target};
use row_machine::Task;
use row_readings::StateRef;
use size_values::{Boxed, Deed, NoMemory, ObjectKind, Seq, Text};
use std::alloc::Global;

/// What a task is about, where the new root will stand, and the calls that make it.
#[derive(Drop)]
struct Begun {
    project: Text,
    target: Target,
    at: Place,
    calls: Seq<HostCall>,
}

/// The same, with calls that are made.
fn begun_with(
    alloc: Global,
    project: &Text,
    of: &Target,
    at: Place,
    calls: Seq<HostCall>,
) -> Result<Begun, NoMemory>
    ensures { IfOk result (λ b. b ≡ record { project = project.now; target = of.now; at = at; calls = calls }) }
{
    match both(project.copy(alloc), of.copy(alloc)) {
        Ok(about) => Ok(Begun {
            project: about.0,
            target: about.1,
            at,
            calls,
        }),
        Err(error) => {
            drop(at);
            drop(calls);
            Err(error)
        }
    }
}

/// What makes a new instance of an image, or an empty one.
fn begin_from_image(
    alloc: Global,
    project: &Text,
    of: &Target,
    image: &str,
) -> Result<Begun, NoMemory>
    ensures { IfOk result (λ b. b
        ≡ record {
          project = project.now;
          target = of.now;
          at = place_of project.now of.now.name;
          calls = create_calls (place_of project.now of.now.name) image.now;
        }) }
{
    let at = place_of(alloc, project, &of.name)?;
    let calls = create_calls(alloc, &at, image);
    let (at, calls) = both(Ok(at), calls)?;
    begun_with(alloc, project, of, at, calls)
}

/// What makes a copy of the root of an instance of the project, or of its snapshot.
fn begin_from_root(
    alloc: Global,
    project: &Text,
    of: &Target,
    instance: &Text,
    snapshot: &str,
) -> Result<Begun, NoMemory>
    ensures { IfOk result (λ b. b
        ≡ record {
          project = project.now;
          target = of.now;
          at = place_of project.now of.now.name;
          calls = copy_calls (place_of project.now instance.now) snapshot.now (place_of project.now of.now.name);
        }) }
{
    let at = place_of(alloc, project, &of.name);
    let (at, from) = both(at, place_of(alloc, project, instance))?;
    let calls = copy_calls(alloc, &from, snapshot, &at);
    drop(from);
    let (at, calls) = both(Ok(at), calls)?;
    begun_with(alloc, project, of, at, calls)
}

/// The task of a creation or of a copy, which claims this row.
fn claiming_task(deed: Deed, begun: Begun, row: Boxed<Instance>, source: Option<Target>) -> Task
    ensures { result
        ≡ record (plain_task deed begun.project begun.target begun.calls) {
          claim = Some (row_of.Instance row);
          source = source;
          undo = Some (call.Clear begun.at);
        } }
{
    Task {
        deed,
        project: begun.project,
        target: begun.target,
        claim: Some(Row::Instance(row)),
        replaces: None,
        source,
        calls: begun.calls,
        undo: Some(HostCall::Clear { at: begun.at }),
        done: 0,
    }
}

/// The creation of an instance from nothing or from an image.
fn creation_task(
    alloc: Global,
    project: &Text,
    of: &Target,
    body: &Body,
    moment: u64,
) -> Result<Task, NoMemory>
    ensures { IfOk result (λ w. w ≡ creation_task project.now of.now body.now moment) }
{
    let begun = begin_from_image(alloc, project, of, image_of(&body.origin));
    let row = Boxed::of(alloc, made_instance(alloc, project, &of.name, body, moment));
    let (begun, row) = both(begun, row)?;
    Ok(claiming_task(Deed::Create, begun, row, None))
}

fn instance_target(alloc: Global, name: &Text) -> Result<Target, NoMemory>
    ensures { IfOk result (λ t. t ≡ instance_target name.now) }
{
    let name = name.copy(alloc)?;
    Ok(Target {
        kind: ObjectKind::Instance,
        pool: Text::new(alloc),
        instance: Text::new(alloc),
        name,
    })
}

fn snapshot_target(alloc: Global, instance: &Text, name: &Text) -> Result<Target, NoMemory>
    ensures { IfOk result (λ t. t ≡ snapshot_target instance.now name.now) }
{
    let instance = instance.copy(alloc)?;
    let name = name.copy(alloc)?;
    Ok(Target {
        kind: ObjectKind::Snapshot,
        pool: Text::new(alloc),
        instance,
        name,
    })
}

fn instance_copy(
    alloc: Global,
    project: &Text,
    of: &Target,
    body: &Body,
    moment: u64,
    from: &Text,
    old: &Instance,
) -> Result<Task, NoMemory>
    ensures { IfOk result (λ w. w
        ≡ copy project.now of.now body.now moment (instance_target from.now) (source_instance old.now)) }
{
    let source = Source {
        kind: old.kind,
        profiles: &old.profiles,
        config: &old.config,
        devices: &old.devices,
    };
    let begun = begin_from_root(alloc, project, of, from, "");
    let row = copied_instance(alloc, project, &of.name, body, moment, &source);
    let row = Boxed::of(alloc, row);
    let (made, target) = both(both(begun, row), instance_target(alloc, from))?;
    Ok(claiming_task(Deed::Copy, made.0, made.1, Some(target)))
}

/// A copy of a snapshot of an instance.
fn snapshot_copy(
    alloc: Global,
    project: &Text,
    of: &Target,
    body: &Body,
    moment: u64,
    from: &Text,
    old: &Instance,
    snapshot: &Snapshot,
    name: &Text,
) -> Result<Task, NoMemory>
    ensures { IfOk result (λ w. w
        ≡ copy project.now of.now body.now moment (snapshot_target from.now name.now)
        (source_snapshot old.now snapshot.now)) }
{
    let source = Source {
        kind: old.kind,
        profiles: &snapshot.profiles,
        config: &snapshot.config,
        devices: &snapshot.devices,
    };
    let begun = begin_from_root(alloc, project, of, from, name.view());
    let row = copied_instance(alloc, project, &of.name, body, moment, &source);
    let row = Boxed::of(alloc, row);
    let (made, target) = both(both(begun, row), snapshot_target(alloc, from, name))?;
    Ok(claiming_task(Deed::Copy, made.0, made.1, Some(target)))
}

/// A copy from an instance, or from its snapshot where one is named.
fn copy_from(
    alloc: Global,
    view: &StateRef<'_>,
    project: &Text,
    of: &Target,
    body: &Body,
    moment: u64,
    from: &Text,
    name: &Text,
) -> Result<Option<Task>, NoMemory>
    ensures { IfOk result (λ w. planned w ≡ copy_from view.now project.now of.now body.now moment from.now name.now) }
{
    let Some(old) = view.instance_named(project.view(), from.view()) else {
        return Ok(None);
    };
    if name.is_empty() {
        let work = instance_copy(alloc, project, of, body, moment, from, old)?;
        return Ok(Some(work));
    }
    let found = view.snapshot_named(project.view(), from.view(), name.view());
    let Some(snapshot) = found else {
        return Ok(None);
    };
    let work = snapshot_copy(alloc, project, of, body, moment, from, old, snapshot, name)?;
    Ok(Some(work))
}

/// What the creation of an instance begins: nothing, where what it is copied from is missing.
pub fn instance_creation(
    alloc: Global,
    view: &StateRef<'_>,
    project: &Text,
    of: &Target,
    body: &Body,
    moment: u64,
) -> Result<Option<Task>, NoMemory>
    ensures { IfOk result (λ w. planned w
        ≡ instance_creation view.now project.now of.now body.now moment body.now.origin) }
{
    match &body.origin {
        Origin::None => {
            let work = creation_task(alloc, project, of, body, moment)?;
            Ok(Some(work))
        }
        Origin::Image(_) => {
            let work = creation_task(alloc, project, of, body, moment)?;
            Ok(Some(work))
        }
        Origin::Copy { from, snapshot, .. } => copy_from(
            alloc, view, project, of, body, moment, from, snapshot,
        ),
    }
}
