//! What changes of instances begin: a PUT, a rename and a restore.
ghost use Rattle.std.specs.Prelude.{◌≡◌, IfOk};
ghost use Rattle.row_machine.specs.machine.NewRows.{put_instance};
ghost use Rattle.row_machine.specs.machine.Plans.{if_there, row_of, plan_put, plan_move, plan_restore};
ghost use Rattle.row_machine.specs.machine.Tasks.{update_task, rename_task, restore_task};
ghost use Rattle.plans_tasks.specs.Begun.{task_in};

use crate::calls::{apply_calls, rename_calls, restore_calls};
use crate::finds::instance_at;
use crate::pairs::both;
use crate::plain_tasks::{replacing_task, target_and_replaced};
use crate::rows::{put_instance, renamed_instance, restored_instance};
use records::{Body, Instance, Snapshot, Target};
use row_machine::Task;
use row_readings::StateRef;
use size_values::{Boxed, Deed, NoMemory, Text};
use std::alloc::Global;

/// The host is told what the changed instance has.
fn update_task(
    alloc: Global,
    view: &StateRef<'_>,
    project: &Text,
    of: &Target,
    body: &Body,
    old: &Instance,
) -> Result<Task, NoMemory>
    ensures { IfOk result (λ w. w ≡ update_task view.now project.now of.now (put_instance old.now body.now)) }
{
    let row = Boxed::new(alloc, put_instance(alloc, old, body)?)?;
    let calls = apply_calls(alloc, view, project, &of.name, &row);
    let made = both(Ok(row), calls);
    let (about, made) = both(target_and_replaced(alloc, project, of), made)?;
    Ok(replacing_task(Deed::Update, about, made.0, made.1))
}

/// An instance gets another name.
fn rename_task(
    alloc: Global,
    project: &Text,
    of: &Target,
    to: &Text,
    old: &Instance,
) -> Result<Task, NoMemory>
    ensures { IfOk result (λ w. w ≡ rename_task project.now of.now to.now old.now) }
{
    let calls = rename_calls(alloc, project, &of.name, to);
    let made = both(Boxed::of(alloc, renamed_instance(alloc, old, to)), calls);
    let (about, made) = both(target_and_replaced(alloc, project, of), made)?;
    Ok(replacing_task(Deed::Rename, about, made.0, made.1))
}

/// An instance is taken back to its snapshot.
fn restore_task(
    alloc: Global,
    project: &Text,
    of: &Target,
    old: &Instance,
    snapshot: &Snapshot,
) -> Result<Task, NoMemory>
    ensures { IfOk result (λ w. w ≡ restore_task project.now of.now old.now snapshot.now) }
{
    let calls = restore_calls(alloc, project, &of.name, &snapshot.name);
    let made = both(
        Boxed::of(alloc, restored_instance(alloc, old, snapshot)),
        calls,
    );
    let (about, made) = both(target_and_replaced(alloc, project, of), made)?;
    Ok(replacing_task(Deed::Restore, about, made.0, made.1))
}

/// What a PUT begins: of an instance an update, of other objects nothing.
pub(crate) fn plan_put(
    alloc: Global,
    view: &StateRef<'_>,
    project: &Text,
    of: &Target,
    body: &Body,
) -> Result<Option<Task>, NoMemory>
    ensures { IfOk result (λ w. w ≡ task_in
        (if_there (plan_put view.now project.now of.now body.now) (row_of view.now project.now of.now))) }
{
    let Some(old) = instance_at(view, project, of) else {
        return Ok(None);
    };
    let work = update_task(alloc, view, project, of, body, old)?;
    Ok(Some(work))
}

/// What a rename begins: only that of an instance is no change at once.
pub(crate) fn plan_move(
    alloc: Global,
    view: &StateRef<'_>,
    project: &Text,
    of: &Target,
    to: &Text,
) -> Result<Option<Task>, NoMemory>
    ensures { IfOk result (λ w. w ≡ task_in
        (if_there (plan_move view.now project.now of.now to.now) (row_of view.now project.now of.now))) }
{
    let Some(old) = instance_at(view, project, of) else {
        return Ok(None);
    };
    let work = rename_task(alloc, project, of, to, old)?;
    Ok(Some(work))
}

/// What the restore of an instance begins.
pub(crate) fn plan_restore(
    alloc: Global,
    view: &StateRef<'_>,
    project: &Text,
    of: &Target,
    name: &Text,
    old: &Instance,
) -> Result<Option<Task>, NoMemory>
    ensures { IfOk result (λ w. w ≡ task_in (plan_restore view.now project.now of.now name.now old.now)) }
{
    let found = view.snapshot_named(project.view(), of.name.view(), name.view());
    let Some(snapshot) = found else {
        return Ok(None);
    };
    let work = restore_task(alloc, project, of, old, snapshot)?;
    Ok(Some(work))
}
