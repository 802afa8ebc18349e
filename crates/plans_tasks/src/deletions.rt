//! What deletions begin: those of instances and of snapshots.
ghost use Rattle.std.specs.Prelude.{◌≡◌, IfOk};
ghost use Rattle.row_machine.specs.machine.Plans.{if_there, row_of, plan_delete};
ghost use Rattle.row_machine.specs.machine.Tasks.{deletion_task, snapshot_deletion};
ghost use Rattle.plans_tasks.specs.Begun.{task_in};

use crate::calls::{clear_calls, unsnap_calls};
use crate::finds::{instance_at, snapshot_at};
use crate::pairs::both;
use crate::plain_tasks::{plain_task, project_and_target};
use records::Target;
use row_machine::Task;
use row_readings::StateRef;
use size_values::{Deed, NoMemory, Text};
use std::alloc::Global;

/// An instance is deleted.
fn deletion_task(alloc: Global, project: &Text, of: &Target) -> Result<Task, NoMemory>
    ensures { IfOk result (λ w. w ≡ deletion_task project.now of.now) }
{
    let calls = clear_calls(alloc, project, &of.name);
    let (about, calls) = both(project_and_target(alloc, project, of), calls)?;
    Ok(plain_task(Deed::Delete, about, calls))
}

/// A snapshot is deleted.
fn snapshot_deletion(alloc: Global, project: &Text, of: &Target) -> Result<Task, NoMemory>
    ensures { IfOk result (λ w. w ≡ snapshot_deletion project.now of.now) }
{
    let calls = unsnap_calls(alloc, project, of);
    let (about, calls) = both(project_and_target(alloc, project, of), calls)?;
    Ok(plain_task(Deed::Unsnap, about, calls))
}

/// What a deletion begins.
pub(crate) fn plan_delete(
    alloc: Global,
    view: &StateRef<'_>,
    project: &Text,
    of: &Target,
) -> Result<Option<Task>, NoMemory>
    ensures { IfOk result (λ w. w ≡ task_in
        (if_there (plan_delete view.now project.now of.now) (row_of view.now project.now of.now))) }
{
    if instance_at(view, project, of).is_some() {
        let work = deletion_task(alloc, project, of)?;
        return Ok(Some(work));
    }
    if snapshot_at(view, project, of).is_some() {
        let work = snapshot_deletion(alloc, project, of)?;
        return Ok(Some(work));
    }
    Ok(None)
}
