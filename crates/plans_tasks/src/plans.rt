//! What each command begins in the background.
ghost use Rattle.std.specs.Prelude.{◌≡◌, IfOk};
ghost use Rattle.row_machine.specs.machine.Plans.{plan_of, if_there, starts, plan_restore};
ghost use Rattle.row_machine.specs.machine.Rows.{instance_named};
ghost use Rattle.row_machine.specs.machine.Tasks.{act_task};
ghost use Rattle.plans_tasks.specs.Begun.{task_in};

use crate::acts::act_task;
use crate::changes::{plan_move, plan_put, plan_restore};
use crate::creations::plan_create;
use crate::deletions::plan_delete;
use records::{Command, Target, What};
use row_machine::Task;
use row_readings::StateRef;
use size_values::{Action, NoMemory, Text};
use std::alloc::Global;

/// What a change of an instance's state begins.
fn plan_act(
    alloc: Global,
    view: &StateRef<'_>,
    project: &Text,
    of: &Target,
    action: Action,
) -> Result<Option<Task>, NoMemory>
    ensures { IfOk result (λ w. w ≡ task_in
        (if_there (λ i. starts (act_task view.now project.now of.now action i))
        (instance_named view.now.instances project.now of.now.name))) }
{
    let Some(row) = view.instance_named(project.view(), of.name.view()) else {
        return Ok(None);
    };
    let work = act_task(alloc, view, project, of, action, row)?;
    Ok(Some(work))
}

/// What a restore begins.
fn plan_return(
    alloc: Global,
    view: &StateRef<'_>,
    project: &Text,
    of: &Target,
    snapshot: &Text,
) -> Result<Option<Task>, NoMemory>
    ensures { IfOk result (λ w. w ≡ task_in
        (if_there (plan_restore view.now project.now of.now snapshot.now)
        (instance_named view.now.instances project.now of.now.name))) }
{
    match view.instance_named(project.view(), of.name.view()) {
        Some(row) => plan_restore(alloc, view, project, of, snapshot, row),
        None => Ok(None),
    }
}

/// What a command begins in the background; nothing where it is a read, a cancel or a change at once, or where what it
/// speaks of is missing. The moment is in seconds since 1970.
#[tactic(auto, unfolding(row_machine::specs::machine::Plans::plan_of))]
pub fn plan_task(
    alloc: Global,
    view: &StateRef<'_>,
    command: &Command,
    moment: u64,
) -> Result<Option<Task>, NoMemory>
    ensures { IfOk result (λ w. w ≡ task_in (plan_of view.now command.now moment)) }
{
    let project = &command.project;
    match &command.what {
        What::Create { of, body } => plan_create(alloc, view, project, of, body, moment),
        What::Put { of, body } => plan_put(alloc, view, project, of, body),
        What::Move { of, to } => plan_move(alloc, view, project, of, to),
        What::Delete { of } => plan_delete(alloc, view, project, of),
        What::Act { of, action } => plan_act(alloc, view, project, of, *action),
        What::Restore { of, snapshot } => plan_return(alloc, view, project, of, snapshot),
        _ => Ok(None),
    }
}
