//! What creations begin.
ghost use Rattle.std.specs.Prelude.{◌≡◌, IfOk};
ghost use Rattle.row_machine.specs.machine.Plans.{plan_create};
ghost use Rattle.plans_tasks.specs.Begun.{task_in};

use crate::snapshots::plan_snapshot;
use crate::tasks::instance_creation;
use crate::volumes::plan_volume;
use records::{Body, Target};
use row_machine::Task;
use row_readings::StateRef;
use size_values::{NoMemory, ObjectKind, Text};
use std::alloc::Global;

/// What a creation begins: those of instances and snapshots, and of copies of volumes, are no changes at once.
pub(crate) fn plan_create(
    alloc: Global,
    view: &StateRef<'_>,
    project: &Text,
    of: &Target,
    body: &Body,
    moment: u64,
) -> Result<Option<Task>, NoMemory>
    ensures { IfOk result (λ w. w ≡ task_in (plan_create view.now project.now of.now body.now moment)) }
{
    match of.kind {
        ObjectKind::Instance => instance_creation(alloc, view, project, of, body, moment),
        ObjectKind::Snapshot => plan_snapshot(alloc, view, project, of, moment),
        ObjectKind::Volume => {
            let home = view.volume_home(project.view());
            plan_volume(alloc, view, home, of, body, moment)
        }
        _ => Ok(None),
    }
}
