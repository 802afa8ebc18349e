//! What notices tell of objects and of operations.
ghost use Rattle.std.specs.Prelude.{◌≡◌, IfOk};
ghost use Rattle.row_machine.specs.shown.Notices.{life_notice, project_told, view_of};

use crate::urls::url_of;
use operations::Operation;
use records::{EventBody, Life, OpView, Target, Untold};
use row_machine::Task;
use size_values::{NoMemory, ObjectKind, Text};
use std::alloc::Global;

/// The project that the notice of an object has: `default` for pools and projects, which belong to none.
fn project_told<'x>(project: &'x str, kind: ObjectKind) -> &'x str
    ensures { result.now ≡ project_told project.now kind }
{
    match kind {
        ObjectKind::Project | ObjectKind::Pool => "default",
        ObjectKind::Profile
        | ObjectKind::Network
        | ObjectKind::Volume
        | ObjectKind::Instance
        | ObjectKind::Snapshot
        | ObjectKind::Operation => project,
    }
}

/// The lifecycle event of an action on an object that belongs to a project
/// (<https://linuxcontainers.org/incus/docs/main/events/>). The moment is in seconds since 1970.
pub fn life_notice(
    alloc: Global,
    moment: u64,
    project: &str,
    of: &Target,
    action: Life,
) -> Result<Untold, NoMemory>
    ensures { IfOk result (λ n. n ≡ life_notice moment project.now of.now action) }
{
    let source = url_of(alloc, project, of)?;
    let project = Text::from_text(alloc, project_told(project, of.kind))?;
    Ok(Untold {
        moment,
        project,
        body: EventBody::Life { action, source },
    })
}

/// How an operation is shown.
pub fn view_of(alloc: Global, operation: &Operation<Task>) -> Result<OpView, NoMemory>
    ensures { IfOk result (λ v. v ≡ view_of operation.now) }
{
    let project = operation.work.project.copy(alloc)?;
    let target = operation.work.target.copy(alloc)?;
    Ok(OpView {
        number: operation.number,
        status: operation.status,
        may_cancel: operation.may_cancel,
        created: operation.created,
        updated: operation.updated,
        fault: operation.fault,
        project,
        target,
    })
}
