//! Notices that wait to be taken. A step of an operation takes no memory, so what it tells waits in a short form.
ghost use Rattle.std.specs.Prelude.{◌≡◌, IfOk};
ghost use Rattle.std.specs.Option.{option_copied};
ghost use Rattle.core_reports.specs.Waiting.{told_by, project_shown, target_shown, no_target};
ghost use Rattle.core_reports.specs.declared.waiting.Waiting.TheVariants as waiting_of;

use operations::{OpFault, Operation, Status};
use records::{EventBody, OpView, Target, Untold};
use row_machine::Task;
use row_readings::{StateRef, kept_at};
use size_values::{NoMemory, ObjectKind, Text};
use std::alloc::Global;

/// An operation as a notice of this moment shows it. Its project and its target are read off the kept operation.
#[derive(Clone, Copy)]
pub struct Shown {
    pub moment: u64,
    pub number: u64,
    pub status: Status,
    pub may_cancel: bool,
    pub created: u64,
    pub updated: u64,
    pub fault: OpFault,
}

/// A notice that waits to be taken: whole, or an operation as it was then.
#[derive(Drop)]
pub enum Waiting {
    Whole(Untold),
    Shown(Shown),
}

/// The target of an operation that is not kept.
fn no_target(alloc: Global) -> Target
    ensures { result ≡ no_target }
{
    Target {
        kind: ObjectKind::Operation,
        pool: Text::new(alloc),
        instance: Text::new(alloc),
        name: Text::new(alloc),
    }
}

/// The project of an operation.
fn project_shown(alloc: Global, kept: Option<&Operation<Task>>) -> Result<Text, NoMemory>
    ensures { IfOk result (λ t. t ≡ project_shown (option_copied kept.entry)) }
{
    match kept {
        Some(operation) => operation.work.project.copy(alloc),
        None => Ok(Text::new(alloc)),
    }
}

/// The target of an operation.
fn target_shown(alloc: Global, kept: Option<&Operation<Task>>) -> Result<Target, NoMemory>
    ensures { IfOk result (λ t. t ≡ target_shown (option_copied kept.entry)) }
{
    match kept {
        Some(operation) => operation.work.target.copy(alloc),
        None => Ok(no_target(alloc)),
    }
}

/// The notice that shows an operation.
fn notice_shown(alloc: Global, view: &StateRef<'_>, shown: Shown) -> Result<Untold, NoMemory>
    ensures { IfOk result (λ n. n ≡ told_by view.now.operations (waiting_of.Shown shown)) }
{
    let kept = kept_at(view, shown.number);
    let home = project_shown(alloc, kept)?;
    let project = project_shown(alloc, kept)?;
    let target = target_shown(alloc, kept)?;
    Ok(Untold {
        moment: shown.moment,
        project: home,
        body: EventBody::Op(OpView {
            number: shown.number,
            status: shown.status,
            may_cancel: shown.may_cancel,
            created: shown.created,
            updated: shown.updated,
            fault: shown.fault,
            project,
            target,
        }),
    })
}

fn copy_notice(alloc: Global, notice: &Untold) -> Result<Untold, NoMemory>
    ensures { IfOk result (λ n. n ≡ notice.now) }
{
    let project = notice.project.copy(alloc)?;
    let body = notice.body.copy(alloc)?;
    Ok(Untold {
        moment: notice.moment,
        project,
        body,
    })
}

/// A notice that waits, of its own.
pub fn told_by(alloc: Global, view: &StateRef<'_>, waiting: &Waiting) -> Result<Untold, NoMemory>
    ensures { IfOk result (λ n. n ≡ told_by view.now.operations waiting.now) }
{
    match waiting {
        Waiting::Whole(notice) => copy_notice(alloc, notice),
        Waiting::Shown(shown) => notice_shown(alloc, view, *shown),
    }
}
