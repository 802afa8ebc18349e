//! A kept notice. What is told of an operation is kept in place, so no memory is taken for it.
ghost use Rattle.std.specs.Prelude.{◌≡◌, ◌&&◌, nat_le, IfOk};
ghost use Rattle.event_hub.specs.Contents.{content_of};
ghost use Rattle.event_hub.specs.Recent.{is_wanted, numbered};
ghost use Rattle.event_hub.specs.Telling.{told_by, view_by};
ghost use Rattle.row_machine.specs.shown.Notices.{takes_event};

use crate::progress::Progress;
use crate::short_target::ShortTarget;
use crate::short_text::ShortText;
use records::{EventBody, Filter, Notice, OpView, Untold};
use size_values::NoMemory;
use std::alloc::Global;
use std::marker::Model;

/// What a notice tells: whole, or of an operation, with its project and its target.
#[derive(Drop)]
pub(crate) enum Content {
    Whole(Untold),
    Operation(Progress, ShortText, ShortTarget),
}

/// A kept notice. Contracts see it as the notice.
#[derive(Drop)]
pub(crate) struct Slot {
    number: u64,
    content: Content,
}

impl Model for Slot {
    ghost use Rattle.records.specs.declared.notices.Notice.{Notice};

    ghost Value = { Notice };

    ghost use Rattle.event_hub.specs.Slots.{notice_in};

    ghost view = { notice_in };
}

/// Whether a listener takes notices of what this one tells.
fn is_taken(body: &EventBody, filter: &Filter) -> bool
    ensures { result ≡ takes_event filter.now body.now }
{
    match body {
        EventBody::Life { .. } => filter.life,
        EventBody::Op(_) => filter.op,
    }
}

/// The view of an operation as it was.
fn view_by(
    alloc: Global,
    at: &Progress,
    project: &ShortText,
    target: &ShortTarget,
) -> Result<OpView, NoMemory>
    ensures { IfOk result (λ v. v ≡ view_by at.now project.now target.now) }
{
    let project = project.text(alloc)?;
    let target = target.target(alloc)?;
    Ok(OpView {
        number: at.number,
        status: at.status,
        may_cancel: at.may_cancel,
        created: at.created,
        updated: at.updated,
        fault: at.fault,
        project,
        target,
    })
}

/// The notice of an operation as it was.
fn operation_notice(
    alloc: Global,
    number: u64,
    at: &Progress,
    project: &ShortText,
    target: &ShortTarget,
) -> Result<Notice, NoMemory>
    ensures { IfOk result (λ n. n ≡ numbered number (told_by at.now project.now target.now)) }
{
    let view = view_by(alloc, at, project, target)?;
    let project = project.text(alloc)?;
    Ok(Notice {
        number,
        moment: at.moment,
        project,
        body: EventBody::Op(view),
    })
}

/// The notice of a number that tells this.
fn whole_notice(alloc: Global, number: u64, untold: &Untold) -> Result<Notice, NoMemory>
    ensures { IfOk result (λ n. n ≡ numbered number untold.now) }
{
    let body = untold.body.copy(alloc)?;
    let project = untold.project.copy(alloc)?;
    Ok(Notice {
        number,
        moment: untold.moment,
        project,
        body,
    })
}

impl Slot {
    /// The notice of a number that tells this.
    pub(crate) fn of(number: u64, content: Content) -> Slot
        ensures { result ≡ numbered number (content_of content) }
    {
        Slot { number, content }
    }

    /// The number of the notice.
    pub(crate) fn number(&self) -> u64
        ensures { result ≡ self.now.number }
    {
        self.number
    }

    /// Whether a listener that asks from a number on takes the notice.
    pub(crate) fn is_wanted(&self, cursor: u64, filter: &Filter) -> bool
        ensures { result ≡ is_wanted cursor filter.now self.now }
    {
        if self.number < cursor {
            return false;
        }
        match &self.content {
            Content::Whole(untold) => {
                untold.project.is(&filter.project) && is_taken(&untold.body, filter)
            }
            Content::Operation(_, project, _) => project.is(&filter.project) && filter.op,
        }
    }

    /// A notice of its own.
    pub(crate) fn notice(&self, alloc: Global) -> Result<Notice, NoMemory>
        ensures { IfOk result (λ n. n ≡ self.now) }
    {
        match &self.content {
            Content::Whole(untold) => whole_notice(alloc, self.number, untold),
            Content::Operation(at, project, target) => {
                operation_notice(alloc, self.number, at, project, target)
            }
        }
    }
}
