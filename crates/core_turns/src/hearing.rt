//! What is told of the rows goes to the hub of notices. It takes no memory.
ghost use Rattle.std.specs.Prelude.{◌≡◌, []};
ghost use Rattle.std.specs.Option.{option_copied};
ghost use Rattle.event_hub.specs.Recent.{all_pushed, pushed};
ghost use Rattle.event_hub.specs.Telling.{IsShort, object_in};
ghost use Rattle.core_turns.specs.ShortTasks.{AreShort, IsShortTask};
ghost use Rattle.operations.specs.OperationTable.{kept_at};
ghost use Rattle.core_instances.specs.core_reports.specs.Waiting.{IsSilent, project_shown, target_shown, told_by};
ghost use Rattle.core_turns.specs.Hearing.{IsAbout, progress_of};

use core_instances::{Estate, Shown, Waiting};
use event_hub::{About, Hub, Progress};
use row_machine::Task;
use row_readings::{StateRef, kept_at};
use size_values::ObjectKind;

/// What an operation is about.
fn about_work(work: &Task) -> About<'_>
    requires short { IsShortTask work.now }
    ensures project { result.project.now ≡ work.now.project }
    ensures object { object_in result ≡ work.now.target }
    ensures short { IsShort result }
{
    About {
        project: work.project.view(),
        kind: work.target.kind,
        pool: work.target.pool.view(),
        instance: work.target.instance.view(),
        name: work.target.name.view(),
    }
}

/// What the operation of a number is about.
fn about<'x>(view: &StateRef<'x>, number: u64) -> About<'x>
    requires short { AreShort view.now }
    ensures { IsAbout (kept_at view.now.operations number) result }
{
    match kept_at(view, number) {
        Some(operation) => about_work(&operation.work),
        None => About {
            project: "",
            kind: ObjectKind::Operation,
            pool: "",
            instance: "",
            name: "",
        },
    }
}

/// An operation as it was.
fn progress_of(shown: &Shown) -> Progress
    ensures { result ≡ progress_of shown.now }
{
    Progress {
        moment: shown.moment,
        number: shown.number,
        status: shown.status,
        may_cancel: shown.may_cancel,
        created: shown.created,
        updated: shown.updated,
        fault: shown.fault,
    }
}

/// Hands a notice to the hub.
fn queue_event(view: &StateRef<'_>, hub: &mut Hub, waiting: Waiting)
    requires short { AreShort view.now }
    ensures { hub.new ≡ pushed (told_by view.now.operations waiting) hub.old }
{
    match waiting {
        Waiting::Whole(notice) => hub.push(notice),
        Waiting::Shown(shown) => {
            hub.push_operation(progress_of(&shown), about(view, shown.number))
        }
    }
}

/// Hands all notices that wait to the hub, in their order.
pub(crate) fn collect_events(estate: &mut Estate, hub: &mut Hub)
    requires short { AreShort estate.old.state }
    ensures told { hub.new ≡ all_pushed estate.old.untold hub.old }
    ensures untold { estate.new.untold ≡ [] }
    ensures state { estate.new.state ≡ estate.old.state }
    ensures silent { IsSilent estate.new.state }
{
    while let Some(waiting) = estate.take_waiting() {
        queue_event(&estate.view(), hub, waiting);
    }
}
