//! The notices of an operation: what its success tells, and how it is shown.
ghost use Rattle.std.specs.Prelude.{◌≡◌, [], ◌∷◌, ◌++◌, IfOk, OnOk, map};
ghost use Rattle.std.specs.Option.{option_copied, option_map_or, option_to_list};
ghost use Rattle.records.specs.declared.notices.EventBody.TheVariants as body;
ghost use Rattle.row_machine.specs.shown.Notices.{action_life, deed_lives};
ghost use Rattle.row_machine.specs.shown.Notices.{life_notice, object_told, success_notices};
ghost use Rattle.row_machine.specs.shown.Notices.{view_of};
ghost use Rattle.row_machine.specs.shown.Urls.{target_of};

use object_links::{life_notice, target_of, view_of};
use operations::Operation;
use records::{EventBody, Life, Row, Target, Untold};
use row_machine::Task;
use size_values::{Action, Deed, NoMemory, Seq};
use std::alloc::Global;

/// What a change of state tells.
fn action_life(action: Action) -> Life
    ensures { result ≡ action_life action }
{
    match action {
        Action::Start => Life::InstanceStarted,
        Action::Stop => Life::InstanceStopped,
        Action::Restart => Life::InstanceRestarted,
        Action::Freeze => Life::InstancePaused,
        Action::Unfreeze => Life::InstanceResumed,
    }
}

/// What a deed tells when it succeeds, and what else: an ephemeral instance that stops is deleted.
fn deed_lives(deed: Deed) -> (Life, Option<Life>)
    ensures { deed_lives deed ≡ result.0 ∷ option_to_list result.1 }
{
    match deed {
        Deed::Create | Deed::Copy => (Life::InstanceCreated, None),
        Deed::Update => (Life::InstanceUpdated, None),
        Deed::Restore => (Life::InstanceRestored, None),
        Deed::Rename => (Life::InstanceRenamed, None),
        Deed::Delete => (Life::InstanceDeleted, None),
        Deed::Act {
            action: Action::Stop,
            ephemeral: true,
        } => (Life::InstanceStopped, Some(Life::InstanceDeleted)),
        Deed::Act { action, .. } => (action_life(action), None),
        Deed::Snap => (Life::SnapshotCreated, None),
        Deed::Unsnap => (Life::SnapshotDeleted, None),
        Deed::CopyVolume => (Life::VolumeCreated, None),
    }
}

/// What names the claimed row, or else the target.
fn claim_told(alloc: Global, claim: Option<&Row>, target: &Target) -> Result<Target, NoMemory>
    ensures { IfOk result (λ t. t ≡ option_map_or target_of (option_copied claim.entry) target.now) }
{
    match claim {
        Some(row) => target_of(alloc, row),
        None => target.copy(alloc),
    }
}

/// What the success of an operation tells of: after a rename the claimed row, else the target.
fn object_told(alloc: Global, work: &Task) -> Result<Target, NoMemory>
    ensures { IfOk result (λ t. t ≡ object_told work.now) }
{
    match work.deed {
        Deed::Rename => claim_told(alloc, work.claim.as_ref(), &work.target),
        Deed::Create
        | Deed::Copy
        | Deed::Update
        | Deed::Restore
        | Deed::Delete
        | Deed::Act { .. }
        | Deed::Snap
        | Deed::Unsnap
        | Deed::CopyVolume => work.target.copy(alloc),
    }
}

/// Adds the lifecycle event of an action on an object.
fn push_life_notice(
    alloc: Global,
    moment: u64,
    project: &str,
    of: &Target,
    action: Life,
    notices: &mut Seq<Untold>,
) -> Result<(), NoMemory>
    ensures { OnOk result (notices.new ≡ notices.old ++ life_notice moment project.now of.now action ∷ []) }
{
    let notice = life_notice(alloc, moment, project, of, action)?;
    notices.push(notice)
}

/// The lifecycle events of the actions of a deed on an object.
fn notices_of(
    alloc: Global,
    moment: u64,
    project: &str,
    of: &Target,
    deed: Deed,
) -> Result<Seq<Untold>, NoMemory>
    ensures { IfOk result (λ ns. ns ≡ map (life_notice moment project.now of.now) (deed_lives deed)) }
{
    let (action, other) = deed_lives(deed);
    let mut notices = Seq::new(alloc);
    push_life_notice(alloc, moment, project, of, action, &mut notices)?;
    if let Some(action) = other {
        push_life_notice(alloc, moment, project, of, action, &mut notices)?;
    }
    Ok(notices)
}

/// The lifecycle events of an operation that succeeds, in their order. The moment is in seconds since 1970.
pub fn success_notices(alloc: Global, work: &Task, moment: u64) -> Result<Seq<Untold>, NoMemory>
    ensures { IfOk result (λ ns. ns ≡ success_notices work.now moment) }
{
    let of = object_told(alloc, work)?;
    let notices = notices_of(alloc, moment, work.project.view(), &of, work.deed);
    drop(of);
    notices
}

/// The event that shows an operation as it now stands. The moment is in seconds since 1970.
pub fn operation_notice(
    alloc: Global,
    operation: &Operation<Task>,
    moment: u64,
) -> Result<Untold, NoMemory>
    ensures { IfOk result (λ n. n ≡
        record { moment = moment; project = operation.now.work.project; body = body.Op (view_of operation.now) }) }
{
    let project = operation.work.project.copy(alloc)?;
    let shown = view_of(alloc, operation)?;
    Ok(Untold {
        moment,
        project,
        body: EventBody::Op(shown),
    })
}
