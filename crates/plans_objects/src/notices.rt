//! What changes of rows at once tell.
ghost use Rattle.std.specs.Prelude.{◌≡◌, [], ◌∷◌, IfOk};
ghost use Rattle.row_machine.specs.machine.Homes.{home_of};
ghost use Rattle.row_machine.specs.machine.Plans.{Plan};
ghost use Rattle.row_machine.specs.shown.Notices.{life_notice, made_life};
ghost use Rattle.row_machine.specs.shown.Notices.{changed_life, moved_life, deleted_life};
ghost use Rattle.plans_objects.specs.Planning.{changes_in, IsPlanned};

use crate::planned::Planned;
use object_links::life_notice;
use records::{Life, Target};
use row_machine::RowChange;
use row_readings::StateRef;
use size_values::{NoMemory, ObjectKind, Seq};
use std::alloc::Global;

/// What a creation at once tells.
pub(crate) fn made_life(kind: ObjectKind) -> Option<Life>
    ensures { result ≡ made_life kind }
{
    match kind {
        ObjectKind::Project => Some(Life::ProjectCreated),
        ObjectKind::Profile => Some(Life::ProfileCreated),
        ObjectKind::Network => Some(Life::NetworkCreated),
        ObjectKind::Pool => Some(Life::PoolCreated),
        ObjectKind::Volume => Some(Life::VolumeCreated),
        ObjectKind::Instance | ObjectKind::Snapshot | ObjectKind::Operation => None,
    }
}

/// What a PUT or a PATCH at once tells.
pub(crate) fn changed_life(kind: ObjectKind) -> Option<Life>
    ensures { result ≡ changed_life kind }
{
    match kind {
        ObjectKind::Project => Some(Life::ProjectUpdated),
        ObjectKind::Profile => Some(Life::ProfileUpdated),
        ObjectKind::Network => Some(Life::NetworkUpdated),
        ObjectKind::Pool => Some(Life::PoolUpdated),
        ObjectKind::Volume => Some(Life::VolumeUpdated),
        ObjectKind::Instance => Some(Life::InstanceUpdated),
        ObjectKind::Snapshot | ObjectKind::Operation => None,
    }
}

/// What a rename at once tells.
pub(crate) fn moved_life(kind: ObjectKind) -> Option<Life>
    ensures { result ≡ moved_life kind }
{
    match kind {
        ObjectKind::Project => Some(Life::ProjectRenamed),
        ObjectKind::Profile => Some(Life::ProfileRenamed),
        ObjectKind::Network => Some(Life::NetworkRenamed),
        ObjectKind::Volume => Some(Life::VolumeRenamed),
        ObjectKind::Pool | ObjectKind::Instance | ObjectKind::Snapshot | ObjectKind::Operation => {
            None
        }
    }
}

/// What a deletion at once tells.
pub(crate) fn deleted_life(kind: ObjectKind) -> Option<Life>
    ensures { result ≡ deleted_life kind }
{
    match kind {
        ObjectKind::Project => Some(Life::ProjectDeleted),
        ObjectKind::Profile => Some(Life::ProfileDeleted),
        ObjectKind::Network => Some(Life::NetworkDeleted),
        ObjectKind::Pool => Some(Life::PoolDeleted),
        ObjectKind::Volume => Some(Life::VolumeDeleted),
        ObjectKind::Instance | ObjectKind::Snapshot | ObjectKind::Operation => None,
    }
}

/// The changes of a plan, where it makes some at once, with the notice of an action on the object that they are of.
pub(crate) fn with_notice(
    alloc: Global,
    view: &StateRef<'_>,
    project: &str,
    of: &Target,
    action: Life,
    moment: u64,
    changes: Option<Seq<RowChange>>,
) -> Result<Option<Planned>, NoMemory>
    ensures { (plan : Plan) → changes ≡ changes_in plan
        → IfOk result (λ p. IsPlanned p plan
        (life_notice moment (home_of view.now.projects project.now of.now.kind) of.now action ∷ [])) }
{
    let Some(changes) = changes else {
        return Ok(None);
    };
    let home = view.home_of(project, of.kind);
    let notice = life_notice(alloc, moment, home, of, action)?;
    Ok(Some(Planned { changes, notice }))
}
