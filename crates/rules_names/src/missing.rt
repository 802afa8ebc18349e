//! N1 and N2: the project or an object is missing.
ghost use Rattle.std.specs.Prelude.{◌≡◌, false};
ghost use Rattle.std.specs.Option.{option_copied, option_map_or};
ghost use Rattle.size_values.specs.Causes.{Says};
ghost use Rattle.row_machine.specs.machine.Asked.{object_of};
ghost use Rattle.rules_names.specs.Pointed.{target_at};
ghost use Rattle.row_machine.specs.machine.NameRules.{missing_unless, object_missing, operation_missing};
ghost use Rattle.row_machine.specs.machine.NameRules.{parent_missing, project_missing, snapshot_missing};
ghost use Rattle.row_machine.specs.machine.NameRules.{what_is_missing};
ghost use Rattle.row_machine.specs.machine.Kinds.{is_in_project};

use crate::sources::source_missing;
use crate::target_refs::{TargetRef, is_there, target_ref};
use records::{Command, Refusal, Rule, Target, What};
use row_readings::{StateRef, kept_at};
use rules_refusals::{on_object, on_project};
use size_values::{ObjectKind, Or};
use std::alloc::Global;

/// Whether objects of a kind belong to projects. Pools do not, and projects are asked for by their own names.
fn is_in_project(kind: ObjectKind) -> bool
    ensures { result ≡ is_in_project kind }
{
    match kind {
        ObjectKind::Project | ObjectKind::Pool => false,
        ObjectKind::Profile
        | ObjectKind::Network
        | ObjectKind::Volume
        | ObjectKind::Instance
        | ObjectKind::Snapshot
        | ObjectKind::Operation => true,
    }
}

/// The object that a command speaks of, or the objects of a list.
fn object_of(what: &What) -> Option<&Target>
    ensures { option_copied result ≡ object_of what.now }
{
    match what {
        What::Root | What::Server => None,
        What::List { of, .. } => Some(of),
        What::Get { of } => Some(of),
        What::State { of } => Some(of),
        What::Create { of, .. } => Some(of),
        What::Put { of, .. } => Some(of),
        What::Patch { of, .. } => Some(of),
        What::Move { of, .. } => Some(of),
        What::Delete { of } => Some(of),
        What::Act { of, .. } => Some(of),
        What::Restore { of, .. } => Some(of),
        What::GetOp { .. } | What::Cancel { .. } | What::Wait { .. } => None,
    }
}

fn needs_project(what: &What) -> bool
    ensures { result ≡ option_map_or (λ of. is_in_project of.kind) (object_of what.now) false }
{
    match object_of(what) {
        Some(of) => is_in_project(of.kind),
        None => false,
    }
}

/// N1: the project is missing, of a command on what belongs to a project.
#[tactic(auto, unfolding(row_machine::specs::machine::NameRules::project_missing))]
pub(crate) fn project_missing(
    alloc: Global,
    view: &StateRef<'_>,
    command: &Command,
) -> Result<(), Or<Refusal>>
    ensures { Says result (project_missing view.now command.now) }
{
    let project = command.project.view();
    if !needs_project(&command.what) || view.project_named(project).is_some() {
        return Ok(());
    }
    Err(Or::Why(on_project(alloc, Rule::N1, project)?))
}

/// N2 of an object, unless it is there.
pub(crate) fn missing_unless(
    alloc: Global,
    there: bool,
    kind: ObjectKind,
    name: &str,
) -> Result<(), Or<Refusal>>
    ensures { Says result (missing_unless there kind name.now) }
{
    if there {
        return Ok(());
    }
    Err(Or::Why(on_object(alloc, Rule::N2, kind, name)?))
}

/// What an object stands in is missing: the pool of a volume, or the instance of a snapshot.
fn parent_missing(
    alloc: Global,
    view: &StateRef<'_>,
    project: &str,
    of: TargetRef<'_>,
) -> Result<(), Or<Refusal>>
    ensures { Says result (parent_missing view.now project.now (target_at of.entry)) }
{
    match of.kind {
        ObjectKind::Volume => {
            let there = view.pool_named(of.pool).is_some();
            missing_unless(alloc, there, ObjectKind::Pool, of.pool)
        }
        ObjectKind::Snapshot => {
            let there = view.instance_named(project, of.instance).is_some();
            missing_unless(alloc, there, ObjectKind::Instance, of.instance)
        }
        ObjectKind::Project
        | ObjectKind::Profile
        | ObjectKind::Network
        | ObjectKind::Pool
        | ObjectKind::Instance
        | ObjectKind::Operation => Ok(()),
    }
}

/// The object of a path is missing, or what it stands in.
pub(crate) fn object_missing(
    alloc: Global,
    view: &StateRef<'_>,
    project: &str,
    of: TargetRef<'_>,
) -> Result<(), Or<Refusal>>
    ensures { Says result (object_missing view.now project.now (target_at of.entry)) }
{
    parent_missing(alloc, view, project, of)?;
    missing_unless(alloc, is_there(view, project, of), of.kind, of.name)
}

/// The snapshot of an instance is missing.
pub(crate) fn snapshot_missing(
    alloc: Global,
    view: &StateRef<'_>,
    project: &str,
    instance: &str,
    snapshot: &str,
) -> Result<(), Or<Refusal>>
    ensures { Says result (snapshot_missing view.now project.now instance.now snapshot.now) }
{
    let there = view.snapshot_named(project, instance, snapshot).is_some();
    missing_unless(alloc, there, ObjectKind::Snapshot, snapshot)
}

/// An operation is missing. It is told by its number in decimal digits.
fn operation_missing(alloc: Global, view: &StateRef<'_>, number: u64) -> Result<(), Or<Refusal>>
    ensures { Says result (operation_missing view.now number) }
{
    if kept_at(view, number).is_some() {
        return Ok(());
    }
    let digits = number.to_string(alloc)?;
    Err(Or::Why(on_object(alloc, Rule::N2, ObjectKind::Operation, &digits)?))
}

/// N2: the first object that a command needs and that is missing.
#[tactic(auto, unfolding(row_machine::specs::machine::NameRules::what_is_missing))]
pub(crate) fn what_is_missing(
    alloc: Global,
    view: &StateRef<'_>,
    project: &str,
    what: &What,
) -> Result<(), Or<Refusal>>
    ensures { Says result (what_is_missing view.now project.now what.now) }
{
    match what {
        What::Root | What::Server => Ok(()),
        What::List { of, .. } => parent_missing(alloc, view, project, target_ref(of)),
        What::Create { of, body } => {
            parent_missing(alloc, view, project, target_ref(of))?;
            source_missing(alloc, view, project, target_ref(of), &body.origin)
        }
        What::Restore { of, snapshot } => {
            object_missing(alloc, view, project, target_ref(of))?;
            snapshot_missing(alloc, view, project, of.name.view(), snapshot.view())
        }
        What::Get { of } => object_missing(alloc, view, project, target_ref(of)),
        What::State { of } => object_missing(alloc, view, project, target_ref(of)),
        What::Put { of, .. } => object_missing(alloc, view, project, target_ref(of)),
        What::Patch { of, .. } => object_missing(alloc, view, project, target_ref(of)),
        What::Move { of, .. } => object_missing(alloc, view, project, target_ref(of)),
        What::Delete { of } => object_missing(alloc, view, project, target_ref(of)),
        What::Act { of, .. } => object_missing(alloc, view, project, target_ref(of)),
        What::GetOp { op } => operation_missing(alloc, view, *op),
        What::Cancel { op } => operation_missing(alloc, view, *op),
        What::Wait { op, .. } => operation_missing(alloc, view, *op),
    }
}
