//! What each command that changes rows at once is to do.
ghost use Rattle.std.specs.Prelude.{◌≡◌, ℕ, List, Option, IfOk};
ghost use Rattle.records.specs.declared.commands.What.TheVariants as what;
ghost use Rattle.plans_objects.specs.Planning.{IsPlanOf};

use crate::made::{creation_changes, deletion_changes, move_changes, patch_changes, put_changes};
use crate::notices::{changed_life, deleted_life, made_life, moved_life, with_notice};
use crate::planned::Planned;
use records::{Body, Command, Target, What};
use row_readings::{StateRef, row_of};
use size_values::{NoMemory, Text};
use std::alloc::Global;

/// What a creation is to do.
fn plan_creation(
    alloc: Global,
    view: &StateRef<'_>,
    project: &str,
    of: &Target,
    body: &Body,
    moment: u64,
) -> Result<Option<Planned>, NoMemory>
    ensures { (expects : Option (List ℕ)) → IfOk result (λ p. IsPlanOf p view.now
        (record { project = project.now; what = what.Create of.now body.now; expects = expects }) moment) }
{
    let Some(action) = made_life(of.kind) else {
        return Ok(None);
    };
    let changes = creation_changes(alloc, view, project, of, body, moment)?;
    with_notice(alloc, view, project, of, action, moment, changes)
}

/// What a PUT is to do.
fn plan_put(
    alloc: Global,
    view: &StateRef<'_>,
    project: &str,
    of: &Target,
    body: &Body,
    moment: u64,
) -> Result<Option<Planned>, NoMemory>
    ensures { (expects : Option (List ℕ)) → IfOk result (λ p. IsPlanOf p view.now
        (record { project = project.now; what = what.Put of.now body.now; expects = expects }) moment) }
{
    let Some(action) = changed_life(of.kind) else {
        return Ok(None);
    };
    let Some(old) = row_of(view, project, of) else {
        return Ok(None);
    };
    let changes = put_changes(alloc, old, body)?;
    with_notice(alloc, view, project, of, action, moment, changes)
}

/// What a PATCH is to do.
fn plan_patch(
    alloc: Global,
    view: &StateRef<'_>,
    project: &str,
    of: &Target,
    body: &Body,
    moment: u64,
) -> Result<Option<Planned>, NoMemory>
    ensures { (expects : Option (List ℕ)) → IfOk result (λ p. IsPlanOf p view.now
        (record { project = project.now; what = what.Patch of.now body.now; expects = expects }) moment) }
{
    let Some(action) = changed_life(of.kind) else {
        return Ok(None);
    };
    let Some(old) = row_of(view, project, of) else {
        return Ok(None);
    };
    let changes = patch_changes(alloc, old, body)?;
    with_notice(alloc, view, project, of, action, moment, changes)
}

/// The target under another name.
fn renamed_target(alloc: Global, of: &Target, name: &Text) -> Result<Target, NoMemory>
    ensures { IfOk result (λ t. t ≡ record of.now { name = name.now }) }
{
    let pool = of.pool.copy(alloc)?;
    let instance = of.instance.copy(alloc)?;
    let name = name.copy(alloc)?;
    Ok(Target {
        kind: of.kind,
        pool,
        instance,
        name,
    })
}

/// What a rename is to do. Its notice has the new name.
fn plan_move(
    alloc: Global,
    view: &StateRef<'_>,
    project: &str,
    of: &Target,
    to: &Text,
    moment: u64,
) -> Result<Option<Planned>, NoMemory>
    ensures { (expects : Option (List ℕ)) → IfOk result (λ p. IsPlanOf p view.now
        (record { project = project.now; what = what.Move of.now to.now; expects = expects }) moment) }
{
    let Some(action) = moved_life(of.kind) else {
        return Ok(None);
    };
    let Some(old) = row_of(view, project, of) else {
        return Ok(None);
    };
    let changes = move_changes(alloc, view, old, to)?;
    let renamed = renamed_target(alloc, of, to)?;
    let planned = with_notice(alloc, view, project, &renamed, action, moment, changes);
    drop(renamed);
    planned
}

/// What a deletion is to do.
fn plan_deletion(
    alloc: Global,
    view: &StateRef<'_>,
    project: &str,
    of: &Target,
    moment: u64,
) -> Result<Option<Planned>, NoMemory>
    ensures { (expects : Option (List ℕ)) → IfOk result (λ p. IsPlanOf p view.now
        (record { project = project.now; what = what.Delete of.now; expects = expects }) moment) }
{
    let Some(action) = deleted_life(of.kind) else {
        return Ok(None);
    };
    let Some(old) = row_of(view, project, of) else {
        return Ok(None);
    };
    let changes = deletion_changes(alloc, view, old)?;
    with_notice(alloc, view, project, of, action, moment, changes)
}

/// What a command changes at once, and the notice that tells of it; nothing where it is a read or a background
/// operation, or where what it speaks of is missing. The moment is in seconds since 1970.
pub fn plan_change(
    alloc: Global,
    view: &StateRef<'_>,
    command: &Command,
    moment: u64,
) -> Result<Option<Planned>, NoMemory>
    ensures { IfOk result (λ p. IsPlanOf p view.now command.now moment) }
{
    let project = command.project.view();
    match &command.what {
        What::Create { of, body } => plan_creation(alloc, view, project, of, body, moment),
        What::Put { of, body } => plan_put(alloc, view, project, of, body, moment),
        What::Patch { of, body } => plan_patch(alloc, view, project, of, body, moment),
        What::Move { of, to } => plan_move(alloc, view, project, of, to, moment),
        What::Delete { of } => plan_deletion(alloc, view, project, of, moment),
        _ => Ok(None),
    }
}
