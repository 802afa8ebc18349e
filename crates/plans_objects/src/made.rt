//! The changes of each command on a row that was found, or on one that is to be made.
ghost use Rattle.std.specs.Prelude.{◌≡◌, ℕ, List, [], ◌∷◌, ◌++◌, Some, IfOk};
ghost use Rattle.records.specs.declared.commands.Target.{Target as TargetValue};
ghost use Rattle.row_machine.specs.declared.changes.RowChange.TheVariants as change;
ghost use Rattle.row_machine.specs.machine.State.{State};
ghost use Rattle.row_machine.specs.machine.Plans.{plan_create, volume_creation};
ghost use Rattle.row_machine.specs.machine.Plans.{plan_put, plan_patch, plan_move};
ghost use Rattle.row_machine.specs.machine.Plans.{plan_delete};
ghost use Rattle.records.specs.AnyRows.{row_in};
ghost use Rattle.plans_objects.specs.Planning.{changes_in};

use crate::changes::{and_put, one_put, one_removal};
use crate::projects::{
    project_creation, project_deletion, project_patch, project_put, project_rename,
};
use records::{AnyRow, Body, Origin, Row, Target};
use row_machine::RowChange;
use row_readings::StateRef;
use rows_made::{
    made_network, made_pool, made_profile, made_volume, patched_instance, patched_network,
    patched_pool, patched_profile, patched_volume, put_network, put_pool, put_profile, put_volume,
    renamed_network, renamed_profile, renamed_volume,
};
use size_values::{Boxed, NoMemory, ObjectKind, Seq, Text};
use std::alloc::Global;

/// A row alone is put.
fn row_alone(alloc: Global, row: Row) -> Result<Option<Seq<RowChange>>, NoMemory>
    ensures { IfOk result (λ cs. cs ≡ Some (change.Put row ∷ [])) }
{
    let changes = one_put(alloc, row)?;
    Ok(Some(changes))
}

/// What the creation of a volume changes at once. A copy is made in the background.
fn volume_made(
    alloc: Global,
    home: &str,
    of: &Target,
    body: &Body,
    moment: u64,
) -> Result<Option<Seq<RowChange>>, NoMemory>
    ensures { (s : State)
        → IfOk result (λ cs. cs ≡ changes_in (volume_creation s home.now of.now body.now moment body.now.origin)) }
{
    match &body.origin {
        Origin::None => {
            let row = made_volume(alloc, home, of, body, moment)?;
            row_alone(alloc, Row::Volume(Boxed::new(alloc, row)?))
        }
        Origin::Image(_) => {
            let row = made_volume(alloc, home, of, body, moment)?;
            row_alone(alloc, Row::Volume(Boxed::new(alloc, row)?))
        }
        Origin::Copy { .. } => Ok(None),
    }
}

/// What a creation changes at once.
pub(crate) fn creation_changes(
    alloc: Global,
    view: &StateRef<'_>,
    project: &str,
    of: &Target,
    body: &Body,
    moment: u64,
) -> Result<Option<Seq<RowChange>>, NoMemory>
    ensures { IfOk result (λ cs. cs ≡ changes_in (plan_create view.now project.now of.now body.now moment)) }
{
    let home = view.home_of(project, of.kind);
    match of.kind {
        ObjectKind::Project => {
            let changes = project_creation(alloc, &of.name, body)?;
            Ok(Some(changes))
        }
        ObjectKind::Profile => {
            let row = made_profile(alloc, home, &of.name, body)?;
            row_alone(alloc, Row::Profile(Boxed::new(alloc, row)?))
        }
        ObjectKind::Network => {
            let row = made_network(alloc, home, &of.name, body)?;
            row_alone(alloc, Row::Network(row))
        }
        ObjectKind::Pool => {
            let row = made_pool(alloc, &of.name, body)?;
            row_alone(alloc, Row::Pool(row))
        }
        ObjectKind::Volume => volume_made(alloc, home, of, body, moment),
        ObjectKind::Instance => Ok(None),
        ObjectKind::Snapshot => Ok(None),
        ObjectKind::Operation => Ok(None),
    }
}

/// What a PUT changes at once.
pub(crate) fn put_changes(
    alloc: Global,
    old: AnyRow<'_>,
    body: &Body,
) -> Result<Option<Seq<RowChange>>, NoMemory>
    ensures { (s : State) (project : List ℕ) (of : TargetValue)
        → IfOk result (λ cs. cs ≡ changes_in (plan_put s project of body.now (row_in old.entry))) }
{
    match old {
        AnyRow::Project(old) => {
            let changes = project_put(alloc, old, body)?;
            Ok(Some(changes))
        }
        AnyRow::Profile(old) => {
            let row = put_profile(alloc, old, body)?;
            row_alone(alloc, Row::Profile(Boxed::new(alloc, row)?))
        }
        AnyRow::Network(old) => {
            let row = put_network(alloc, old, body)?;
            row_alone(alloc, Row::Network(row))
        }
        AnyRow::Pool(old) => {
            let row = put_pool(alloc, old, body)?;
            row_alone(alloc, Row::Pool(row))
        }
        AnyRow::Volume(old) => {
            let row = put_volume(alloc, old, body)?;
            row_alone(alloc, Row::Volume(Boxed::new(alloc, row)?))
        }
        AnyRow::Instance(_) => Ok(None),
        AnyRow::Snapshot(_) => Ok(None),
    }
}

/// What a PATCH changes at once.
pub(crate) fn patch_changes(
    alloc: Global,
    old: AnyRow<'_>,
    body: &Body,
) -> Result<Option<Seq<RowChange>>, NoMemory>
    ensures { IfOk result (λ cs. cs ≡ changes_in (plan_patch body.now (row_in old.entry))) }
{
    match old {
        AnyRow::Project(old) => {
            let changes = project_patch(alloc, old, body)?;
            Ok(Some(changes))
        }
        AnyRow::Profile(old) => {
            let row = patched_profile(alloc, old, body)?;
            row_alone(alloc, Row::Profile(Boxed::new(alloc, row)?))
        }
        AnyRow::Network(old) => {
            let row = patched_network(alloc, old, body)?;
            row_alone(alloc, Row::Network(row))
        }
        AnyRow::Pool(old) => {
            let row = patched_pool(alloc, old, body)?;
            row_alone(alloc, Row::Pool(row))
        }
        AnyRow::Volume(old) => {
            let row = patched_volume(alloc, old, body)?;
            row_alone(alloc, Row::Volume(Boxed::new(alloc, row)?))
        }
        AnyRow::Instance(old) => {
            let row = patched_instance(alloc, old, body)?;
            row_alone(alloc, Row::Instance(Boxed::new(alloc, row)?))
        }
        AnyRow::Snapshot(_) => Ok(None),
    }
}

/// The changes, and then a row is put.
fn with_row_last(changes: Seq<RowChange>, row: Row) -> Result<Option<Seq<RowChange>>, NoMemory>
    ensures { IfOk result (λ cs. cs ≡ Some (changes ++ change.Put row ∷ [])) }
{
    let changes = and_put(changes, row)?;
    Ok(Some(changes))
}

/// What a rename changes at once.
pub(crate) fn move_changes(
    alloc: Global,
    view: &StateRef<'_>,
    old: AnyRow<'_>,
    to: &Text,
) -> Result<Option<Seq<RowChange>>, NoMemory>
    ensures { (project : List ℕ) (of : TargetValue)
        → IfOk result (λ cs. cs ≡ changes_in (plan_move view.now project of to.now (row_in old.entry))) }
{
    match old {
        AnyRow::Project(old) => {
            let changes = project_rename(alloc, view, old, to)?;
            Ok(Some(changes))
        }
        AnyRow::Profile(old) => {
            let removed = one_removal(alloc, AnyRow::Profile(old))?;
            let row = renamed_profile(alloc, old, to)?;
            with_row_last(removed, Row::Profile(Boxed::new(alloc, row)?))
        }
        AnyRow::Network(old) => {
            let removed = one_removal(alloc, AnyRow::Network(old))?;
            let row = renamed_network(alloc, old, to)?;
            with_row_last(removed, Row::Network(row))
        }
        AnyRow::Volume(old) => {
            let removed = one_removal(alloc, AnyRow::Volume(old))?;
            let row = renamed_volume(alloc, old, to)?;
            with_row_last(removed, Row::Volume(Boxed::new(alloc, row)?))
        }
        AnyRow::Pool(_) => Ok(None),
        AnyRow::Instance(_) => Ok(None),
        AnyRow::Snapshot(_) => Ok(None),
    }
}

/// What a deletion changes at once.
pub(crate) fn deletion_changes(
    alloc: Global,
    view: &StateRef<'_>,
    old: AnyRow<'_>,
) -> Result<Option<Seq<RowChange>>, NoMemory>
    ensures { (project : List ℕ) (of : TargetValue)
        → IfOk result (λ cs. cs ≡ changes_in (plan_delete view.now project of (row_in old.entry))) }
{
    match old {
        AnyRow::Project(old) => {
            let changes = project_deletion(alloc, view, old)?;
            Ok(Some(changes))
        }
        AnyRow::Profile(_) | AnyRow::Network(_) | AnyRow::Pool(_) | AnyRow::Volume(_) => {
            let changes = one_removal(alloc, old)?;
            Ok(Some(changes))
        }
        AnyRow::Instance(_) => Ok(None),
        AnyRow::Snapshot(_) => Ok(None),
    }
}
