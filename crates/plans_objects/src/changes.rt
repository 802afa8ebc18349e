//! Lists of changes of rows.
ghost use Rattle.std.specs.Prelude.{◌≡◌, [], ◌∷◌, ◌++◌, IfOk};
ghost use Rattle.row_codec.specs.Spelling.{key_of};
ghost use Rattle.records.specs.declared.rows.Row.TheVariants as row_of;
ghost use Rattle.row_machine.specs.declared.changes.RowChange.TheVariants as change;
ghost use Rattle.row_machine.specs.machine.NewRows.{default_profile};
ghost use Rattle.row_machine.specs.machine.Changes.{removal};
ghost use Rattle.records.specs.AnyRows.{row_in};

use object_links::{three_names, two_names};
use records::{AnyRow, Row};
use row_machine::RowChange;
use size_values::{NoMemory, ObjectKind, Seq, Text};
use std::alloc::Global;

/// The key of a row.
fn key_of(alloc: Global, row: AnyRow<'_>) -> Result<Text, NoMemory>
    ensures { IfOk result (λ key. key ≡ key_of (row_in row.entry)) }
{
    match row {
        AnyRow::Project(row) => row.name.copy(alloc),
        AnyRow::Profile(row) => two_names(alloc, row.project.view(), row.name.view()),
        AnyRow::Network(row) => two_names(alloc, row.project.view(), row.name.view()),
        AnyRow::Pool(row) => row.name.copy(alloc),
        AnyRow::Volume(row) => three_names(alloc, &row.project, &row.pool, &row.name),
        AnyRow::Instance(row) => two_names(alloc, row.project.view(), row.name.view()),
        AnyRow::Snapshot(row) => three_names(alloc, &row.project, &row.instance, &row.name),
    }
}

/// The change that removes a row.
fn removal(alloc: Global, row: AnyRow<'_>) -> Result<RowChange, NoMemory>
    ensures { IfOk result (λ c. c ≡ removal (row_in row.entry)) }
{
    let key = key_of(alloc, row)?;
    match row {
        AnyRow::Project(_) => Ok(RowChange::Remove(ObjectKind::Project, key)),
        AnyRow::Profile(_) => Ok(RowChange::Remove(ObjectKind::Profile, key)),
        AnyRow::Network(_) => Ok(RowChange::Remove(ObjectKind::Network, key)),
        AnyRow::Pool(_) => Ok(RowChange::Remove(ObjectKind::Pool, key)),
        AnyRow::Volume(_) => Ok(RowChange::Remove(ObjectKind::Volume, key)),
        AnyRow::Instance(_) => Ok(RowChange::Remove(ObjectKind::Instance, key)),
        AnyRow::Snapshot(_) => Ok(RowChange::Remove(ObjectKind::Snapshot, key)),
    }
}

/// The changes, and then this one.
fn and_change(mut changes: Seq<RowChange>, change: RowChange) -> Result<Seq<RowChange>, NoMemory>
    ensures { IfOk result (λ cs. cs ≡ changes ++ change ∷ []) }
{
    changes.push(change)?;
    Ok(changes)
}

/// The changes, and then a row is put.
pub(crate) fn and_put(changes: Seq<RowChange>, row: Row) -> Result<Seq<RowChange>, NoMemory>
    ensures { IfOk result (λ cs. cs ≡ changes ++ change.Put row ∷ []) }
{
    and_change(changes, RowChange::Put(row))
}

/// A row is put.
pub(crate) fn one_put(alloc: Global, row: Row) -> Result<Seq<RowChange>, NoMemory>
    ensures { IfOk result (λ cs. cs ≡ change.Put row ∷ []) }
{
    and_change(Seq::new(alloc), RowChange::Put(row))
}

/// The changes, and then a row is removed.
pub(crate) fn and_removal(
    alloc: Global,
    changes: Seq<RowChange>,
    row: AnyRow<'_>,
) -> Result<Seq<RowChange>, NoMemory>
    ensures { IfOk result (λ cs. cs ≡ changes ++ removal (row_in row.entry) ∷ []) }
{
    let change = removal(alloc, row)?;
    and_change(changes, change)
}

/// A row is removed.
pub(crate) fn one_removal(alloc: Global, row: AnyRow<'_>) -> Result<Seq<RowChange>, NoMemory>
    ensures { IfOk result (λ cs. cs ≡ removal (row_in row.entry) ∷ []) }
{
    let change = removal(alloc, row)?;
    and_change(Seq::new(alloc), change)
}

/// The changes, and then the profile `default` of a project of this name is removed.
pub(crate) fn and_default_removal(
    alloc: Global,
    changes: Seq<RowChange>,
    project: &Text,
) -> Result<Seq<RowChange>, NoMemory>
    ensures { IfOk result (λ cs. cs ≡ changes ++ removal (row_of.Profile (default_profile project.now)) ∷ []) }
{
    let key = two_names(alloc, project.view(), "default")?;
    and_change(changes, RowChange::Remove(ObjectKind::Profile, key))
}
