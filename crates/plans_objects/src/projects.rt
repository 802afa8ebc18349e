//! The changes that projects bring with them: a project that has profiles of its own has a profile `default`
//! (<https://linuxcontainers.org/incus/docs/main/reference/projects/>).
ghost use Rattle.std.specs.Prelude.{◌≡◌, [], ◌∷◌, ◌++◌, IfOk};
ghost use Rattle.records.specs.declared.rows.Row.TheVariants as row_of;
ghost use Rattle.row_machine.specs.declared.changes.RowChange.TheVariants as change;
ghost use Rattle.row_machine.specs.machine.NewRows.{default_profile};
ghost use Rattle.row_machine.specs.machine.NewRows.{made_project, put_project, patched_project};
ghost use Rattle.row_machine.specs.machine.Plans.{moved_row, project_creation};
ghost use Rattle.row_machine.specs.machine.Plans.{project_change, project_rename};
ghost use Rattle.row_machine.specs.machine.Plans.{project_deletion};

use crate::changes::{and_default_removal, and_put, and_removal, one_put, one_removal};
use records::{AnyRow, Body, Profile, Project, Row};
use row_machine::RowChange;
use row_readings::{StateRef, is_on};
use rows_made::{
    default_profile, made_project, patched_project, put_project, rehomed_profile, renamed_project,
};
use size_values::{Boxed, NoMemory, Seq, Text};
use std::alloc::Global;

/// The changes, and then the profile `default` of a project of this name is put.
fn and_default_put(
    alloc: Global,
    changes: Seq<RowChange>,
    project: &Text,
) -> Result<Seq<RowChange>, NoMemory>
    ensures { IfOk result (λ cs. cs ≡ changes ++ change.Put (row_of.Profile (default_profile project.now)) ∷ []) }
{
    let profile = default_profile(alloc, project)?;
    and_put(changes, Row::Profile(Boxed::new(alloc, profile)?))
}

/// A new project is put, and its profile `default` where it has profiles of its own.
pub(crate) fn project_creation(
    alloc: Global,
    name: &Text,
    body: &Body,
) -> Result<Seq<RowChange>, NoMemory>
    ensures { IfOk result (λ cs. cs ≡ project_creation (made_project name.now body.now)) }
{
    let row = made_project(alloc, name, body)?;
    let own = is_on(&row.config, "features.profiles");
    let changes = one_put(alloc, Row::Project(row))?;
    if !own {
        return Ok(changes);
    }
    and_default_put(alloc, changes, name)
}

/// A changed project is put. Where its profiles are turned off its profile `default` goes, where they are turned on
/// there is one.
fn project_change(alloc: Global, old: &Project, row: Project) -> Result<Seq<RowChange>, NoMemory>
    requires name { row.name ≡ old.now.name }
    ensures { IfOk result (λ cs. cs ≡ project_change old.now row) }
{
    let had = is_on(&old.config, "features.profiles");
    let has = is_on(&row.config, "features.profiles");
    let changes = one_put(alloc, Row::Project(row))?;
    if had && !has {
        return and_default_removal(alloc, changes, &old.name);
    }
    if has && !had {
        return and_default_put(alloc, changes, &old.name);
    }
    Ok(changes)
}

/// What a PUT of a project changes.
pub(crate) fn project_put(
    alloc: Global,
    old: &Project,
    body: &Body,
) -> Result<Seq<RowChange>, NoMemory>
    ensures { IfOk result (λ cs. cs ≡ project_change old.now (put_project old.now body.now)) }
{
    let row = put_project(alloc, old, body)?;
    project_change(alloc, old, row)
}

/// What a PATCH of a project changes.
pub(crate) fn project_patch(
    alloc: Global,
    old: &Project,
    body: &Body,
) -> Result<Seq<RowChange>, NoMemory>
    ensures { IfOk result (λ cs. cs ≡ project_change old.now (patched_project old.now body.now)) }
{
    let row = patched_project(alloc, old, body)?;
    project_change(alloc, old, row)
}

/// The changes, and then a profile is moved to another project.
fn and_rehomed(
    alloc: Global,
    changes: Seq<RowChange>,
    old: &Profile,
    project: &Text,
) -> Result<Seq<RowChange>, NoMemory>
    ensures { IfOk result (λ cs. cs ≡ changes
        ++ moved_row (row_of.Profile old.now) (row_of.Profile (record old.now { project = project.now }))) }
{
    let changes = and_removal(alloc, changes, AnyRow::Profile(old))?;
    let profile = rehomed_profile(alloc, old, project)?;
    and_put(changes, Row::Profile(Boxed::new(alloc, profile)?))
}

/// A project gets another name, and its profile `default` with it.
pub(crate) fn project_rename(
    alloc: Global,
    view: &StateRef<'_>,
    old: &Project,
    to: &Text,
) -> Result<Seq<RowChange>, NoMemory>
    ensures { IfOk result (λ cs. cs ≡ project_rename view.now to.now old.now) }
{
    let changes = one_removal(alloc, AnyRow::Project(old))?;
    let row = renamed_project(alloc, old, to)?;
    let changes = and_put(changes, Row::Project(row))?;
    match view.profile_named(old.name.view(), "default") {
        Some(own) => and_rehomed(alloc, changes, own, to),
        None => Ok(changes),
    }
}

/// A project goes, and its profile `default` with it.
pub(crate) fn project_deletion(
    alloc: Global,
    view: &StateRef<'_>,
    old: &Project,
) -> Result<Seq<RowChange>, NoMemory>
    ensures { IfOk result (λ cs. cs ≡ project_deletion view.now old.now) }
{
    let changes = one_removal(alloc, AnyRow::Project(old))?;
    match view.profile_named(old.name.view(), "default") {
        Some(own) => and_removal(alloc, changes, AnyRow::Profile(own)),
        None => Ok(changes),
    }
}
