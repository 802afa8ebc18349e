//! Rules on names, N1 to N5, with the rule on what a request expects, E1.
ghost use Rattle.std.specs.Prelude.{option_and_then};
ghost use Rattle.size_values.specs.Causes.{Says};
ghost use Rattle.records.specs.declared.commands.Body.{Body};
ghost use Rattle.row_machine.specs.machine.Asked.{new_name_of, with_name};
ghost use Rattle.rules_names.specs.Pointed.{target_at};
ghost use Rattle.rules_names.specs.Sought.{new_name_broken};
ghost use Rattle.row_machine.specs.machine.NameRules.{name_broken};
ghost use Rattle.row_machine.specs.machine.Rules.{names_broken};

use crate::expected::not_as_expected;
use crate::free::name_broken;
use crate::missing::{project_missing, what_is_missing};
use crate::target_refs::{TargetRef, target_named, target_ref};
use records::{Command, Refusal, What};
use row_readings::{StateRef, next_snapshot};
use size_values::{ObjectKind, Or};
use std::alloc::Global;

/// What is wrong with the name of a new snapshot. One without a name gets the next one of its instance.
fn snapshot_name_broken(
    alloc: Global,
    view: &StateRef<'_>,
    project: &str,
    of: TargetRef<'_>,
) -> Result<(), Or<Refusal>>
    ensures { Says result (name_broken view.now project.now (with_name view.now project.now (target_at of.entry))) }
{
    if !of.name.is_empty() {
        return name_broken(alloc, view, project, of);
    }
    let Some(row) = view.instance_named(project, of.instance) else {
        return name_broken(alloc, view, project, of);
    };
    let name = next_snapshot(alloc, view, row)?;
    let broken = name_broken(alloc, view, project, target_named(of, name.view()));
    drop(name);
    broken
}

/// What is wrong with the name of a new object.
fn new_name_broken(
    alloc: Global,
    view: &StateRef<'_>,
    project: &str,
    of: TargetRef<'_>,
) -> Result<(), Or<Refusal>>
    ensures { (body : Body) → Says result (new_name_broken view.now project.now (target_at of.entry) body) }
{
    match of.kind {
        ObjectKind::Snapshot => snapshot_name_broken(alloc, view, project, of),
        ObjectKind::Project
        | ObjectKind::Profile
        | ObjectKind::Network
        | ObjectKind::Pool
        | ObjectKind::Volume
        | ObjectKind::Instance
        | ObjectKind::Operation => name_broken(alloc, view, project, of),
    }
}

/// What is wrong with the name that a creation or a rename gives.
fn given_name_broken(
    alloc: Global,
    view: &StateRef<'_>,
    project: &str,
    what: &What,
) -> Result<(), Or<Refusal>>
    ensures { Says result
        (option_and_then (name_broken view.now project.now) (new_name_of view.now project.now what.now)) }
{
    match what {
        What::Create { of, .. } => new_name_broken(alloc, view, project, target_ref(of)),
        What::Move { of, to } => {
            name_broken(
                alloc,
                view,
                project,
                target_named(target_ref(of), to.view()),
            )
        }
        What::Root
        | What::Server
        | What::List { .. }
        | What::Get { .. }
        | What::State { .. }
        | What::Put { .. }
        | What::Patch { .. }
        | What::Delete { .. }
        | What::Act { .. }
        | What::Restore { .. }
        | What::GetOp { .. }
        | What::Cancel { .. }
        | What::Wait { .. } => Ok(()),
    }
}

/// The first rule on names that a command breaks.
#[tactic(auto, unfolding(row_machine::specs::machine::Rules::names_broken))]
pub fn names_broken(
    alloc: Global,
    view: &StateRef<'_>,
    command: &Command,
) -> Result<(), Or<Refusal>>
    ensures { Says result (names_broken view.now command.now) }
{
    let project = command.project.view();
    project_missing(alloc, view, command)?;
    what_is_missing(alloc, view, project, &command.what)?;
    not_as_expected(alloc, view, command)?;
    given_name_broken(alloc, view, project, &command.what)
}
