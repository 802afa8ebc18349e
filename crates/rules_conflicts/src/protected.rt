//! B3: the object of the path is protected against the command.
ghost use Rattle.std.specs.Prelude.{◌≡◌, IfOk};
ghost use Rattle.size_values.specs.Causes.{Says};
ghost use Rattle.row_machine.specs.machine.StandingRules.{is_protected, object_protected, protects_itself};
ghost use Rattle.rules_conflicts.specs.Protected.{is_kept, instance_protected, project_protected};

use crate::asked::{is_deletion, object_changed, renames_or_deletes};
use crate::features::asks_for_features;
use records::{Command, Instance, Refusal, Rule, Target, What};
use row_readings::{StateRef, is_on};
use rules_refusals::on_object;
use size_values::{NoMemory, ObjectKind, Or};
use std::alloc::Global;

fn protects(alloc: Global, view: &StateRef<'_>, row: &Instance) -> Result<bool, NoMemory>
    ensures { IfOk result (λ b. b ≡ is_kept view.now row.now) }
{
    let expanded = view.expansion(alloc, row)?;
    let protects = is_on(&expanded.config, "security.protection.delete");
    drop(expanded);
    Ok(protects)
}

/// Whether an instance is protected by its expanded settings.
fn protects_itself(
    alloc: Global,
    view: &StateRef<'_>,
    project: &str,
    name: &str,
) -> Result<bool, NoMemory>
    ensures { IfOk result (λ b. b ≡ protects_itself view.now project.now name.now) }
{
    match view.instance_named(project, name) {
        Some(row) => protects(alloc, view, row),
        None => Ok(false),
    }
}

/// The project `default` is not renamed or deleted, and its features stay.
fn project_protected(
    alloc: Global,
    view: &StateRef<'_>,
    what: &What,
    name: &str,
) -> Result<bool, NoMemory>
    ensures { IfOk result (λ b. b ≡ project_protected view.now what.now name.now) }
{
    if name != "default" {
        return Ok(false);
    }
    if renames_or_deletes(what) {
        return Ok(true);
    }
    asks_for_features(alloc, view, what)
}

fn instance_protected(
    alloc: Global,
    view: &StateRef<'_>,
    command: &Command,
    name: &str,
) -> Result<bool, NoMemory>
    ensures { IfOk result (λ b. b ≡ instance_protected view.now command.now name.now) }
{
    if !is_deletion(&command.what) {
        return Ok(false);
    }
    protects_itself(alloc, view, command.project.view(), name)
}

/// Whether the object of the path is protected against the command.
fn is_protected(
    alloc: Global,
    view: &StateRef<'_>,
    command: &Command,
    of: &Target,
) -> Result<bool, NoMemory>
    ensures { IfOk result (λ b. b ≡ is_protected view.now command.now of.now) }
{
    let name = of.name.view();
    match of.kind {
        ObjectKind::Project => project_protected(alloc, view, &command.what, name),
        ObjectKind::Profile => Ok(name == "default" && renames_or_deletes(&command.what)),
        ObjectKind::Instance => instance_protected(alloc, view, command, name),
        ObjectKind::Network
        | ObjectKind::Pool
        | ObjectKind::Volume
        | ObjectKind::Snapshot
        | ObjectKind::Operation => Ok(false),
    }
}

/// The object of a command is protected against it.
#[tactic(auto, unfolding(row_machine::specs::machine::StandingRules::object_protected))]
pub(crate) fn object_protected(
    alloc: Global,
    view: &StateRef<'_>,
    command: &Command,
) -> Result<(), Or<Refusal>>
    ensures { Says result (object_protected view.now command.now) }
{
    let Some(of) = object_changed(&command.what) else {
        return Ok(());
    };
    if !is_protected(alloc, view, command, of)? {
        return Ok(());
    }
    Err(Or::Why(on_object(alloc, Rule::B3, of.kind, of.name.view())?))
}
