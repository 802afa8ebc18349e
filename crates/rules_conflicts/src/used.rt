//! B4: the object that a command renames or deletes has a user.
ghost use Rattle.std.specs.Prelude.{◌≡◌, IfOk};
ghost use Rattle.size_values.specs.Causes.{Says};
ghost use Rattle.row_machine.specs.machine.StandingRules.{object_used, used_by_first};
ghost use Rattle.rules_conflicts.specs.Protected.{on_user};

use crate::asked::{object_changed, renames_or_deletes};
use crate::users::refuse_first_user;
use records::{Command, Refusal, Rule, Target};
use row_readings::StateRef;
use rules_refusals::on_object;
use size_values::{NoMemory, Or, Text};
use std::alloc::Global;

/// The refusal of an object that has a user.
fn on_user(alloc: Global, of: &Target, url: Text) -> Result<Refusal, NoMemory>
    ensures { IfOk result (λ r. r ≡ on_user of.now url) }
{
    let mut refusal = on_object(alloc, Rule::B4, of.kind, of.name.view())?;
    refusal.details.key = url;
    Ok(refusal)
}

/// An object has a user.
fn used_by_first(
    alloc: Global,
    view: &StateRef<'_>,
    command: &Command,
    of: &Target,
) -> Result<(), Or<Refusal>>
    ensures { Says result (used_by_first view.now command.now of.now) }
{
    let home = view.home_of(command.project.view(), of.kind);
    match refuse_first_user(alloc, view, home, of) {
        Ok(()) => Ok(()),
        Err(Or::NoMemory) => Err(Or::NoMemory),
        Err(Or::Why(url)) => Err(Or::Why(on_user(alloc, of, url)?)),
    }
}

/// The object that a command renames or deletes has a user.
#[tactic(auto, unfolding(row_machine::specs::machine::StandingRules::object_used))]
pub(crate) fn object_used(
    alloc: Global,
    view: &StateRef<'_>,
    command: &Command,
) -> Result<(), Or<Refusal>>
    ensures { Says result (object_used view.now command.now) }
{
    if !renames_or_deletes(&command.what) {
        return Ok(());
    }
    match object_changed(&command.what) {
        Some(of) => used_by_first(alloc, view, command, of),
        None => Ok(()),
    }
}
