//! B2: the status of the instance does not allow what a command asks for.
ghost use Rattle.std.specs.Prelude.{ℕ, List, ◌≡◌, option_and_then};
ghost use Rattle.std.specs.Option.{option_map};
ghost use Rattle.size_values.specs.Causes.{Says};
ghost use Rattle.records.specs.declared.commands.Body.{Body as BodyValue};
ghost use Rattle.records.specs.declared.commands.What.TheVariants as what_of;
ghost use Rattle.row_machine.specs.machine.StandingRules.{deed_asked, in_wrong_state, power_of, power_text};
ghost use Rattle.row_machine.specs.machine.StandingRules.{wrong_state};
ghost use Rattle.rules_conflicts.specs.Deeds.{deed_of};

use instance_states::is_allowed;
use records::{Command, Refusal, Rule, Target, What};
use row_readings::{StateRef, power_of};
use rules_refusals::on_name;
use size_values::{Deed, ObjectKind, Or, Power, Text};
use std::alloc::Global;

/// A deed, and the instance that it is done to.
#[derive(Clone, Copy)]
pub(crate) struct Asked<'a> {
    deed: Deed,
    name: &'a str,
}

/// How a status is written.
fn power_text(power: Power) -> &'static str
    ensures { result.now ≡ power_text power }
{
    match power {
        Power::Stopped => "Stopped",
        Power::Running => "Running",
        Power::Frozen => "Frozen",
        Power::Error => "Error",
    }
}

fn creation_deed(of: &Target) -> Option<Asked<'_>>
    ensures { (body : BodyValue) → option_map deed_of result ≡ deed_asked (what_of.Create of.now body) }
{
    match of.kind {
        ObjectKind::Snapshot => Some(Asked {
            deed: Deed::Snap,
            name: of.instance.view(),
        }),
        ObjectKind::Project
        | ObjectKind::Profile
        | ObjectKind::Network
        | ObjectKind::Pool
        | ObjectKind::Volume
        | ObjectKind::Instance
        | ObjectKind::Operation => None,
    }
}

fn rename_deed(of: &Target) -> Option<Asked<'_>>
    ensures { (to : List ℕ) → option_map deed_of result ≡ deed_asked (what_of.Move of.now to) }
{
    match of.kind {
        ObjectKind::Instance => Some(Asked {
            deed: Deed::Rename,
            name: of.name.view(),
        }),
        ObjectKind::Project
        | ObjectKind::Profile
        | ObjectKind::Network
        | ObjectKind::Pool
        | ObjectKind::Volume
        | ObjectKind::Snapshot
        | ObjectKind::Operation => None,
    }
}

fn deletion_deed(of: &Target) -> Option<Asked<'_>>
    ensures { option_map deed_of result ≡ deed_asked (what_of.Delete of.now) }
{
    match of.kind {
        ObjectKind::Instance => Some(Asked {
            deed: Deed::Delete,
            name: of.name.view(),
        }),
        ObjectKind::Project
        | ObjectKind::Profile
        | ObjectKind::Network
        | ObjectKind::Pool
        | ObjectKind::Volume
        | ObjectKind::Snapshot
        | ObjectKind::Operation => None,
    }
}

/// What the command does to which instance, where the instance must have a status for it.
fn deed_asked(what: &What) -> Option<Asked<'_>>
    ensures { option_map deed_of result ≡ deed_asked what.now }
{
    match what {
        What::Create { of, .. } => creation_deed(of),
        What::Move { of, .. } => rename_deed(of),
        What::Delete { of } => deletion_deed(of),
        What::Act { of, action } => Some(Asked {
            deed: Deed::Act {
                action: *action,
                ephemeral: false,
            },
            name: of.name.view(),
        }),
        What::Restore { of, .. } => Some(Asked {
            deed: Deed::Restore,
            name: of.name.view(),
        }),
        What::Root
        | What::Server
        | What::List { .. }
        | What::Get { .. }
        | What::State { .. }
        | What::Put { .. }
        | What::Patch { .. }
        | What::GetOp { .. }
        | What::Cancel { .. }
        | What::Wait { .. } => None,
    }
}

fn in_wrong_state(alloc: Global, asked: Asked<'_>, power: Power) -> Result<(), Or<Refusal>>
    ensures { Says result (in_wrong_state asked.entry.deed asked.entry.name.now power) }
{
    if is_allowed(asked.deed, power) {
        return Ok(());
    }
    let mut refusal = on_name(alloc, Rule::B2, asked.name)?;
    refusal.details.key = Text::from_text(alloc, power_text(power))?;
    Err(Or::Why(refusal))
}

/// The status of the instance does not allow what a command asks for. An instance without a status allows all.
#[tactic(auto, unfolding(row_machine::specs::machine::StandingRules::wrong_state))]
pub(crate) fn wrong_state(
    alloc: Global,
    view: &StateRef<'_>,
    command: &Command,
) -> Result<(), Or<Refusal>>
    ensures { Says result (wrong_state view.now command.now) }
{
    let Some(asked) = deed_asked(&command.what) else {
        return Ok(());
    };
    match power_of(view, command.project.view(), asked.name) {
        Some(power) => in_wrong_state(alloc, asked, power),
        None => Ok(()),
    }
}
