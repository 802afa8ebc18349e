//! B6: an operation holds the profile.
ghost use Rattle.std.specs.Prelude.{◌≡◌, find};
ghost use Rattle.std.specs.List.{list_any};
ghost use Rattle.std.specs.Option.{option_copied, option_to_list};
ghost use Rattle.size_values.specs.Causes.{Says};
ghost use Rattle.row_machine.specs.machine.Holders.{claim_rows, holder_of, names_profile};
ghost use Rattle.row_machine.specs.machine.StandingRules.{held_profile, profile_held};

use crate::asked::object_changed;
use object_users::names_profile;
use operations::Operation;
use records::{Command, Instance, Refusal, Rule, Target};
use row_machine::Task;
use row_readings::{StateRef, claimed_instance, replaced_instance};
use rules_refusals::on_name;
use size_values::{ObjectKind, Or};
use std::alloc::Global;

fn may_name(view: &StateRef<'_>, home: &str, profile: &str, row: Option<&Instance>) -> bool
    ensures { result
        ≡ list_any (names_profile view.now home.now profile.now) (option_to_list (option_copied row.entry)) }
{
    match row {
        Some(row) => names_profile(view, home, profile, row),
        None => false,
    }
}

/// Whether a claim names the profile: the instance that it would put, or the one that this one replaces.
fn claim_names(view: &StateRef<'_>, home: &str, profile: &str, work: &Task) -> bool
    ensures { result ≡ list_any (names_profile view.now home.now profile.now) (claim_rows view.now work.now) }
{
    may_name(view, home, profile, claimed_instance(work))
        || may_name(view, home, profile, replaced_instance(view, work))
}

/// The lowest-numbered live operation whose claim names the profile.
#[tactic(auto, unfolding(row_machine::specs::machine::Holders::holder_of))]
fn holder_of<'x>(view: &StateRef<'x>, home: &str, profile: &str) -> Option<&'x Operation<Task>>
    ensures { option_copied result ≡ holder_of view.now home.now profile.now }
{
    view.live
        .iter()
        .find(|o| claim_names(view, home, profile, &o.work))
}

fn held_profile(
    alloc: Global,
    view: &StateRef<'_>,
    command: &Command,
    of: &Target,
) -> Result<(), Or<Refusal>>
    ensures { Says result (held_profile view.now command.now of.now) }
{
    match of.kind {
        ObjectKind::Profile => {
            let home = view.profile_home(command.project.view());
            let Some(operation) = holder_of(view, home, of.name.view()) else {
                return Ok(());
            };
            let mut refusal = on_name(alloc, Rule::B6, of.name.view())?;
            refusal.details.number = operation.number;
            Err(Or::Why(refusal))
        }
        ObjectKind::Project
        | ObjectKind::Network
        | ObjectKind::Pool
        | ObjectKind::Volume
        | ObjectKind::Instance
        | ObjectKind::Snapshot
        | ObjectKind::Operation => Ok(()),
    }
}

/// An operation holds the profile that a command changes.
#[tactic(auto, unfolding(row_machine::specs::machine::StandingRules::profile_held))]
pub(crate) fn profile_held(
    alloc: Global,
    view: &StateRef<'_>,
    command: &Command,
) -> Result<(), Or<Refusal>>
    ensures { Says result (profile_held view.now command.now) }
{
    match object_changed(&command.what) {
        Some(of) => held_profile(alloc, view, command, of),
        None => Ok(()),
    }
}
