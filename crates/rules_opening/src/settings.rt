//! Settings and devices that the tables refuse.
ghost use Rattle.std.specs.Prelude.{◌≡◌, option_map};
ghost use Rattle.std.specs.Result.{result_err};
ghost use Rattle.row_machine.specs.machine.SettingRules.{scope_of};
ghost use Rattle.row_machine.specs.machine.State.{State};
ghost use Rattle.row_machine.specs.opening.Opening.{settings_invalid, devices_invalid};
ghost use Rattle.rules_opening.specs.Rules.{fault_rule};

use option_tables::{
    Scope, SettingFault, check_devices, check_instance, check_network, check_pool, check_project,
    check_volume,
};
use records::{Row, Rule};
use size_values::Kind;

/// The rule that a fault breaks.
fn fault_rule(fault: SettingFault) -> Rule
    ensures { result ≡ fault_rule fault }
{
    match fault {
        SettingFault::Unknown(_) => Rule::V1,
        SettingFault::Bad(_, _) => Rule::V2,
        SettingFault::Device(_, _) => Rule::V3,
    }
}

/// The rule that the tables refuse by.
fn refused_by(found: Result<(), SettingFault>) -> Option<Rule>
    ensures { result ≡ option_map fault_rule (result_err found) }
{
    match found {
        Ok(()) => None,
        Err(fault) => Some(fault_rule(fault)),
    }
}

fn scope_of(kind: Kind) -> Scope
    ensures { result ≡ scope_of kind }
{
    match kind {
        Kind::Container => Scope::Container,
        Kind::Machine => Scope::Machine,
    }
}

/// A setting is refused by the tables.
#[tactic(auto, using(crate::proofs::Refused::settings_told))]
pub(crate) fn settings_invalid(row: &Row) -> Option<Rule>
    ensures { (s : State) → result ≡ settings_invalid s row.now }
{
    match row {
        Row::Project(row) => refused_by(check_project(&row.config)),
        Row::Profile(row) => refused_by(check_instance(&row.config, Scope::Any)),
        Row::Network(row) => refused_by(check_network(&row.config)),
        Row::Pool(row) => refused_by(check_pool(&row.config)),
        Row::Volume(row) => refused_by(check_volume(&row.config)),
        Row::Instance(row) => refused_by(check_instance(&row.config, scope_of(row.kind))),
        Row::Snapshot(_) => None,
    }
}

/// A device is refused by the tables.
#[tactic(auto, using(crate::proofs::Refused::devices_told))]
pub(crate) fn devices_invalid(row: &Row) -> Option<Rule>
    ensures { (s : State) → result ≡ devices_invalid s row.now }
{
    match row {
        Row::Profile(row) => refused_by(check_devices(&row.devices)),
        Row::Instance(row) => refused_by(check_devices(&row.devices)),
        _ => None,
    }
}
