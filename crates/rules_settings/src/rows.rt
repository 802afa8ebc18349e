//! The settings of each kind of row.
ghost use Rattle.std.specs.Prelude.{◌∷◌, []};
ghost use Rattle.std.specs.Option.{option_copied, option_to_list};
ghost use Rattle.plain_lists.specs.Firsts.{first_of};
ghost use Rattle.size_values.specs.Causes.{Says};
ghost use Rattle.row_machine.specs.machine.Changes.{rows_put};
ghost use Rattle.row_machine.specs.machine.SettingRules.{own_default, profile_settings, row_settings, settings_broken};
ghost use Rattle.records.specs.declared.rows.Row.TheVariants as row_of;

use crate::devices::{devices_miss, settings_refuse, tables_refuse};
use crate::instances::{instance_settings, naming_settings};
use option_tables::{
    Scope, check_instance, check_network, check_pool, check_project, check_volume,
};
use records::{Profile, Project, Refusal, Row};
use row_machine::RowChange;
use row_readings::StateRef;
use size_values::Or;
use std::alloc::Global;

/// The devices of the profile `default` of a project, where it has one.
fn own_default(alloc: Global, view: &StateRef<'_>, row: &Project) -> Result<(), Or<Refusal>>
    ensures { Says result (own_default view.now row.now) }
{
    match view.profile_named(row.name.view(), "default") {
        Some(profile) => devices_miss(alloc, view, profile.project.view(), &profile.devices),
        None => Ok(()),
    }
}

#[tactic(auto, unfolding(row_machine::specs::machine::SettingRules::row_settings))]
fn project_settings(alloc: Global, view: &StateRef<'_>, row: &Project) -> Result<(), Or<Refusal>>
    ensures { Says result (row_settings view.now (row_of.Project row.now)) }
{
    settings_refuse(alloc, &row.config, check_project(&row.config))?;
    own_default(alloc, view, row)
}

/// A profile by itself.
#[tactic(auto, unfolding(row_machine::specs::machine::SettingRules::profile_settings))]
fn profile_settings(alloc: Global, view: &StateRef<'_>, row: &Profile) -> Result<(), Or<Refusal>>
    ensures { Says result (profile_settings view.now row.now) }
{
    let settings = check_instance(&row.config, Scope::Any);
    tables_refuse(alloc, &row.config, settings, &row.devices)?;
    devices_miss(alloc, view, row.project.view(), &row.devices)
}

/// A profile by itself and then each instance that names it.
#[tactic(auto, unfolding(row_machine::specs::machine::SettingRules::row_settings))]
fn profile_and_named(alloc: Global, view: &StateRef<'_>, row: &Profile) -> Result<(), Or<Refusal>>
    ensures { Says result (row_settings view.now (row_of.Profile row.now)) }
{
    profile_settings(alloc, view, row)?;
    naming_settings(alloc, view, row)
}

/// The first rule on settings that a row of the view breaks.
#[tactic(auto, unfolding(row_machine::specs::machine::SettingRules::row_settings))]
fn row_settings(alloc: Global, view: &StateRef<'_>, row: &Row) -> Result<(), Or<Refusal>>
    ensures { Says result (row_settings view.now row.now) }
{
    match row {
        Row::Project(row) => project_settings(alloc, view, row),
        Row::Profile(row) => profile_and_named(alloc, view, row),
        Row::Network(row) => settings_refuse(alloc, &row.config, check_network(&row.config)),
        Row::Pool(row) => settings_refuse(alloc, &row.config, check_pool(&row.config)),
        Row::Volume(row) => settings_refuse(alloc, &row.config, check_volume(&row.config)),
        Row::Instance(row) => instance_settings(alloc, view, row),
        Row::Snapshot(_) => Ok(()),
    }
}

fn change_settings(
    alloc: Global,
    view: &StateRef<'_>,
    change: &RowChange,
) -> Result<(), Or<Refusal>>
    ensures { Says result (first_of (row_settings view.now) (rows_put (change.now ∷ []))) }
{
    match change {
        RowChange::Put(row) => row_settings(alloc, view, row),
        RowChange::Remove(_, _) => Ok(()),
    }
}

fn changes_break(
    alloc: Global,
    view: &StateRef<'_>,
    changes: &[RowChange],
) -> Result<(), Or<Refusal>>
    ensures { Says result (first_of (λ c. first_of (row_settings view.now) (rows_put (c ∷ []))) changes.now) }
{
    for change in changes {
        if let Err(why) = change_settings(alloc, view, change) {
            return Err(why);
        }
    }
    Ok(())
}

/// The first rule on settings that one of the rows breaks which the changes put, by the rows as they stand after them.
#[tactic(auto, unfolding(row_machine::specs::machine::SettingRules::settings_broken))]
pub fn settings_broken(
    alloc: Global,
    after: &StateRef<'_>,
    changes: &[RowChange],
) -> Result<(), Or<Refusal>>
    ensures { Says result (settings_broken after.now (rows_put changes.now)) }
{
    changes_break(alloc, after, changes)
}

/// The first rule on settings that the claimed row of a new operation breaks, by the rows and claims as they stand with
/// it.
#[tactic(auto, unfolding(row_machine::specs::machine::SettingRules::settings_broken))]
pub fn claim_settings_broken(
    alloc: Global,
    after: &StateRef<'_>,
    claim: Option<&Row>,
) -> Result<(), Or<Refusal>>
    ensures { Says result (settings_broken after.now (option_to_list (option_copied claim.entry))) }
{
    match claim {
        Some(row) => row_settings(alloc, after, row),
        None => Ok(()),
    }
}
