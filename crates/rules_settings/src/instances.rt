//! The settings of an instance, and of the instances that name a profile.
ghost use Rattle.std.specs.Prelude.{◌≡◌, if◌then◌else◌, None, Some, is_none, find};
ghost use Rattle.std.specs.List.{list_any};
ghost use Rattle.std.specs.Option.{option_copied};
ghost use Rattle.std.specs.Str.{bytes_eq};
ghost use Rattle.plain_lists.specs.Firsts.{first_of};
ghost use Rattle.size_values.specs.Causes.{Says};
ghost use Rattle.config_lists.specs.Devices.{root_of};
ghost use Rattle.records.specs.declared.refusals.Rule.TheVariants as rule;
ghost use Rattle.row_machine.specs.machine.Rows.{profile_named};
ghost use Rattle.row_machine.specs.machine.Holders.{names_profile};
ghost use Rattle.row_machine.specs.machine.Refusals.{on_name};
ghost use Rattle.row_machine.specs.machine.SettingRules.{scope_of, is_one, profile_missing, instance_settings, naming};
ghost use Rattle.rules_settings.specs.Named.{with_devices, where_named, where_claimed, all_named};

use crate::devices::{devices_miss, tables_refuse};
use config_lists::{Devices, Root};
use operations::Operation;
use option_tables::{Scope, check_instance};
use records::{Instance, Profile, Refusal, Rule};
use row_machine::Task;
use row_readings::{StateRef, claimed_instance, rows_at_home};
use rules_refusals::{on_name, on_object};
use size_values::{Boxed, Kind, ObjectKind, Or, Text};
use std::alloc::Global;

fn scope_of(kind: Kind) -> Scope
    ensures { result ≡ scope_of kind }
{
    match kind {
        Kind::Container => Scope::Container,
        Kind::Machine => Scope::Machine,
    }
}

fn is_one(root: Root) -> bool
    ensures { result ≡ is_one root }
{
    match root {
        Root::None => false,
        Root::One(_) => true,
        Root::Several => false,
    }
}

/// Not exactly one root disk.
fn root_missing(alloc: Global, devices: &Devices, name: &str) -> Result<(), Or<Refusal>>
    ensures { Says result (if is_one (root_of devices.now) then None else Some (on_name rule.V4 name.now)) }
{
    if is_one(devices.root()) {
        return Ok(());
    }
    Err(Or::Why(on_name(alloc, Rule::V4, name)?))
}

/// The first name of which there is no profile.
fn missing_name<'x>(view: &StateRef<'_>, home: &str, names: &'x [Text]) -> Option<&'x Text>
    ensures { option_copied result ≡ find (λ name. is_none (profile_named view.now.profiles home.now name)) names.now }
{
    names
        .iter()
        .find(|name| view.profile_named(home, name.view()).is_none())
}

/// A profile that an instance names is missing.
#[tactic(auto, unfolding(row_machine::specs::machine::SettingRules::profile_missing))]
fn profile_missing(alloc: Global, view: &StateRef<'_>, row: &Instance) -> Result<(), Or<Refusal>>
    ensures { Says result (profile_missing view.now row.now) }
{
    let home = view.profile_home(row.project.view());
    match missing_name(view, home, row.profiles.view()) {
        Some(name) => Err(Or::Why(on_object(alloc, Rule::V5, ObjectKind::Profile, name.view())?)),
        None => Ok(()),
    }
}

/// The first rule that an instance breaks with the devices that it has, those of its profiles among them.
fn expansion_broken(
    alloc: Global,
    view: &StateRef<'_>,
    row: &Instance,
    devices: &Devices,
) -> Result<(), Or<Refusal>>
    ensures { Says result (with_devices view.now row.now devices.now) }
{
    root_missing(alloc, devices, row.name.view())?;
    profile_missing(alloc, view, row)?;
    devices_miss(alloc, view, row.project.view(), devices)
}

/// The first rule on settings that an instance breaks: its own settings and devices, and what its expansion names.
#[tactic(auto, unfolding(row_machine::specs::machine::SettingRules::instance_settings, row_machine::specs::machine::SettingRules::root_missing))]
pub(crate) fn instance_settings(
    alloc: Global,
    view: &StateRef<'_>,
    row: &Instance,
) -> Result<(), Or<Refusal>>
    ensures { Says result (instance_settings view.now row.now) }
{
    let settings = check_instance(&row.config, scope_of(row.kind));
    tables_refuse(alloc, &row.config, settings, &row.devices)?;
    let expanded = view.expansion(alloc, row)?;
    let broken = expansion_broken(alloc, view, row, &expanded.devices);
    drop(expanded);
    broken
}

// ---- the instances that name a profile

fn is_among(names: &[Text], name: &str) -> bool
    ensures { result ≡ list_any (λ other. bytes_eq other name.now) names.now }
{
    names.iter().any(|other| other.view() == name)
}

fn names_profile(view: &StateRef<'_>, profile: &Profile, row: &Instance) -> bool
    ensures { result ≡ names_profile view.now profile.now.project profile.now.name row.now }
{
    view.profile_home(row.project.view()) == profile.project.view()
        && is_among(row.profiles.view(), profile.name.view())
}

/// An instance that names the profile.
fn settings_where_named(
    alloc: Global,
    view: &StateRef<'_>,
    profile: &Profile,
    row: &Instance,
) -> Result<(), Or<Refusal>>
    ensures { Says result (where_named view.now profile.now row.now) }
{
    if !names_profile(view, profile, row) {
        return Ok(());
    }
    instance_settings(alloc, view, row)
}

fn instances_break(
    alloc: Global,
    view: &StateRef<'_>,
    profile: &Profile,
    rows: &[Boxed<Instance>],
) -> Result<(), Or<Refusal>>
    ensures { Says result (first_of (where_named view.now profile.now) rows.now) }
{
    for row in rows {
        if let Err(why) = settings_where_named(alloc, view, profile, row) {
            return Err(why);
        }
    }
    Ok(())
}

/// The instances that are there. Those of projects that can't have the home of the profile are not gone over.
fn instances_at_home_break(
    alloc: Global,
    view: &StateRef<'_>,
    profile: &Profile,
) -> Result<(), Or<Refusal>>
    ensures { Says result (first_of (where_named view.now profile.now) view.now.instances) }
{
    let rows = rows_at_home(view.instances, profile.project.view());
    instances_break(alloc, view, profile, rows)
}

fn claim_breaks(
    alloc: Global,
    view: &StateRef<'_>,
    profile: &Profile,
    work: &Task,
) -> Result<(), Or<Refusal>>
    ensures { Says result (where_claimed view.now profile.now work.now) }
{
    match claimed_instance(work) {
        Some(row) => settings_where_named(alloc, view, profile, row),
        None => Ok(()),
    }
}

fn claims_break(
    alloc: Global,
    view: &StateRef<'_>,
    profile: &Profile,
    live: &[Operation<Task>],
) -> Result<(), Or<Refusal>>
    ensures { Says result (first_of (λ o. where_claimed view.now profile.now o.work) live.now) }
{
    for operation in live {
        if let Err(why) = claim_breaks(alloc, view, profile, &operation.work) {
            return Err(why);
        }
    }
    Ok(())
}

fn named_broken(alloc: Global, view: &StateRef<'_>, profile: &Profile) -> Result<(), Or<Refusal>>
    ensures { Says result (all_named view.now profile.now) }
{
    instances_at_home_break(alloc, view, profile)?;
    claims_break(alloc, view, profile, view.live)
}

/// The first of the instances that are or would be there and name a profile that breaks a rule on settings.
pub(crate) fn naming_settings(
    alloc: Global,
    view: &StateRef<'_>,
    profile: &Profile,
) -> Result<(), Or<Refusal>>
    ensures { Says result (first_of (instance_settings view.now) (naming view.now profile.now)) }
{
    named_broken(alloc, view, profile)
}
