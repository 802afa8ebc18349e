//! What rows name: the root disk of an instance, its profiles, and the networks, pools and volumes of devices.
ghost use Rattle.std.specs.Prelude.{◌≡◌, ◌∷◌, [], IfOk, find, is_none, option_map};
ghost use Rattle.std.specs.Option.{option_copied};
ghost use Rattle.plain_lists.specs.Firsts.{first};
ghost use Rattle.row_machine.specs.machine.Rows.{profile_named};
ghost use Rattle.row_machine.specs.machine.SettingRules.{is_one, profile_missing, network_missing, pool_missing};
ghost use Rattle.row_machine.specs.machine.SettingRules.{volume_missing, disk_misses, device_misses, devices_miss};
ghost use Rattle.row_machine.specs.opening.Opening.{rule_of, root_disk_missing, named_row_missing};
ghost use Rattle.row_machine.specs.machine.SettingRules.{root_missing};
ghost use Rattle.rules_opening.specs.Rules.{without_root, source_missing, names_missing, instance_refers_amiss};

use config_lists::{Device, Devices, Root};
use records::{Instance, Profile, Row, Rule};
use row_readings::StateRef;
use size_values::{NoMemory, Text};
use std::alloc::Global;

// ---- the root disk

fn is_one(root: Root) -> bool
    ensures { result ≡ is_one root }
{
    match root {
        Root::None => false,
        Root::One(_) => true,
        Root::Several => false,
    }
}

/// The rule on root disks, where there is not exactly one among the devices.
fn without_root(devices: &Devices) -> Option<Rule>
    ensures { result ≡ without_root devices.now }
{
    if is_one(devices.root()) {
        None
    } else {
        Some(Rule::V4)
    }
}

/// An instance has not exactly one root disk.
#[tactic(auto, unfolding(row_machine::specs::machine::SettingRules::root_missing))]
fn instance_rootless(
    alloc: Global,
    view: &StateRef<'_>,
    row: &Instance,
) -> Result<Option<Rule>, NoMemory>
    ensures { IfOk result (λ found. found ≡ rule_of (root_missing view.now row.now)) }
{
    let expanded = view.expansion(alloc, row)?;
    let found = without_root(&expanded.devices);
    drop(expanded);
    Ok(found)
}

/// A row is an instance that has not exactly one root disk.
pub(crate) fn root_disk_missing(
    alloc: Global,
    view: &StateRef<'_>,
    row: &Row,
) -> Result<Option<Rule>, NoMemory>
    ensures { IfOk result (λ found. found ≡ root_disk_missing view.now row.now) }
{
    match row {
        Row::Instance(row) => instance_rootless(alloc, view, row),
        _ => Ok(None),
    }
}

// ---- what devices name

fn network_missing(view: &StateRef<'_>, project: &str, name: &str) -> Option<Rule>
    ensures { result ≡ rule_of (network_missing view.now project.now name.now) }
{
    let home = view.network_home(project);
    if view.network_named(home, name).is_some() {
        return None;
    }
    Some(Rule::V5)
}

fn pool_missing(view: &StateRef<'_>, name: &str) -> Option<Rule>
    ensures { result ≡ rule_of (pool_missing view.now name.now) }
{
    if view.pool_named(name).is_some() {
        return None;
    }
    Some(Rule::V5)
}

fn volume_missing(view: &StateRef<'_>, project: &str, pool: &str, name: &str) -> Option<Rule>
    ensures { result ≡ rule_of (volume_missing view.now project.now pool.now name.now) }
{
    let home = view.volume_home(project);
    if view.volume_named(home, pool, name).is_some() {
        return None;
    }
    Some(Rule::V5)
}

/// The volume that a disk of a pool names, where it has a source.
fn source_missing(view: &StateRef<'_>, project: &str, device: &Device, pool: &str) -> Option<Rule>
    ensures { result ≡ rule_of (source_missing view.now project.now device.now pool.now) }
{
    match device.get("source") {
        Some(source) => volume_missing(view, project, pool, source),
        None => None,
    }
}

/// A disk in a pool names the pool, and with a source the volume.
fn disk_misses(view: &StateRef<'_>, project: &str, device: &Device, pool: &str) -> Option<Rule>
    ensures { result ≡ rule_of (disk_misses view.now project.now device.now pool.now) }
{
    match pool_missing(view, pool) {
        Some(rule) => Some(rule),
        None => source_missing(view, project, device, pool),
    }
}

/// What a device in a project names: a nic its network, a disk its pool and then its volume.
fn device_misses(view: &StateRef<'_>, project: &str, device: &Device) -> Option<Rule>
    ensures { result ≡ rule_of (device_misses view.now project.now device.now) }
{
    if device.has("type", "nic") {
        return match device.get("network") {
            Some(name) => network_missing(view, project, name),
            None => None,
        };
    }
    if device.has("type", "disk") {
        return match device.get("pool") {
            Some(pool) => disk_misses(view, project, device, pool),
            None => None,
        };
    }
    None
}

/// The first device that names what is not there.
fn devices_miss(view: &StateRef<'_>, project: &str, devices: &Devices) -> Option<Rule>
    ensures { result ≡ rule_of (devices_miss view.now project.now devices.now) }
{
    for place in 0..devices.len() {
        if let Some(rule) = device_misses(view, project, devices.device_at(place)) {
            return Some(rule);
        }
    }
    None
}

// ---- what rows name

/// The first name of which there is no profile.
fn missing_name<'x>(view: &StateRef<'_>, home: &str, names: &'x [Text]) -> Option<&'x Text>
    ensures { option_copied result ≡ find (λ name. is_none (profile_named view.now.profiles home.now name)) names.now }
{
    names
        .iter()
        .find(|name| view.profile_named(home, name.view()).is_none())
}

/// A profile that an instance names is missing.
#[tactic(auto, unfolding(row_machine::specs::machine::SettingRules::profile_missing))]
fn profile_missing(view: &StateRef<'_>, row: &Instance) -> Option<Rule>
    ensures { result ≡ rule_of (profile_missing view.now row.now) }
{
    let home = view.profile_home(row.project.view());
    match missing_name(view, home, row.profiles.view()) {
        Some(_) => Some(Rule::V5),
        None => None,
    }
}

/// What an instance with these devices names is missing.
fn names_missing(view: &StateRef<'_>, row: &Instance, devices: &Devices) -> Option<Rule>
    ensures { result ≡ rule_of (names_missing view.now row.now devices.now) }
{
    match profile_missing(view, row) {
        Some(rule) => Some(rule),
        None => devices_miss(view, row.project.view(), devices),
    }
}

/// What an instance names is missing, a profile or what one of the devices names that it has by them.
fn instance_refers_amiss(
    alloc: Global,
    view: &StateRef<'_>,
    row: &Instance,
) -> Result<Option<Rule>, NoMemory>
    ensures { IfOk result (λ found. found ≡ rule_of (instance_refers_amiss view.now row.now)) }
{
    let expanded = view.expansion(alloc, row)?;
    let found = names_missing(view, row, &expanded.devices);
    drop(expanded);
    Ok(found)
}

/// What a profile or an instance names is missing.
pub(crate) fn named_row_missing(
    alloc: Global,
    view: &StateRef<'_>,
    row: &Row,
) -> Result<Option<Rule>, NoMemory>
    ensures { IfOk result (λ found. found ≡ named_row_missing view.now row.now) }
{
    match row {
        Row::Profile(row) => Ok(devices_miss(view, row.project.view(), &row.devices)),
        Row::Instance(row) => instance_refers_amiss(alloc, view, row),
        _ => Ok(None),
    }
}
