//! Settings and devices by themselves: what the tables of options refuse, V1 to V3, and what devices name and is
//! missing, V5.
ghost use Rattle.std.specs.Prelude.{[]};
ghost use Rattle.std.specs.Result.{result_err};
ghost use Rattle.size_values.specs.Causes.{Says};
ghost use Rattle.row_machine.specs.machine.SettingRules.{tables_break, network_missing, pool_missing, volume_missing};
ghost use Rattle.row_machine.specs.machine.SettingRules.{disk_misses, device_misses, devices_miss};

use config_lists::{Config, Device, Devices};
use option_tables::SettingFault;
use records::{Refusal, Rule};
use row_readings::StateRef;
use rules_refusals::{on_object, tables_break};
use size_values::{ObjectKind, Or};
use std::alloc::Global;

/// Settings and devices against the tables: the first fault of the settings, or else of the devices.
pub(crate) fn tables_refuse(
    alloc: Global,
    config: &Config,
    settings: Result<(), SettingFault>,
    devices: &Devices,
) -> Result<(), Or<Refusal>>
    ensures { Says result (tables_break config.now (result_err settings) devices.now) }
{
    match tables_break(alloc, config, settings, devices)? {
        Some(refusal) => Err(Or::Why(refusal)),
        None => Ok(()),
    }
}

/// The same of a row that has no devices.
pub(crate) fn settings_refuse(
    alloc: Global,
    config: &Config,
    settings: Result<(), SettingFault>,
) -> Result<(), Or<Refusal>>
    ensures { Says result (tables_break config.now (result_err settings) []) }
{
    let none = Devices::new(alloc);
    let refused = tables_refuse(alloc, config, settings, &none);
    drop(none);
    refused
}

fn network_missing(
    alloc: Global,
    view: &StateRef<'_>,
    project: &str,
    name: &str,
) -> Result<(), Or<Refusal>>
    ensures { Says result (network_missing view.now project.now name.now) }
{
    let home = view.network_home(project);
    if view.network_named(home, name).is_some() {
        return Ok(());
    }
    Err(Or::Why(on_object(alloc, Rule::V5, ObjectKind::Network, name)?))
}

fn pool_missing(alloc: Global, view: &StateRef<'_>, name: &str) -> Result<(), Or<Refusal>>
    ensures { Says result (pool_missing view.now name.now) }
{
    if view.pool_named(name).is_some() {
        return Ok(());
    }
    Err(Or::Why(on_object(alloc, Rule::V5, ObjectKind::Pool, name)?))
}

fn volume_missing(
    alloc: Global,
    view: &StateRef<'_>,
    project: &str,
    pool: &str,
    name: &str,
) -> Result<(), Or<Refusal>>
    ensures { Says result (volume_missing view.now project.now pool.now name.now) }
{
    let home = view.volume_home(project);
    if view.volume_named(home, pool, name).is_some() {
        return Ok(());
    }
    Err(Or::Why(on_object(alloc, Rule::V5, ObjectKind::Volume, name)?))
}

/// A disk in a pool names the pool, and with a source the volume.
fn disk_misses(
    alloc: Global,
    view: &StateRef<'_>,
    project: &str,
    device: &Device,
    pool: &str,
) -> Result<(), Or<Refusal>>
    ensures { Says result (disk_misses view.now project.now device.now pool.now) }
{
    pool_missing(alloc, view, pool)?;
    match device.get("source") {
        Some(source) => volume_missing(alloc, view, project, pool, source),
        None => Ok(()),
    }
}

/// What a device in a project names: a nic its network, a disk its pool and then its volume.
fn device_misses(
    alloc: Global,
    view: &StateRef<'_>,
    project: &str,
    device: &Device,
) -> Result<(), Or<Refusal>>
    ensures { Says result (device_misses view.now project.now device.now) }
{
    if device.has("type", "nic") {
        return match device.get("network") {
            Some(name) => network_missing(alloc, view, project, name),
            None => Ok(()),
        };
    }
    if device.has("type", "disk") {
        return match device.get("pool") {
            Some(pool) => disk_misses(alloc, view, project, device, pool),
            None => Ok(()),
        };
    }
    Ok(())
}

/// The first device that names what is not there.
#[tactic(auto, unfolding(row_machine::specs::machine::SettingRules::devices_miss))]
pub(crate) fn devices_miss(
    alloc: Global,
    view: &StateRef<'_>,
    project: &str,
    devices: &Devices,
) -> Result<(), Or<Refusal>>
    ensures { Says result (devices_miss view.now project.now devices.now) }
{
    for place in 0..devices.len() {
        if let Err(why) = device_misses(alloc, view, project, devices.device_at(place)) {
            return Err(why);
        }
    }
    Ok(())
}
