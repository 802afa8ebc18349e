//! Settings and devices against the tables of options: V1 to V3.
ghost use Rattle.std.specs.Prelude.{◌≡◌, IfOk};
ghost use Rattle.std.specs.Map.{keys_of};
ghost use Rattle.std.specs.Result.{result_err};
ghost use Rattle.row_machine.specs.machine.Refusals.{no_details};
ghost use Rattle.row_machine.specs.machine.SettingRules.{text_at, device_at, device_fault_number, faulty_key};
ghost use Rattle.row_machine.specs.machine.SettingRules.{setting_refusal, tables_break};

use config_lists::{Config, Devices};
use option_tables::{DeviceFault, SettingFault, check_devices};
use records::{Details, Refusal, Rule};
use size_values::{NoMemory, Text};
use std::alloc::Global;

/// The key of settings at a place, or nothing after all of them.
pub fn key_at(config: &Config, place: usize) -> &str
    ensures { result.now ≡ text_at (keys_of config.now) place }
{
    if place < config.len() {
        config.key_at(place)
    } else {
        ""
    }
}

/// The name of devices at a place, or nothing after all of them.
pub fn name_at(devices: &Devices, place: usize) -> &str
    ensures { result.now ≡ text_at (keys_of devices.now) place }
{
    if place < devices.len() {
        devices.name_at(place)
    } else {
        ""
    }
}

/// The numbers by which V3 tells a device's fault.
fn device_fault_number(why: DeviceFault) -> u64
    ensures { result ≡ device_fault_number why }
{
    match why {
        DeviceFault::BadName => 1,
        DeviceFault::NoType => 2,
        DeviceFault::UnknownType => 3,
        DeviceFault::UnknownKey(_) => 4,
        DeviceFault::BadValue(_, _) => 5,
        DeviceFault::NicSource => 6,
        DeviceFault::DiskShape => 7,
    }
}

fn device_key_at(devices: &Devices, place: usize, key: usize) -> &str
    ensures { result.now ≡ text_at (keys_of (device_at devices.now place)) key }
{
    if place < devices.len() {
        key_at(devices.device_at(place), key)
    } else {
        ""
    }
}

/// The key of the device at a place at which the fault is.
fn faulty_key(devices: &Devices, place: usize, why: DeviceFault) -> &str
    ensures { result.now ≡ faulty_key (device_at devices.now place) why }
{
    match why {
        DeviceFault::UnknownKey(key) => device_key_at(devices, place, key),
        DeviceFault::BadValue(key, _) => device_key_at(devices, place, key),
        DeviceFault::BadName => "",
        DeviceFault::NoType => "",
        DeviceFault::UnknownType => "",
        DeviceFault::NicSource => "",
        DeviceFault::DiskShape => "",
    }
}

/// The rule, a key of an object and the number of a fault.
fn on_setting(
    alloc: Global,
    rule: Rule,
    key: &str,
    name: &str,
    number: u64,
) -> Result<Refusal, NoMemory>
    ensures { IfOk result (λ r. r
        ≡ record { rule = rule; details = record no_details { key = key.now; name = name.now; number = number } }) }
{
    let key = Text::from_text(alloc, key)?;
    let name = Text::from_text(alloc, name)?;
    let details = Details {
        kind: Text::new(alloc),
        project: Text::new(alloc),
        name,
        key,
        number,
        used: 0,
        asked: 0,
        limit: 0,
    };
    Ok(Refusal { rule, details })
}

fn setting_refusal(
    alloc: Global,
    config: &Config,
    devices: &Devices,
    fault: SettingFault,
) -> Result<Refusal, NoMemory>
    ensures { IfOk result (λ r. r ≡ setting_refusal config.now devices.now fault) }
{
    match fault {
        SettingFault::Unknown(place) => on_setting(alloc, Rule::V1, key_at(config, place), "", 0),
        SettingFault::Bad(place, why) => on_setting(
            alloc,
            Rule::V2,
            key_at(config, place),
            "",
            why.number(),
        ),
        SettingFault::Device(place, why) => on_setting(
            alloc,
            Rule::V3,
            faulty_key(devices, place, why),
            name_at(devices, place),
            device_fault_number(why),
        ),
    }
}

/// Settings and devices against the tables, V1 to V3: the first fault of the settings, or else of the devices.
pub fn tables_break(
    alloc: Global,
    config: &Config,
    settings: Result<(), SettingFault>,
    devices: &Devices,
) -> Result<Option<Refusal>, NoMemory>
    ensures { IfOk result (λ r. r ≡ tables_break config.now (result_err settings) devices.now) }
{
    if let Err(fault) = settings {
        let refusal = setting_refusal(alloc, config, devices, fault)?;
        return Ok(Some(refusal));
    }
    match check_devices(devices) {
        Ok(()) => Ok(None),
        Err(fault) => {
            let refusal = setting_refusal(alloc, config, devices, fault)?;
            Ok(Some(refusal))
        }
    }
}
