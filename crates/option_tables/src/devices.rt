ghost use Rattle.std.specs.Prelude.{◌≡◌};
ghost use Rattle.std.specs.Result.{result_err};
ghost use Rattle.option_tables.specs.Checks.{devices_fault, device_fault, shape_fault, is_nic_shaped, is_disk_shaped};

use crate::checks::check_keys;
use crate::faults::{DeviceFault, SettingFault};
use crate::names::is_device_name;
use crate::tables::{DeviceType, Table};
use config_lists::{Device, Devices};

/// Checks devices by the table of their types. The first faulty device decides. It takes no memory.
#[tactic(auto, unfolding(crate::specs::Checks::devices_fault))]
pub fn check_devices(devices: &Devices) -> Result<(), SettingFault>
    ensures { result_err result ≡ devices_fault devices.now }
{
    for place in 0..devices.len() {
        if let Err(fault) = check_device(devices.name_at(place), devices.device_at(place)) {
            return Err(SettingFault::Device(place, fault));
        }
    }
    Ok(())
}

#[tactic(auto, unfolding(crate::specs::Checks::device_fault))]
fn check_device(name: &str, device: &Device) -> Result<(), DeviceFault>
    ensures { result_err result ≡ device_fault name.now device.now }
{
    if !is_device_name(name) {
        return Err(DeviceFault::BadName);
    }
    let Some(type_name) = device.get("type") else {
        return Err(DeviceFault::NoType);
    };
    let Some(kind) = DeviceType::from_name(type_name) else {
        return Err(DeviceFault::UnknownType);
    };
    check_keys(Table::Device(kind), device)?;
    check_shape(kind, device)
}

fn check_shape(kind: DeviceType, device: &Device) -> Result<(), DeviceFault>
    ensures { result_err result ≡ shape_fault kind device.now }
{
    match kind {
        DeviceType::Nic if !is_nic_shaped(device) => Err(DeviceFault::NicSource),
        DeviceType::Disk if !is_disk_shaped(device) => Err(DeviceFault::DiskShape),
        _ => Ok(()),
    }
}

/// Whether a nic has exactly one of `network` and `nictype`.
fn is_nic_shaped(nic: &Device) -> bool
    ensures { result ≡ is_nic_shaped nic.now }
{
    if nic.get("network").is_some() {
        nic.get("nictype").is_none()
    } else {
        nic.get("nictype").is_some()
    }
}

/// Whether a disk at `/` has a `pool` and no `source`, and a disk elsewhere a `source`.
fn is_disk_shaped(disk: &Device) -> bool
    ensures { result ≡ is_disk_shaped disk.now }
{
    let has_source = disk.get("source").is_some();
    if disk.has("path", "/") {
        disk.get("pool").is_some() && !has_source
    } else {
        has_source
    }
}
