ghost use Rattle.std.specs.Prelude.{◌≡◌};
ghost use Rattle.estate_rules.specs.Uses.{is_disk_in, is_nic_on, is_volume_of, names_network, names_pool, names_volume};

use config_lists::{Device, Devices};

/// Whether one of the devices is a nic on the network of this name.
#[tactic(auto, unfolding(crate::specs::Uses::names_network))]
pub fn names_network(devices: &Devices, name: &str) -> bool
    ensures { result ≡ names_network devices.now name.now }
{
    for place in 0..devices.len() {
        if is_nic_on(devices.device_at(place), name) {
            return true;
        }
    }
    false
}

/// Whether one of the devices is a disk in the storage pool of this name.
#[tactic(auto, unfolding(crate::specs::Uses::names_pool))]
pub fn names_pool(devices: &Devices, name: &str) -> bool
    ensures { result ≡ names_pool devices.now name.now }
{
    for place in 0..devices.len() {
        if is_disk_in(devices.device_at(place), name) {
            return true;
        }
    }
    false
}

/// Whether one of the devices is the custom volume of this name in this pool.
#[tactic(auto, unfolding(crate::specs::Uses::names_volume))]
pub fn names_volume(devices: &Devices, pool: &str, name: &str) -> bool
    ensures { result ≡ names_volume devices.now pool.now name.now }
{
    for place in 0..devices.len() {
        if is_volume_of(devices.device_at(place), pool, name) {
            return true;
        }
    }
    false
}

fn is_nic_on(device: &Device, network: &str) -> bool
    ensures { result ≡ is_nic_on network.now device.now }
{
    device.has("type", "nic") && device.has("network", network)
}

fn is_disk_in(device: &Device, pool: &str) -> bool
    ensures { result ≡ is_disk_in pool.now device.now }
{
    device.has("type", "disk") && device.has("pool", pool)
}

fn is_volume_of(device: &Device, pool: &str, volume: &str) -> bool
    ensures { result ≡ is_volume_of pool.now volume.now device.now }
{
    is_disk_in(device, pool) && device.has("source", volume)
}
