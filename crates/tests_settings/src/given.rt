//! Settings and devices that are made of a table, and whether they are as a table says. Where memory is refused, a row
//! is missing in what is made, and it is not as its table says.
use config_lists::{Config, Devices};
use std::alloc::Global;

/// Keys and values.
pub type Settings = &'static [(&'static str, &'static str)];

/// Names of devices, and the settings of each.
pub type NamedDevices = &'static [(&'static str, Settings)];

/// Sets a key, unless it or its value is empty.
pub fn set(config: &mut Config, key: &str, value: &str) {
    if !key.is_empty() && !value.is_empty() {
        let _ = config.set(key, value);
    }
}

/// The settings that are set in this order; those whose key or value is empty are left out.
pub fn config_of(alloc: Global, rows: &[(&str, &str)]) -> Config {
    let mut config = Config::new(alloc);
    for (key, value) in rows {
        set(&mut config, key, value);
    }
    config
}

/// The devices that are put in this order.
pub fn devices_of(alloc: Global, rows: &[(&str, &[(&str, &str)])]) -> Devices {
    let mut devices = Devices::new(alloc);
    for (name, settings) in rows {
        let _ = devices.put(name, config_of(alloc, settings));
    }
    devices
}

/// Whether these are the settings, in this order, and each key finds its value.
pub fn is_config(config: &Config, rows: Settings) -> bool {
    for (place, (key, value)) in rows.iter().enumerate() {
        let is = place < config.len()
            && config.key_at(place) == *key
            && config.value_at(place) == *value
            && config.has(key, value);
        if !is {
            return false;
        }
    }
    config.len() == rows.len()
}

/// Whether these are the devices, in this order, each whole.
pub fn are_devices(devices: &Devices, rows: NamedDevices) -> bool {
    for (place, (name, settings)) in rows.iter().enumerate() {
        let is = place < devices.len()
            && devices.name_at(place) == *name
            && is_config(devices.device_at(place), settings);
        if !is {
            return false;
        }
    }
    devices.len() == rows.len()
}
