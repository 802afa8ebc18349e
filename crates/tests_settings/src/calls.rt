//! Each call on settings and devices, run once where there is memory: a body that only gives up would be proved too.
use crate::given::{NamedDevices, Settings, are_devices, config_of, devices_of, is_config};
use config_lists::{Changes, Config, Devices, Root, is_root_disk};
use estate_rules::{good_name, names_network, names_pool, names_volume};
use expansion::Expanded;
use option_tables::{
    Scope, check_devices, check_instance, check_network, check_pool, check_project, check_volume,
    takes_key,
};
use size_values::{NoMemory, ObjectKind};
use std::alloc::Global;

const CONFIG: Settings = &[("user.b", "2"), ("user.a", "1"), ("user.c", "3")];

const SORTED: Settings = &[("user.a", "1"), ("user.b", "2"), ("user.c", "3")];

/// Whether each check takes settings that all of them take.
fn are_taken(config: &Config) -> bool {
    check_instance(config, Scope::Any).is_ok()
        && check_project(config).is_ok()
        && check_network(config).is_ok()
        && check_pool(config).is_ok()
        && check_volume(config).is_ok()
}

/// Whether the answer is settings, and these.
fn is_made(made: Result<Config, NoMemory>, rows: Settings) -> bool {
    let Ok(config) = made else {
        return false;
    };
    let is = is_config(&config, rows);
    drop(config);
    is
}

/// Whether a change of `user.a` is made in settings and in a copy of none.
fn are_changed(alloc: Global, config: &Config) -> bool {
    let mut changes = Changes::new(alloc);
    let are = changes.put("user.a", "9").is_ok()
        && is_made(
            config.patched(&changes),
            &[("user.a", "9"), ("user.b", "2"), ("user.c", "3")],
        )
        && is_made(changes.settled(), &[("user.a", "9")]);
    drop(changes);
    are
}

/// Whether settings are sorted, copied, changed, looked up and removed, and taken by each check.
fn are_settings(alloc: Global) -> bool {
    let mut config = config_of(alloc, CONFIG);
    let are = is_config(&config, SORTED)
        && is_made(config.copy(), SORTED)
        && are_taken(&config)
        && are_changed(alloc, &config)
        && config.get("user.b") == Some("2")
        && config.unset("user.b")
        && is_config(&config, &[("user.a", "1"), ("user.c", "3")]);
    drop(config);
    are
}

#[test]
fn settings_are_kept_and_checked(rt: HostRuntime) {
    assert!(rt; are_settings(rt.alloc()));
    assert!(rt; takes_key("user.*", "user.a"));
    assert!(rt; good_name(ObjectKind::Network, "br0"));
}

const ROOT: Settings = &[("path", "/"), ("pool", "p0"), ("type", "disk")];

const DATA: Settings = &[
    ("path", "/srv"),
    ("pool", "p1"),
    ("source", "v0"),
    ("type", "disk"),
];

const NIC: Settings = &[("network", "br0"), ("type", "nic")];

const DEVICES: NamedDevices = &[("data", DATA), ("eth0", NIC), ("root", ROOT)];

const WITHOUT_DATA: NamedDevices = &[("eth0", NIC), ("root", ROOT)];

/// Whether the device `root` is a root disk.
fn is_root_there(devices: &Devices) -> bool {
    match devices.get("root") {
        Some(device) => is_root_disk(device),
        None => false,
    }
}

/// Whether a network, a pool and a volume are named, and the third device is the root disk.
fn are_used(devices: &Devices) -> bool {
    check_devices(devices).is_ok()
        && names_network(devices, "br0")
        && names_pool(devices, "p0")
        && names_volume(devices, "p1", "v0")
        && devices.root() == Root::One(2)
        && is_root_there(devices)
}

/// Whether the answer is these devices, from which `data` can be removed.
fn are_made(made: Result<Devices, NoMemory>) -> bool {
    let Ok(mut devices) = made else {
        return false;
    };
    let are = are_devices(&devices, DEVICES)
        && devices.remove("data")
        && are_devices(&devices, WITHOUT_DATA);
    drop(devices);
    are
}

/// Whether a layer of the devices over none is these devices and settings.
fn are_laid(alloc: Global, devices: &Devices) -> bool {
    let config = config_of(alloc, CONFIG);
    let mut expanded = Expanded::new(alloc);
    let are = expanded.lay(&config, devices).is_ok()
        && is_config(&expanded.config, SORTED)
        && are_devices(&expanded.devices, DEVICES);
    drop(expanded);
    drop(config);
    are
}

/// Whether devices are kept, copied, replaced by themselves, laid over none, and checked.
fn are_kept(alloc: Global) -> bool {
    let devices = devices_of(alloc, DEVICES);
    let are = devices.len() == 3
        && are_used(&devices)
        && are_made(devices.copy())
        && are_made(devices.replaced(&devices))
        && are_laid(alloc, &devices);
    drop(devices);
    are
}

#[test]
fn devices_are_kept_and_checked(rt: HostRuntime) {
    assert!(rt; are_kept(rt.alloc()));
}
