use config_lists::{Changes, Device, Devices};
use records::{Body, Origin};
use rows_made::{
    LARGEST_ROW, cap_of, largest_row_is_64_kib, new_config, new_description, new_devices,
    patched_config, patched_description, patched_devices,
};
use size_values::{NoMemory, ObjectKind, Text};
use std::alloc::Global;
use tests_given::{both, config};

/// A part of a row that a body gives.
#[derive(Clone, Copy)]
enum Given {
    NewText,
    NewConfig,
    NewDevices,
    PatchedText,
    PatchedConfig,
    PatchedDevices,
}

const PARTS: &[(Given, &str)] = &[
    (Given::NewText, "new description"),
    (Given::NewConfig, "new settings"),
    (Given::NewDevices, "new devices"),
    (Given::PatchedText, "patched description"),
    (Given::PatchedConfig, "patched settings"),
    (Given::PatchedDevices, "patched devices"),
];

/// How many rows there may be of each kind. Operations are no rows.
const CAPS: &[(ObjectKind, u64)] = &[
    (ObjectKind::Project, 1_024),
    (ObjectKind::Profile, 16_384),
    (ObjectKind::Network, 1_024),
    (ObjectKind::Pool, 64),
    (ObjectKind::Volume, 65_536),
    (ObjectKind::Instance, 65_536),
    (ObjectKind::Snapshot, 65_536),
    (ObjectKind::Operation, 0),
];

/// The changes that take `a` away and set `b` to 2.
fn changes(alloc: Global) -> Result<Changes, NoMemory> {
    let mut changes = Changes::new(alloc);
    changes.put("a", "")?;
    changes.put("b", "2")?;
    Ok(changes)
}

/// A device without settings, of this name.
fn devices(alloc: Global, name: &str) -> Result<Devices, NoMemory> {
    let mut devices = Devices::new(alloc);
    devices.put(name, Device::new(alloc))?;
    Ok(devices)
}

/// A body with a text, two changes and the device `root`.
fn full_body(alloc: Global) -> Result<Body, NoMemory> {
    let settings = both(changes(alloc), devices(alloc, "root"));
    let ((config, devices), text) = both(settings, Text::from_text(alloc, "new"))?;
    Ok(Body {
        description: Some(text),
        config: Some(config),
        devices: Some(devices),
        profiles: None,
        kind: None,
        ephemeral: None,
        driver: None,
        origin: Origin::None,
    })
}

fn is_text(text: Result<Text, NoMemory>) -> bool {
    match text {
        Ok(text) => {
            let is_so = text.view() == "new";
            drop(text);
            is_so
        }
        Err(_) => false,
    }
}

/// Only `b` has a value.
fn has_new_config(alloc: Global, body: &Body) -> bool {
    match new_config(alloc, body) {
        Ok(config) => {
            let is_so = config.len() == 1 && config.has("b", "2");
            drop(config);
            is_so
        }
        Err(_) => false,
    }
}

/// Whether there are so many devices.
fn has_devices(devices: Result<Devices, NoMemory>, count: usize) -> bool {
    match devices {
        Ok(devices) => {
            let is_so = devices.len() == count;
            drop(devices);
            is_so
        }
        Err(_) => false,
    }
}

fn has_new_devices(alloc: Global, body: &Body) -> bool {
    has_devices(new_devices(alloc, body), 1)
}

/// Of the settings `a` and `c`, `a` went, and `b` came.
fn has_patched_config(alloc: Global, body: &Body) -> bool {
    let Ok(old) = config(alloc, &[("a", "1"), ("c", "3")]) else {
        return false;
    };
    let patched = patched_config(&old, body);
    drop(old);
    match patched {
        Ok(config) => {
            let is_so = config.len() == 2 && config.has("b", "2") && config.has("c", "3");
            drop(config);
            is_so
        }
        Err(_) => false,
    }
}

/// The old device stays beside the new one.
fn has_patched_devices(alloc: Global, body: &Body) -> bool {
    let Ok(old) = devices(alloc, "eth0") else {
        return false;
    };
    let patched = patched_devices(&old, body);
    drop(old);
    has_devices(patched, 2)
}

/// Whether a part is that of the body, over the old one where there is one.
fn is_right(alloc: Global, body: &Body, part: Given) -> bool {
    match part {
        Given::NewText => is_text(new_description(alloc, body)),
        Given::NewConfig => has_new_config(alloc, body),
        Given::NewDevices => has_new_devices(alloc, body),
        Given::PatchedText => is_text(patched_description(alloc, &Text::new(alloc), body)),
        Given::PatchedConfig => has_patched_config(alloc, body),
        Given::PatchedDevices => has_patched_devices(alloc, body),
    }
}

/// The same of a body of its own.
fn makes(alloc: Global, part: Given) -> bool {
    match full_body(alloc) {
        Ok(body) => {
            let right = is_right(alloc, &body, part);
            drop(body);
            right
        }
        Err(_) => false,
    }
}

#[test]
fn bodies_make_parts(rt: HostRuntime) {
    for (part, name) in PARTS {
        assert!(rt; makes(rt.alloc(), *part), "{name}");
    }
}

#[test]
fn rows_are_few_and_small(rt: HostRuntime) {
    for (kind, cap) in CAPS {
        assert!(rt; cap_of(*kind) == *cap, "{cap}");
    }
    largest_row_is_64_kib();
    assert!(rt; LARGEST_ROW == 65_536);
}
