ghost use Rattle.std.specs.Prelude.{◌≡◌, [], IfOk, OnOk};
ghost use Rattle.serde_json.specs.View.{view, members_view};
ghost use Rattle.serde_json.specs.Find.{as_str};
ghost use Rattle.rest_bodies.specs.Settings.{is_setting, all_settings, fits_settings, all_devices, fits_devices};
ghost use Rattle.rest_bodies.specs.Settings.{with_change, changes_after, changes_of, with_setting, settings_after};
ghost use Rattle.rest_bodies.specs.Settings.{device_of, devices_after, devices_of};

use config_lists::{Changes, Device, Devices};
use serde_json::{Map, Value};
use size_values::NoMemory;
use std::alloc::Global;

/// Whether a member is a text under a key that is not empty. A null is no text.
fn is_setting(key: &str, value: &Value) -> bool
    ensures { result ≡ is_setting key.now (view value.now) }
{
    !key.is_empty() && value.as_str().is_some()
}

fn all_settings(members: &Map<String, Value>) -> bool
    ensures { result ≡ all_settings (members_view members.now.entries) }
{
    for (key, value) in members.iter() {
        if !is_setting(key, value) {
            return false;
        }
    }
    true
}

/// Whether a value is an object of texts, without an empty key.
#[tactic(auto, unfolding(crate::specs::Settings::fits_settings))]
pub(crate) fn fits_settings(value: &Value) -> bool
    ensures { result ≡ fits_settings (view value.now) }
{
    match value.as_object() {
        Some(members) => all_settings(members),
        None => false,
    }
}

fn all_devices(members: &Map<String, Value>) -> bool
    ensures { result ≡ all_devices (members_view members.now.entries) }
{
    for (_, value) in members.iter() {
        if !fits_settings(value) {
            return false;
        }
    }
    true
}

/// Whether a value is an object of objects of texts, without an empty key inside.
#[tactic(auto, unfolding(crate::specs::Settings::fits_devices))]
pub(crate) fn fits_devices(value: &Value) -> bool
    ensures { result ≡ fits_devices (view value.now) }
{
    match value.as_object() {
        Some(members) => all_devices(members),
        None => false,
    }
}

/// Adds a change. What is no setting changes nothing.
fn put_change(changes: &mut Changes, key: &str, value: &Value) -> Result<(), NoMemory>
    ensures { OnOk result (changes.new ≡ with_change changes.old key.now (as_str (view value.now))) }
{
    let Some(text) = value.as_str() else {
        return Ok(());
    };
    if key.is_empty() {
        return Ok(());
    }
    changes.put(key, text)
}

fn changes_in(alloc: Global, members: &Map<String, Value>) -> Result<Changes, NoMemory>
    ensures { IfOk result (λ c. c ≡ changes_after [] (members_view members.now.entries)) }
{
    let mut changes = Changes::new(alloc);
    for (key, value) in members.iter() {
        put_change(&mut changes, key, value)?;
    }
    Ok(changes)
}

/// The changes that an object of texts names. An empty text removes its key.
#[tactic(auto, unfolding(crate::specs::Settings::changes_of))]
pub(crate) fn changes_of(alloc: Global, value: &Value) -> Result<Changes, NoMemory>
    ensures { IfOk result (λ c. c ≡ changes_of (view value.now)) }
{
    match value.as_object() {
        Some(members) => changes_in(alloc, members),
        None => Ok(Changes::new(alloc)),
    }
}

/// Adds a setting of a device. An empty text sets nothing.
fn put_setting(device: &mut Device, key: &str, value: &Value) -> Result<(), NoMemory>
    ensures { OnOk result (device.new ≡ with_setting device.old key.now (as_str (view value.now))) }
{
    let Some(text) = value.as_str() else {
        return Ok(());
    };
    if key.is_empty() || text.is_empty() {
        return Ok(());
    }
    device.set(key, text)
}

fn device_in(alloc: Global, members: &Map<String, Value>) -> Result<Device, NoMemory>
    ensures { IfOk result (λ d. d ≡ settings_after [] (members_view members.now.entries)) }
{
    let mut device = Device::new(alloc);
    for (key, value) in members.iter() {
        put_setting(&mut device, key, value)?;
    }
    Ok(device)
}

/// The device that an object of texts describes.
#[tactic(auto, unfolding(crate::specs::Settings::device_of))]
fn device_of(alloc: Global, value: &Value) -> Result<Device, NoMemory>
    ensures { IfOk result (λ d. d ≡ device_of (view value.now)) }
{
    match value.as_object() {
        Some(members) => device_in(alloc, members),
        None => Ok(Device::new(alloc)),
    }
}

fn devices_in(alloc: Global, members: &Map<String, Value>) -> Result<Devices, NoMemory>
    ensures { IfOk result (λ d. d ≡ devices_after [] (members_view members.now.entries)) }
{
    let mut devices = Devices::new(alloc);
    for (name, value) in members.iter() {
        let device = device_of(alloc, value)?;
        devices.put(name, device)?;
    }
    Ok(devices)
}

/// The devices that an object of objects of texts names.
#[tactic(auto, unfolding(crate::specs::Settings::devices_of))]
pub(crate) fn devices_of(alloc: Global, value: &Value) -> Result<Devices, NoMemory>
    ensures { IfOk result (λ d. d ≡ devices_of (view value.now)) }
{
    match value.as_object() {
        Some(members) => devices_in(alloc, members),
        None => Ok(Devices::new(alloc)),
    }
}
