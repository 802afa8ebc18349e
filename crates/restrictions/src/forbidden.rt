ghost use Rattle.std.specs.Prelude.{◌≡◌, map};
ghost use Rattle.std.specs.Option.{option_copied};
ghost use Rattle.restrictions.specs.Policies.{seen};
ghost use Rattle.restrictions.specs.Forbids.{first_forbidden as forbidden_first, snapshots_forbidden};
ghost use Rattle.restrictions.specs.Forbids.{broken_settings, missing_setting, broken_devices, lowest, earlier};
ghost use Rattle.restrictions.specs.Forbids.{setting_rule, setting_rule_in, missing_rule_in, is_in_force, forbidden_at};
ghost use Rattle.restrictions.specs.Forbids.{device_rule, device_rule_in, network_rule, is_outside, is_listed};

use crate::policy::Policy;
use crate::rows::{DEVICES, DeviceLine, SETTINGS, SettingLine, Subject, Word};
use config_lists::{Config, Device, Devices};
use option_tables::takes_key;

/// What a policy forbids: the number of the rule, and the place of the setting or device, counted from 0 in the
/// order of the keys or of the names. Where a demanded key is not set, the place is the number of settings.
#[derive(Clone, Copy, PartialEq, Eq)]
pub struct Forbidden {
    pub rule: u8,
    pub place: usize,
}

/// The first of rules 1 to 7 that settings and devices break, and its first setting or device: rules 1 to 5 are
/// on settings, 6 and 7 on devices. It takes no memory.
#[tactic(auto, unfolding(crate::specs::Forbids::first_forbidden))]
pub fn first_forbidden(
    policy: &Policy,
    subject: Subject,
    config: &Config,
    devices: &Devices,
) -> Option<Forbidden>
    ensures { result ≡ forbidden_first (seen policy.now) subject config.now devices.now }
{
    if !policy.restricted {
        return None;
    }
    let setting = earlier(
        lowest_setting(policy, subject, config),
        missing_setting(policy, subject, config),
    );
    earlier(setting, lowest_device(policy, devices))
}

/// Whether a policy forbids the creation of snapshots.
#[tactic(auto, unfolding(crate::specs::Forbids::snapshots_forbidden))]
pub fn snapshots_forbidden(policy: &Policy) -> bool
    ensures { result ≡ snapshots_forbidden (seen policy.now) }
{
    policy.restricted && policy.snapshots.is(Word::Block)
}

/// The one of the lower rule, or else the first.
fn earlier(first: Option<Forbidden>, second: Option<Forbidden>) -> Option<Forbidden>
    ensures { result ≡ earlier first second }
{
    let Some(found) = first else {
        return second;
    };
    match second {
        Some(other) if other.rule < found.rule => second,
        _ => first,
    }
}

fn lowest_setting(policy: &Policy, subject: Subject, config: &Config) -> Option<Forbidden>
    ensures { result ≡ lowest (broken_settings (seen policy.now) subject config.now) }
{
    let mut lowest = None;
    for place in 0..config.len() {
        let rule = setting_rule(
            policy,
            subject,
            config.key_at(place),
            config.value_at(place),
        );
        lowest = earlier(lowest, forbidden_at(place, rule));
    }
    lowest
}

#[tactic(auto, unfolding(crate::specs::Forbids::missing_setting, crate::specs::Forbids::setting_lines))]
fn missing_setting(policy: &Policy, subject: Subject, config: &Config) -> Option<Forbidden>
    ensures { result ≡ missing_setting (seen policy.now) subject config.now }
{
    forbidden_at(
        config.len(),
        missing_rule_in(SETTINGS, policy, subject, config),
    )
}

fn lowest_device(policy: &Policy, devices: &Devices) -> Option<Forbidden>
    ensures { result ≡ lowest (broken_devices (seen policy.now) devices.now) }
{
    let mut lowest = None;
    for place in 0..devices.len() {
        let rule = device_rule(policy, devices.device_at(place));
        lowest = earlier(lowest, forbidden_at(place, rule));
    }
    lowest
}

fn forbidden_at(place: usize, rule: Option<u8>) -> Option<Forbidden>
    ensures { result ≡ forbidden_at place rule }
{
    match rule {
        Some(rule) => Some(Forbidden { rule, place }),
        None => None,
    }
}

/// The rule that a setting breaks.
#[tactic(auto, unfolding(crate::specs::Forbids::setting_rule, crate::specs::Forbids::setting_lines))]
fn setting_rule(policy: &Policy, subject: Subject, key: &str, value: &str) -> Option<u8>
    ensures { result ≡ setting_rule (seen policy.now) subject key.now value.now }
{
    setting_rule_in(SETTINGS, policy, subject, key, value)
}

fn setting_rule_in(
    lines: &[SettingLine],
    policy: &Policy,
    subject: Subject,
    key: &str,
    value: &str,
) -> Option<u8>
    ensures { result
        ≡ setting_rule_in (map (λ line. (
          line.0,
          line.1,
          line.2,
          line.3,
          line.4.now,
          line.5,
        )) lines.now) (seen policy.now) subject key.now value.now }
{
    for line in lines {
        if is_in_force(policy, subject, line)
            && takes_key(line.4, key)
            && line.5.is_against(value)
        {
            return Some(line.0);
        }
    }
    None
}

/// The rule that demands a key which is not set.
fn missing_rule_in(
    lines: &[SettingLine],
    policy: &Policy,
    subject: Subject,
    config: &Config,
) -> Option<u8>
    ensures { result
        ≡ missing_rule_in (map (λ line. (
          line.0,
          line.1,
          line.2,
          line.3,
          line.4.now,
          line.5,
        )) lines.now) (seen policy.now) subject config.now }
{
    for line in lines {
        if is_in_force(policy, subject, line) && line.5.demands() && config.get(line.4).is_none() {
            return Some(line.0);
        }
    }
    None
}

fn is_in_force(policy: &Policy, subject: Subject, line: &SettingLine) -> bool
    ensures { result
        ≡ is_in_force (seen policy.now) subject (
          line.now.0,
          line.now.1,
          line.now.2,
          line.now.3,
          line.now.4.now,
          line.now.5,
        ) }
{
    line.1.judges(subject) && policy.word(line.2).is(line.3)
}

/// The rule that a device breaks.
#[tactic(auto, unfolding(crate::specs::Forbids::device_rule, crate::specs::Forbids::device_lines))]
fn device_rule(policy: &Policy, device: &Device) -> Option<u8>
    ensures { result ≡ device_rule (seen policy.now) device.now }
{
    match device_rule_in(DEVICES, policy, device) {
        Some(rule) => Some(rule),
        None => network_rule(policy, device),
    }
}

fn device_rule_in(lines: &[DeviceLine], policy: &Policy, device: &Device) -> Option<u8>
    ensures { result
        ≡ device_rule_in (map (λ line. (
          line.0,
          line.1,
          line.2,
          line.3.now,
          line.4,
        )) lines.now) (seen policy.now) device.now }
{
    for line in lines {
        if policy.word(line.1).is(line.2) && device.has("type", line.3) && line.4.is_meant(device) {
            return Some(line.0);
        }
    }
    None
}

/// The rule on the networks that nics may name.
fn network_rule(policy: &Policy, device: &Device) -> Option<u8>
    ensures { result ≡ network_rule (seen policy.now) device.now }
{
    if device.has("type", "nic") && is_outside(policy.access, device.get("network")) {
        return Some(7);
    }
    None
}

fn is_outside(access: Option<&str>, network: Option<&str>) -> bool
    ensures { result ≡ is_outside (option_copied access.entry) (option_copied network.entry) }
{
    let Some(list) = access else {
        return false;
    };
    let Some(network) = network else {
        return false;
    };
    !is_listed(list, network)
}

/// Whether a name is one of those that are joined by commas.
fn is_listed(list: &str, name: &str) -> bool
    ensures { result ≡ is_listed list.now name.now }
{
    list.split(',').any(|listed| listed == name)
}
