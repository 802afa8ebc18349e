//! Each call on limits, run once.
ghost use Rattle.std.specs.Prelude.{◌≡◌};
ghost use Rattle.size_values.specs.Amounts.{part};
ghost use Rattle.size_values.specs.declared.amounts.Part.{Part};

use crate::given::{config_of, devices_of};
use config_lists::Config;
use project_limits::{
    Limits, admit, admit_networks, amounts_of, countable, limits_of, volume_amounts,
    volume_countable,
};
use size_values::{Amounts, Kind};
use std::alloc::Global;

/// So much of everything.
fn equal_amounts(amount: u64) -> Amounts
    ensures { (p : Part) → part p result ≡ amount }
{
    let amount = u128::from(amount);
    Amounts {
        instances: amount,
        containers: amount,
        machines: amount,
        cpu: amount,
        memory: amount,
        processes: amount,
        disk: amount,
    }
}

/// The limits of a project with ten processors and two gibibytes.
fn limits_in(alloc: Global) -> Limits {
    let project = config_of(alloc, &[("limits.cpu", "10"), ("limits.memory", "2GiB")]);
    let limits = limits_of(&project);
    drop(project);
    limits
}

/// Whether an instance of four processors and one gibibyte counts for these, and gives the numbers that are needed.
fn is_counted(alloc: Global, limits: &Limits) -> bool {
    let config = config_of(alloc, &[("limits.cpu", "4"), ("limits.memory", "1GiB")]);
    let devices = devices_of(alloc, &[]);
    let amounts = amounts_of(Kind::Container, &config, &devices);
    let is = amounts.instances == 1
        && amounts.cpu == 4
        && amounts.memory == 1073741824
        && countable(limits, Kind::Container, &config, &devices).is_ok();
    drop(devices);
    drop(config);
    is
}

fn is_volume_counted(config: &Config, limits: &Limits) -> bool {
    volume_amounts(config).disk == 3000 && volume_countable(limits, config).is_ok()
}

/// Whether a volume counts for its size.
fn is_volume(alloc: Global, limits: &Limits) -> bool {
    let config = config_of(alloc, &[("size", "3kB")]);
    let is = is_volume_counted(&config, limits);
    drop(config);
    is
}

/// Whether as much as the limits allow is admitted, and not more.
fn are_judged(limits: &Limits) -> bool {
    admit(limits, &equal_amounts(6), &equal_amounts(4)).is_ok()
        && admit(limits, &equal_amounts(6), &equal_amounts(5)).is_err()
        && admit_networks(limits, 10, 1).is_ok()
}

/// Whether limits are read, and instances and volumes are counted and judged by them.
fn are_limits(alloc: Global) -> bool {
    let limits = limits_in(alloc);
    limits.cpu == Some(10)
        && limits.memory == Some(2147483648)
        && is_counted(alloc, &limits)
        && is_volume(alloc, &limits)
        && are_judged(&limits)
}

#[test]
fn limits_are_read_and_judged(rt: HostRuntime) {
    assert!(rt; are_limits(rt.alloc()));
}
