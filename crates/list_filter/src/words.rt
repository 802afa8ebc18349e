//! Words and numbers as objects show them.
ghost use Rattle.std.specs.Prelude.{◌≡◌};
ghost use Rattle.row_machine.specs.machine.StandingRules.{power_text};
ghost use Rattle.rest_json.specs.Words.{driver_text, instance_kind, power_code};

use records::Driver;
use size_values::{Kind, Power};

/// The `status` of an instance.
pub(crate) fn power_text(power: Power) -> &'static str
    ensures { result.now ≡ power_text power }
{
    match power {
        Power::Stopped => "Stopped",
        Power::Running => "Running",
        Power::Frozen => "Frozen",
        Power::Error => "Error",
    }
}

/// The `status_code` of an instance.
pub(crate) fn power_code(power: Power) -> u64
    ensures { result ≡ power_code power }
{
    match power {
        Power::Stopped => 102,
        Power::Running => 103,
        Power::Frozen => 110,
        Power::Error => 112,
    }
}

/// The `type` of an instance.
pub(crate) fn instance_kind(kind: Kind) -> &'static str
    ensures { result.now ≡ instance_kind kind }
{
    match kind {
        Kind::Container => "container",
        Kind::Machine => "virtual-machine",
    }
}

/// The `driver` of a pool.
pub(crate) fn driver_text(driver: Driver) -> &'static str
    ensures { result.now ≡ driver_text driver }
{
    match driver {
        Driver::Dir => "dir",
        Driver::Btrfs => "btrfs",
        Driver::Lvm => "lvm",
        Driver::Zfs => "zfs",
    }
}
