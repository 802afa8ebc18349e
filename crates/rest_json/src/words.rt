ghost use Rattle.std.specs.Prelude.{◌≡◌, IfOk};
ghost use Rattle.row_machine.specs.machine.TableRules.{status_text};
ghost use Rattle.row_machine.specs.machine.StandingRules.{power_text};
ghost use Rattle.rest_json.specs.Words.{status_code, status_key, power_code, instance_kind, driver_text, limit_name};
ghost use Rattle.rest_json.specs.Words.{fault_text, error_text};

use records::{Driver, LimitKeyName, OpFault, Status};
use size_values::{Kind, NoMemory, Power, Text};
use std::alloc::Global;

/// How a status is written.
pub(crate) fn status_text(status: Status) -> &'static str
    ensures { result.now ≡ status_text status }
{
    match status {
        Status::Pending => "Pending",
        Status::Running => "Running",
        Status::Cancelling => "Cancelling",
        Status::Success => "Success",
        Status::Failure => "Failure",
        Status::Cancelled => "Cancelled",
    }
}

/// The number of an operation's status.
pub(crate) fn status_code(status: Status) -> u64
    ensures { result ≡ status_code status }
{
    match status {
        Status::Pending => 105,
        Status::Running => 103,
        Status::Cancelling => 104,
        Status::Success => 200,
        Status::Failure => 400,
        Status::Cancelled => 401,
    }
}

/// The key under which the operations of a status are listed.
pub fn status_key(status: Status) -> &'static str
    ensures { result.now ≡ status_key status }
{
    match status {
        Status::Pending => "pending",
        Status::Running => "running",
        Status::Cancelling => "cancelling",
        Status::Success => "success",
        Status::Failure => "failure",
        Status::Cancelled => "cancelled",
    }
}

/// How the status of an instance is written.
pub(crate) fn power_text(power: Power) -> &'static str
    ensures { result.now ≡ power_text power }
{
    match power {
        Power::Stopped => "Stopped",
        Power::Running => "Running",
        Power::Frozen => "Frozen",
        Power::Error => "Error",
    }
}

/// The number of an instance's status.
pub(crate) fn power_code(power: Power) -> u64
    ensures { result ≡ power_code power }
{
    match power {
        Power::Stopped => 102,
        Power::Running => 103,
        Power::Frozen => 110,
        Power::Error => 112,
    }
}

/// The `type` of an instance in a reply: `container` or `virtual-machine`.
pub(crate) fn instance_kind(kind: Kind) -> &'static str
    ensures { result.now ≡ instance_kind kind }
{
    match kind {
        Kind::Container => "container",
        Kind::Machine => "virtual-machine",
    }
}

/// The driver of a pool.
pub(crate) fn driver_text(driver: Driver) -> &'static str
    ensures { result.now ≡ driver_text driver }
{
    match driver {
        Driver::Dir => "dir",
        Driver::Btrfs => "btrfs",
        Driver::Lvm => "lvm",
        Driver::Zfs => "zfs",
    }
}

/// The key of a limit without `limits.`.
pub(crate) fn limit_name(alloc: Global, limit: &LimitKeyName) -> Result<Text, NoMemory>
    ensures { IfOk result (λ name. name ≡ limit_name limit.now) }
{
    match limit {
        LimitKeyName::Instances => Text::from_text(alloc, "instances"),
        LimitKeyName::Containers => Text::from_text(alloc, "containers"),
        LimitKeyName::Machines => Text::from_text(alloc, "virtual-machines"),
        LimitKeyName::Cpu => Text::from_text(alloc, "cpu"),
        LimitKeyName::Memory => Text::from_text(alloc, "memory"),
        LimitKeyName::Processes => Text::from_text(alloc, "processes"),
        LimitKeyName::Disk => Text::from_text(alloc, "disk"),
        LimitKeyName::Networks => Text::from_text(alloc, "networks"),
        LimitKeyName::DiskOnPool(pool) => Text::joined(alloc, "disk.pool.", pool.view()),
    }
}

/// What made an operation fail.
fn fault_text(fault: OpFault) -> &'static str
    ensures { result.now ≡ fault_text fault }
{
    match fault {
        OpFault::None => "",
        OpFault::Host { .. } => "host call failed",
        OpFault::Keeper { .. } => "keeper failed",
        OpFault::NoMemory => "no memory",
    }
}

/// Why an operation ended without success, empty for every other one.
pub(crate) fn error_text(status: Status, fault: OpFault) -> &'static str
    ensures { result.now ≡ error_text status fault }
{
    match status {
        Status::Failure => fault_text(fault),
        Status::Cancelled => "operation was cancelled",
        Status::Pending | Status::Running | Status::Cancelling | Status::Success => "",
    }
}
