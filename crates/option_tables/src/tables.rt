ghost use Rattle.std.specs.Prelude.{◌≡◌, map};
ghost use Rattle.option_tables.specs.Tables.{form_of, instance_lines, project_lines, network_lines, pool_lines};
ghost use Rattle.option_tables.specs.Tables.{volume_lines, device_form, device_lines, device_type, form_in};
ghost use Rattle.option_tables.specs.Tables.{scoped_form_in, type_in, takes, takes_plainly, takes_pool, is_for};

use crate::form::{Form, Words};
use estate_rules::good_name;
use size_values::ObjectKind;

/// Which kind of instance an option is for, or is checked for. `Any` stands for both, as in a profile.
#[derive(Clone, Copy, PartialEq, Eq)]
pub enum Scope {
    Any,
    Container,
    Machine,
}

/// The tables, one of which each set of settings is checked by.
#[derive(Clone, Copy, PartialEq, Eq)]
pub enum Table {
    Instance(Scope),
    Project,
    Network,
    Pool,
    Volume,
    Device(DeviceType),
}

/// The types of devices that have keys of their own.
#[derive(Clone, Copy, PartialEq, Eq)]
pub enum DeviceType {
    None,
    Disk,
    Nic,
    Gpu,
    Proxy,
    Unix,
    Usb,
}

/// A key with the form of its values. A key that ends in `*` stands for every longer key that begins alike, and one
/// that ends in `#` for every key that begins alike and goes on with a good name of a storage pool.
pub type Line = (&'static str, Form);

const MANY: u64 = 1_000_000;

const HUGE: u64 = 9_223_372_036_854_775_807;

/// The options of instances and profiles, in the order of "Instance options" in the Incus documentation, each
/// with the kind of instance that it is for.
pub const INSTANCE: &[(&str, Form, Scope)] = &[
    // Miscellaneous options
    ("environment.*", Form::Text, Scope::Any),
    ("linux.kernel_modules", Form::Text, Scope::Container),
    ("user.*", Form::Text, Scope::Any),
    ("image.*", Form::Text, Scope::Any),
    // Boot-related options
    ("boot.autostart", Form::Boolean, Scope::Any),
    ("boot.autostart.delay", Form::Count(0, MANY), Scope::Any),
    ("boot.autostart.priority", Form::Count(0, MANY), Scope::Any),
    (
        "boot.host_shutdown_timeout",
        Form::Count(0, MANY),
        Scope::Any,
    ),
    ("boot.stop.priority", Form::Count(0, MANY), Scope::Any),
    // cloud-init configuration
    ("cloud-init.network-config", Form::Text, Scope::Any),
    ("cloud-init.user-data", Form::Text, Scope::Any),
    ("cloud-init.vendor-data", Form::Text, Scope::Any),
    // Resource limits
    ("limits.cpu", Form::Cpu, Scope::Any),
    ("limits.cpu.allowance", Form::Text, Scope::Container),
    ("limits.cpu.priority", Form::Count(0, 10), Scope::Container),
    ("limits.memory", Form::Memory, Scope::Any),
    (
        "limits.memory.enforce",
        Form::One(Words::HardSoft),
        Scope::Container,
    ),
    ("limits.memory.swap", Form::Text, Scope::Container),
    ("limits.processes", Form::Count(0, HUGE), Scope::Container),
    // Raw instance configuration overrides
    ("raw.apparmor", Form::Text, Scope::Any),
    ("raw.idmap", Form::Text, Scope::Any),
    ("raw.lxc", Form::Text, Scope::Container),
    ("raw.qemu", Form::Text, Scope::Machine),
    ("raw.seccomp", Form::Text, Scope::Container),
    // Security policies
    ("security.idmap.isolated", Form::Boolean, Scope::Container),
    ("security.nesting", Form::Boolean, Scope::Container),
    ("security.privileged", Form::Boolean, Scope::Container),
    ("security.protection.delete", Form::Boolean, Scope::Any),
    ("security.secureboot", Form::Boolean, Scope::Machine),
    (
        "security.syscalls.intercept.mknod",
        Form::Boolean,
        Scope::Container,
    ),
    (
        "security.syscalls.intercept.mount",
        Form::Boolean,
        Scope::Container,
    ),
    (
        "security.syscalls.intercept.setxattr",
        Form::Boolean,
        Scope::Container,
    ),
    // Snapshot scheduling and configuration
    ("snapshots.expiry", Form::Expiry, Scope::Any),
    ("snapshots.pattern", Form::Pattern, Scope::Any),
    ("snapshots.schedule", Form::Schedule, Scope::Any),
    ("snapshots.schedule.stopped", Form::Boolean, Scope::Any),
];

/// The options of projects, in the order of "Project configuration" in the Incus documentation.
pub const PROJECT: &[Line] = &[
    // Project features
    ("features.images", Form::Boolean),
    ("features.networks", Form::Boolean),
    ("features.profiles", Form::Boolean),
    ("features.storage.buckets", Form::Boolean),
    ("features.storage.volumes", Form::Boolean),
    // Project limits
    ("limits.containers", Form::Count(0, HUGE)),
    ("limits.cpu", Form::Count(0, HUGE)),
    ("limits.disk", Form::Size),
    ("limits.disk.pool.#", Form::Size),
    ("limits.instances", Form::Count(0, HUGE)),
    ("limits.memory", Form::Size),
    ("limits.networks", Form::Count(0, HUGE)),
    ("limits.processes", Form::Count(0, HUGE)),
    ("limits.virtual-machines", Form::Count(0, HUGE)),
    // Project restrictions
    ("restricted", Form::Boolean),
    (
        "restricted.containers.interception",
        Form::One(Words::BlockAllowFull),
    ),
    (
        "restricted.containers.lowlevel",
        Form::One(Words::BlockAllow),
    ),
    (
        "restricted.containers.nesting",
        Form::One(Words::BlockAllow),
    ),
    (
        "restricted.containers.privilege",
        Form::One(Words::UnprivilegedIsolatedAllow),
    ),
    (
        "restricted.devices.disk",
        Form::One(Words::ManagedBlockAllow),
    ),
    ("restricted.devices.gpu", Form::One(Words::BlockAllow)),
    (
        "restricted.devices.nic",
        Form::One(Words::ManagedBlockAllow),
    ),
    ("restricted.devices.proxy", Form::One(Words::BlockAllow)),
    (
        "restricted.devices.unix-block",
        Form::One(Words::BlockAllow),
    ),
    ("restricted.devices.unix-char", Form::One(Words::BlockAllow)),
    ("restricted.devices.usb", Form::One(Words::BlockAllow)),
    ("restricted.networks.access", Form::Networks),
    ("restricted.snapshots", Form::One(Words::BlockAllow)),
    (
        "restricted.virtual-machines.lowlevel",
        Form::One(Words::BlockAllow),
    ),
    // Project-specific configuration
    ("user.*", Form::Text),
];

/// The options of networks, in the order of "Bridge network" in the Incus documentation.
pub const NETWORK: &[Line] = &[
    ("bridge.mtu", Form::Count(1, 65_535)),
    ("dns.domain", Form::Text),
    ("ipv4.address", Form::Cidr),
    ("ipv4.dhcp", Form::Boolean),
    ("ipv4.nat", Form::Boolean),
    ("ipv6.address", Form::One(Words::None)),
    ("user.*", Form::Text),
];

/// The options of storage pools.
pub const POOL: &[Line] = &[
    ("size", Form::Size),
    ("source", Form::Text),
    ("user.*", Form::Text),
];

/// The options of storage volumes.
pub const VOLUME: &[Line] = &[("size", Form::Size), ("user.*", Form::Text)];

/// The types of devices.
pub const DEVICE_TYPES: &[(&str, DeviceType)] = &[
    ("none", DeviceType::None),
    ("nic", DeviceType::Nic),
    ("disk", DeviceType::Disk),
    ("unix-char", DeviceType::Unix),
    ("unix-block", DeviceType::Unix),
    ("usb", DeviceType::Usb),
    ("gpu", DeviceType::Gpu),
    ("proxy", DeviceType::Proxy),
];

/// The options of disks. Each device has `type` besides.
pub const DISK: &[Line] = &[
    ("boot.priority", Form::Count(0, MANY)),
    ("limits.max", Form::Text),
    ("limits.read", Form::Text),
    ("limits.write", Form::Text),
    ("path", Form::Text),
    ("pool", Form::Text),
    ("readonly", Form::Boolean),
    ("required", Form::Boolean),
    ("size", Form::Size),
    ("source", Form::Text),
];

/// The options of network interfaces.
pub const NIC: &[Line] = &[
    ("boot.priority", Form::Count(0, MANY)),
    ("host_name", Form::Text),
    ("hwaddr", Form::Text),
    ("ipv4.address", Form::Address),
    ("limits.egress", Form::Text),
    ("limits.ingress", Form::Text),
    ("limits.max", Form::Text),
    ("mtu", Form::Count(1, 65_535)),
    ("name", Form::Text),
    ("network", Form::Text),
    ("nictype", Form::One(Words::NicType)),
    ("parent", Form::Text),
    ("security.mac_filtering", Form::Boolean),
    ("vlan", Form::Text),
];

/// The options of graphics processors.
pub const GPU: &[Line] = &[
    ("gid", Form::Text),
    ("gputype", Form::Text),
    ("id", Form::Text),
    ("mode", Form::Text),
    ("pci", Form::Text),
    ("productid", Form::Text),
    ("uid", Form::Text),
    ("vendorid", Form::Text),
];

/// The options of proxies.
pub const PROXY: &[Line] = &[
    ("bind", Form::One(Words::HostInstance)),
    ("connect", Form::Text),
    ("gid", Form::Text),
    ("listen", Form::Text),
    ("mode", Form::Text),
    ("nat", Form::Boolean),
    ("uid", Form::Text),
];

/// The options of character and block devices.
pub const UNIX: &[Line] = &[
    ("gid", Form::Text),
    ("major", Form::Text),
    ("minor", Form::Text),
    ("mode", Form::Text),
    ("path", Form::Text),
    ("required", Form::Boolean),
    ("source", Form::Text),
    ("uid", Form::Text),
];

/// The options of USB devices.
pub const USB: &[Line] = &[
    ("gid", Form::Text),
    ("mode", Form::Text),
    ("productid", Form::Text),
    ("required", Form::Boolean),
    ("serial", Form::Text),
    ("uid", Form::Text),
    ("vendorid", Form::Text),
];

/// The most bytes of a key.
pub const MOST_KEY_BYTES: usize = 255;

impl Table {
    /// The form of a key's values, if the table takes the key. It takes none of more than 255 bytes.
    #[tactic(auto, unfolding(crate::specs::Tables::form_of, crate::specs::Tables::listed_form))]
    pub fn form(self, key: &str) -> Option<Form>
        ensures { result ≡ form_of self key.now }
    {
        if key.len() > MOST_KEY_BYTES {
            return None;
        }
        match self {
            Table::Instance(scope) => instance_form(scope, key),
            Table::Project => project_form(key),
            Table::Network => network_form(key),
            Table::Pool => pool_form(key),
            Table::Volume => volume_form(key),
            Table::Device(kind) => device_form(kind, key),
        }
    }
}

#[tactic(auto, unfolding(crate::specs::Tables::instance_lines))]
fn instance_form(scope: Scope, key: &str) -> Option<Form>
    ensures { result ≡ scoped_form_in instance_lines scope key.now }
{
    scoped_form_in(INSTANCE, scope, key)
}

#[tactic(auto, unfolding(crate::specs::Tables::project_lines))]
fn project_form(key: &str) -> Option<Form>
    ensures { result ≡ form_in project_lines key.now }
{
    form_in(PROJECT, key)
}

#[tactic(auto, unfolding(crate::specs::Tables::network_lines))]
fn network_form(key: &str) -> Option<Form>
    ensures { result ≡ form_in network_lines key.now }
{
    form_in(NETWORK, key)
}

#[tactic(auto, unfolding(crate::specs::Tables::pool_lines))]
fn pool_form(key: &str) -> Option<Form>
    ensures { result ≡ form_in pool_lines key.now }
{
    form_in(POOL, key)
}

#[tactic(auto, unfolding(crate::specs::Tables::volume_lines))]
fn volume_form(key: &str) -> Option<Form>
    ensures { result ≡ form_in volume_lines key.now }
{
    form_in(VOLUME, key)
}

#[tactic(auto, unfolding(crate::specs::Tables::device_form))]
fn device_form(kind: DeviceType, key: &str) -> Option<Form>
    ensures { result ≡ device_form kind key.now }
{
    if key == "type" {
        return Some(Form::Text);
    }
    form_in(kind.lines(), key)
}

impl DeviceType {
    /// The type of this name.
    #[tactic(auto, unfolding(crate::specs::Tables::device_type))]
    pub fn from_name(name: &str) -> Option<DeviceType>
        ensures { result ≡ device_type name.now }
    {
        type_in(DEVICE_TYPES, name)
    }

    #[tactic(auto, unfolding(crate::specs::Tables::device_lines))]
    fn lines(self) -> &'static [Line]
        ensures { map (λ line. (line.0.now, line.1)) result.now ≡ device_lines self }
    {
        match self {
            DeviceType::None => &[],
            DeviceType::Disk => DISK,
            DeviceType::Nic => NIC,
            DeviceType::Gpu => GPU,
            DeviceType::Proxy => PROXY,
            DeviceType::Unix => UNIX,
            DeviceType::Usb => USB,
        }
    }
}

fn form_in(lines: &[Line], key: &str) -> Option<Form>
    ensures { result ≡ form_in (map (λ line. (line.0.now, line.1)) lines.now) key.now }
{
    for line in lines {
        if takes_key(line.0, key) {
            return Some(line.1);
        }
    }
    None
}

fn scoped_form_in(lines: &[(&str, Form, Scope)], scope: Scope, key: &str) -> Option<Form>
    ensures { result ≡ scoped_form_in (map (λ line. (line.0.now, line.1, line.2)) lines.now) scope key.now }
{
    for line in lines {
        if scope.takes(line.2) && takes_key(line.0, key) {
            return Some(line.1);
        }
    }
    None
}

fn type_in(types: &[(&str, DeviceType)], name: &str) -> Option<DeviceType>
    ensures { result ≡ type_in (map (λ row. (row.0.now, row.1)) types.now) name.now }
{
    for row in types {
        if row.0 == name {
            return Some(row.1);
        }
    }
    None
}

impl Scope {
    /// Whether an option for these instances is taken.
    fn takes(self, option: Scope) -> bool
        ensures { result ≡ is_for self option }
    {
        match (self, option) {
            (Scope::Container, Scope::Machine) | (Scope::Machine, Scope::Container) => false,
            _ => true,
        }
    }
}

/// Whether a key of a table stands for this key: it is the same; or it ends in `*` and this one is longer and begins
/// alike; or it ends in `#` and this one begins alike and goes on with a good name of a storage pool.
pub fn takes_key(line: &str, key: &str) -> bool
    ensures { result ≡ takes line.now key.now }
{
    match line.strip_suffix('#') {
        Some(front) => takes_pool(front, key),
        None => takes_plainly(line, key),
    }
}

/// Whether a key begins so and goes on with a good name of a pool.
fn takes_pool(front: &str, key: &str) -> bool
    ensures { result ≡ takes_pool front.now key.now }
{
    match key.strip_prefix(front) {
        Some(name) => good_name(ObjectKind::Pool, name),
        None => false,
    }
}

fn takes_plainly(line: &str, key: &str) -> bool
    ensures { result ≡ takes_plainly line.now key.now }
{
    match line.as_bytes() {
        [front @ .., b'*'] => front.len() < key.len() && key.as_bytes().starts_with(front),
        _ => line == key,
    }
}
