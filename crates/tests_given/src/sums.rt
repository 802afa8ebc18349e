//! What a project uses, summed anew from what the server shows: its instances, its volumes, its
//! networks, and the rows that its live operations would put. Written plainly: each setting is
//! looked up layer by layer, each time again.

use config_lists::Device;
use records::{Instance, Profile, Project, Row, Volume};
use row_machine::Task;
use row_readings::StateRef;
use size_values::{
    Boxed, Cpu, Kind, Memory, read_boolean, read_count, read_cpu, read_memory, read_size,
};

/// What a project uses, each part as its limit counts it.
#[derive(Clone, Copy, PartialEq, Eq)]
pub struct Sums {
    pub instances: u128,
    pub containers: u128,
    pub machines: u128,
    pub cpu: u128,
    pub memory: u128,
    pub processes: u128,
    pub disk: u128,
    pub networks: u128,
}

/// Nothing at all.
const NOTHING: Sums = Sums {
    instances: 0,
    containers: 0,
    machines: 0,
    cpu: 0,
    memory: 0,
    processes: 0,
    disk: 0,
    networks: 0,
};

impl Sums {
    fn plus(self, other: Sums) -> Sums {
        Sums {
            instances: self.instances.saturating_add(other.instances),
            containers: self.containers.saturating_add(other.containers),
            machines: self.machines.saturating_add(other.machines),
            cpu: self.cpu.saturating_add(other.cpu),
            memory: self.memory.saturating_add(other.memory),
            processes: self.processes.saturating_add(other.processes),
            disk: self.disk.saturating_add(other.disk),
            networks: self.networks.saturating_add(other.networks),
        }
    }

    /// What is above the other one, in each part.
    fn beyond(self, other: Sums) -> Sums {
        Sums {
            instances: self.instances.saturating_sub(other.instances),
            containers: self.containers.saturating_sub(other.containers),
            machines: self.machines.saturating_sub(other.machines),
            cpu: self.cpu.saturating_sub(other.cpu),
            memory: self.memory.saturating_sub(other.memory),
            processes: self.processes.saturating_sub(other.processes),
            disk: self.disk.saturating_sub(other.disk),
            networks: self.networks.saturating_sub(other.networks),
        }
    }
}

/// The project of a name.
pub fn project_named<'a>(view: &StateRef<'a>, name: &str) -> Option<&'a Project> {
    view.projects.iter().find(|row| row.name.view() == name)
}

/// The project whose profiles the instances of a project use.
fn home_of<'a>(view: &StateRef<'_>, project: &'a str) -> &'a str {
    let own = match project_named(view, project) {
        Some(row) => row.config.get("features.profiles"),
        None => None,
    };
    match own {
        Some(value) => {
            if read_boolean(value) == Ok(true) {
                project
            } else {
                "default"
            }
        }
        None => "default",
    }
}

/// The profile of a name in a project.
fn profile_named<'a>(view: &StateRef<'a>, home: &str, name: &str) -> Option<&'a Boxed<Profile>> {
    view.profiles.iter().find(|row| row.project.view() == home && row.name.view() == name)
}

/// The setting of the last profile of an instance that has it.
fn setting_of_profiles<'a>(view: &StateRef<'a>, row: &Instance, key: &str) -> Option<&'a str> {
    let home = home_of(view, row.project.view());
    for name in row.profiles.view().iter().rev() {
        if let Some(profile) = profile_named(view, home, name.view()) {
            if let Some(value) = profile.config.get(key) {
                return Some(value);
            }
        }
    }
    None
}

/// A setting whose amounts are summed.
#[derive(Clone, Copy)]
enum Part {
    Cpu,
    Memory,
    Processes,
}

impl Part {
    fn key(self) -> &'static str {
        match self {
            Part::Cpu => "limits.cpu",
            Part::Memory => "limits.memory",
            Part::Processes => "limits.processes",
        }
    }

    /// The amount that a text asks for. A set of processors and a percentage are none.
    fn amount_in(self, text: &str) -> u128 {
        match self {
            Part::Cpu => match read_cpu(text) {
                Ok(Cpu::Count(count)) => u128::from(count),
                _ => 0,
            },
            Part::Memory => match read_memory(text) {
                Ok(Memory::Bytes(bytes)) => u128::from(bytes),
                _ => 0,
            },
            Part::Processes => u128::from(read_count(text, 0, u64::MAX).unwrap_or(0)),
        }
    }

    /// The amount of the setting that an instance has in the end: its own, or that of the last
    /// profile that has it.
    fn of(self, view: &StateRef<'_>, row: &Instance) -> u128 {
        let own = row.config.get(self.key());
        match own.or(setting_of_profiles(view, row, self.key())) {
            Some(value) => self.amount_in(value),
            None => 0,
        }
    }
}

/// Whether an instance, or one of its profiles from this place of its list on, has a device of this
/// name.
fn is_covered(view: &StateRef<'_>, row: &Instance, name: &str, from: usize) -> bool {
    let home = home_of(view, row.project.view());
    row.devices.get(name).is_some()
        || row.profiles.view().iter().skip(from).any(|profile| {
            profile_named(view, home, profile.view()).is_some_and(|profile| profile
                .devices
                .get(name)
                .is_some())
        })
}

fn is_root(device: &Device) -> bool {
    device.has("type", "disk")
        && device.has("path", "/")
        && device.get("pool").is_some()
        && device.get("source").is_none()
}

/// Whether a device is in this pool; in any, if none is asked for.
fn is_in(device: &Device, pool: Option<&str>) -> bool {
    match pool {
        Some(pool) => device.has("pool", pool),
        None => true,
    }
}

/// The size of a device that is a root disk, in this pool if one is asked for.
fn root_size(device: &Device, pool: Option<&str>) -> u128 {
    match device.get("size") {
        Some(size) if is_root(device) && is_in(device, pool) => {
            u128::from(read_size(size).unwrap_or(0))
        }
        _ => 0,
    }
}

/// The size of the root disk among the own devices of an instance.
fn own_disk(row: &Instance, pool: Option<&str>) -> u128 {
    let mut sum = 0u128;
    for place in 0..row.devices.len() {
        sum = sum.saturating_add(root_size(row.devices.device_at(place), pool));
    }
    sum
}

/// The size of the root disk among the devices of a profile, which stands before this place of the
/// list, that no later layer replaces.
fn profile_disk(
    view: &StateRef<'_>,
    row: &Instance,
    profile: &Profile,
    after: usize,
    pool: Option<&str>,
) -> u128 {
    let mut sum = 0u128;
    for place in 0..profile.devices.len() {
        if !is_covered(view, row, profile.devices.name_at(place), after) {
            sum = sum.saturating_add(root_size(profile.devices.device_at(place), pool));
        }
    }
    sum
}

/// The size of the root disk that an instance has in the end, in this pool if one is asked for.
fn disk_of(view: &StateRef<'_>, row: &Instance, pool: Option<&str>) -> u128 {
    let home = home_of(view, row.project.view());
    let mut sum = own_disk(row, pool);
    for (place, name) in row.profiles.view().iter().enumerate() {
        if let Some(profile) = profile_named(view, home, name.view()) {
            let after = place.saturating_add(1);
            sum = sum.saturating_add(profile_disk(view, row, profile, after, pool));
        }
    }
    sum
}

/// What an instance uses.
pub fn instance_sums(view: &StateRef<'_>, row: &Instance) -> Sums {
    let is_machine = row.kind == Kind::Machine;
    Sums {
        instances: 1,
        containers: u128::from(!is_machine),
        machines: u128::from(is_machine),
        cpu: Part::Cpu.of(view, row),
        memory: Part::Memory.of(view, row),
        processes: if is_machine {
            0
        } else {
            Part::Processes.of(view, row)
        },
        disk: disk_of(view, row, None),
        networks: 0,
    }
}

fn volume_sums(row: &Volume) -> Sums {
    Sums {
        disk: match row.config.get("size") {
            Some(size) => u128::from(read_size(size).unwrap_or(0)),
            None => 0,
        },
        ..NOTHING
    }
}

/// What the instances of a project use.
fn sums_of_instances(view: &StateRef<'_>, project: &str) -> Sums {
    let mut sums = NOTHING;
    for row in view.instances {
        if row.project.view() == project {
            sums = sums.plus(instance_sums(view, row));
        }
    }
    sums
}

/// The instance that an operation would replace, if it is of the same project as the row that the
/// operation would put.
fn replaced<'a>(view: &StateRef<'a>, work: &Task, row: &Instance) -> Option<&'a Boxed<Instance>> {
    match &work.replaces {
        Some((project, name)) => {
            let project = project.view();
            let name = name.view();
            view.instances.iter().find(|old| {
                old.project.view() == project
                    && old.name.view() == name
                    && row.project.view() == project
            })
        }
        None => None,
    }
}

/// What the claim of an operation adds to what its project uses.
pub fn claim_sums(view: &StateRef<'_>, work: &Task) -> Sums {
    match &work.claim {
        Some(Row::Instance(row)) => match replaced(view, work, row) {
            Some(old) => instance_sums(view, row).beyond(instance_sums(view, old)),
            None => instance_sums(view, row),
        },
        Some(Row::Volume(row)) => volume_sums(row),
        _ => NOTHING,
    }
}

/// Whether an operation would put a row into a project.
fn is_claim_in(work: &Task, project: &str) -> bool {
    match &work.claim {
        Some(Row::Instance(row)) => row.project.view() == project,
        Some(Row::Volume(row)) => row.project.view() == project,
        _ => false,
    }
}

/// What the live operations hold that would put a row into a project.
fn sums_of_claims(view: &StateRef<'_>, project: &str) -> Sums {
    let mut sums = NOTHING;
    for operation in view.live {
        if is_claim_in(&operation.work, project) {
            sums = sums.plus(claim_sums(view, &operation.work));
        }
    }
    sums
}

fn sums_of_volumes(view: &StateRef<'_>, project: &str) -> Sums {
    let mut sums = NOTHING;
    for row in view.volumes {
        if row.project.view() == project {
            sums = sums.plus(volume_sums(row));
        }
    }
    sums
}

fn sums_of_networks(view: &StateRef<'_>, project: &str) -> Sums {
    let mut networks = 0u128;
    for row in view.networks {
        if row.project.view() == project {
            networks = networks.saturating_add(1);
        }
    }
    Sums {
        networks,
        ..NOTHING
    }
}

/// All that a project uses.
pub fn sums_of(view: &StateRef<'_>, project: &str) -> Sums {
    sums_of_instances(view, project)
        .plus(sums_of_claims(view, project))
        .plus(sums_of_volumes(view, project))
        .plus(sums_of_networks(view, project))
}

// ---- on one pool

/// The size of a volume, if it is in this pool.
fn volume_sum_on(row: &Volume, pool: &str) -> u128 {
    if row.pool.view() == pool {
        volume_sums(row).disk
    } else {
        0
    }
}

/// What the claim of an operation adds to what its project uses of a pool.
pub fn claim_sum_on(view: &StateRef<'_>, work: &Task, pool: &str) -> u128 {
    match &work.claim {
        Some(Row::Instance(row)) => {
            let new = disk_of(view, row, Some(pool));
            match replaced(view, work, row) {
                Some(old) => new.saturating_sub(disk_of(view, old, Some(pool))),
                None => new,
            }
        }
        Some(Row::Volume(row)) => volume_sum_on(row, pool),
        _ => 0,
    }
}

/// What a project uses of a pool.
pub fn sum_on(view: &StateRef<'_>, project: &str, pool: &str) -> u128 {
    let mut sum = 0u128;
    for row in view.instances {
        if row.project.view() == project {
            sum = sum.saturating_add(disk_of(view, row, Some(pool)));
        }
    }
    for row in view.volumes {
        if row.project.view() == project {
            sum = sum.saturating_add(volume_sum_on(row, pool));
        }
    }
    for operation in view.live {
        if is_claim_in(&operation.work, project) {
            sum = sum.saturating_add(claim_sum_on(view, &operation.work, pool));
        }
    }
    sum
}
