ghost use Rattle.std.specs.Prelude.{◌≡◌, IfOk};

use crate::texts::copy_texts;
use config_lists::{Config, Devices};
use size_values::{Boxed, Kind, NoMemory, Seq, Text};
use std::alloc::Global;

/// The driver of a storage pool.
#[derive(Clone, Copy, PartialEq, Eq)]
pub enum Driver {
    Dir,
    Btrfs,
    Lvm,
    Zfs,
}

/// A project, by which instances, profiles, networks and storage volumes are kept apart, with its features,
/// limits and restrictions among its settings.
#[derive(Drop)]
pub struct Project {
    pub name: Text,
    pub description: Text,
    pub config: Config,
}

/// A profile: settings and devices that the instances which name it have in common.
#[derive(Drop)]
pub struct Profile {
    pub project: Text,
    pub name: Text,
    pub description: Text,
    pub config: Config,
    pub devices: Devices,
}

/// A managed network, which is a bridge.
#[derive(Drop)]
pub struct Network {
    pub project: Text,
    pub name: Text,
    pub description: Text,
    pub config: Config,
}

/// A storage pool, which belongs to no project.
#[derive(Drop)]
pub struct Pool {
    pub name: Text,
    pub driver: Driver,
    pub description: Text,
    pub config: Config,
}

/// A custom storage volume of a pool. `created` is in seconds since 1970.
#[derive(Drop)]
pub struct Volume {
    pub project: Text,
    pub pool: Text,
    pub name: Text,
    pub description: Text,
    pub config: Config,
    pub created: u64,
}

/// An instance: a system container or a virtual machine, with the profiles that it names in their order and its
/// own settings and devices. `origin` is the alias or the fingerprint of the image that it was made from, or
/// empty; `created` is in seconds since 1970.
#[derive(Drop)]
pub struct Instance {
    pub project: Text,
    pub name: Text,
    pub kind: Kind,
    pub ephemeral: bool,
    pub description: Text,
    pub origin: Text,
    pub created: u64,
    pub profiles: Seq<Text>,
    pub config: Config,
    pub devices: Devices,
}

/// A snapshot of an instance, with the profiles, settings and devices that the instance had. `created` and
/// `expires` are in seconds since 1970, and `expires` is 0 for one that does not expire.
#[derive(Drop)]
pub struct Snapshot {
    pub project: Text,
    pub instance: Text,
    pub name: Text,
    pub created: u64,
    pub expires: u64,
    pub profiles: Seq<Text>,
    pub config: Config,
    pub devices: Devices,
}

/// One kept object of any kind. Of some kinds there may be many: each of their rows stands in memory of its own.
#[derive(Drop)]
pub enum Row {
    Project(Project),
    Profile(Boxed<Profile>),
    Network(Network),
    Pool(Pool),
    Volume(Boxed<Volume>),
    Instance(Boxed<Instance>),
    Snapshot(Boxed<Snapshot>),
}

impl Project {
    /// A project of its own with the same parts.
    pub fn copy(&self, alloc: Global) -> Result<Project, NoMemory>
        ensures { IfOk result (λ r. r ≡ self.now) }
    {
        Ok(Project {
            name: self.name.copy(alloc)?,
            description: self.description.copy(alloc)?,
            config: self.config.copy()?,
        })
    }
}

impl Profile {
    /// A profile of its own with the same parts.
    pub fn copy(&self, alloc: Global) -> Result<Profile, NoMemory>
        ensures { IfOk result (λ r. r ≡ self.now) }
    {
        Ok(Profile {
            project: self.project.copy(alloc)?,
            name: self.name.copy(alloc)?,
            description: self.description.copy(alloc)?,
            config: self.config.copy()?,
            devices: self.devices.copy()?,
        })
    }
}

impl Network {
    /// A network of its own with the same parts.
    pub fn copy(&self, alloc: Global) -> Result<Network, NoMemory>
        ensures { IfOk result (λ r. r ≡ self.now) }
    {
        Ok(Network {
            project: self.project.copy(alloc)?,
            name: self.name.copy(alloc)?,
            description: self.description.copy(alloc)?,
            config: self.config.copy()?,
        })
    }
}

impl Pool {
    /// A pool of its own with the same parts.
    pub fn copy(&self, alloc: Global) -> Result<Pool, NoMemory>
        ensures { IfOk result (λ r. r ≡ self.now) }
    {
        Ok(Pool {
            name: self.name.copy(alloc)?,
            driver: self.driver,
            description: self.description.copy(alloc)?,
            config: self.config.copy()?,
        })
    }
}

impl Volume {
    /// A volume of its own with the same parts.
    pub fn copy(&self, alloc: Global) -> Result<Volume, NoMemory>
        ensures { IfOk result (λ r. r ≡ self.now) }
    {
        Ok(Volume {
            project: self.project.copy(alloc)?,
            pool: self.pool.copy(alloc)?,
            name: self.name.copy(alloc)?,
            description: self.description.copy(alloc)?,
            config: self.config.copy()?,
            created: self.created,
        })
    }
}

impl Instance {
    /// An instance of its own with the same parts.
    pub fn copy(&self, alloc: Global) -> Result<Instance, NoMemory>
        ensures { IfOk result (λ r. r ≡ self.now) }
    {
        Ok(Instance {
            project: self.project.copy(alloc)?,
            name: self.name.copy(alloc)?,
            kind: self.kind,
            ephemeral: self.ephemeral,
            description: self.description.copy(alloc)?,
            origin: self.origin.copy(alloc)?,
            created: self.created,
            profiles: copy_texts(alloc, &self.profiles)?,
            config: self.config.copy()?,
            devices: self.devices.copy()?,
        })
    }
}

impl Snapshot {
    /// A snapshot of its own with the same parts.
    pub fn copy(&self, alloc: Global) -> Result<Snapshot, NoMemory>
        ensures { IfOk result (λ r. r ≡ self.now) }
    {
        Ok(Snapshot {
            project: self.project.copy(alloc)?,
            instance: self.instance.copy(alloc)?,
            name: self.name.copy(alloc)?,
            created: self.created,
            expires: self.expires,
            profiles: copy_texts(alloc, &self.profiles)?,
            config: self.config.copy()?,
            devices: self.devices.copy()?,
        })
    }
}

impl Row {
    /// A row of its own with the same parts.
    pub fn copy(&self, alloc: Global) -> Result<Row, NoMemory>
        ensures { IfOk result (λ r. r ≡ self.now) }
    {
        match self {
            Row::Project(row) => Ok(Row::Project(row.copy(alloc)?)),
            Row::Profile(row) => Ok(Row::Profile(Boxed::new(alloc, row.copy(alloc)?)?)),
            Row::Network(row) => Ok(Row::Network(row.copy(alloc)?)),
            Row::Pool(row) => Ok(Row::Pool(row.copy(alloc)?)),
            Row::Volume(row) => Ok(Row::Volume(Boxed::new(alloc, row.copy(alloc)?)?)),
            Row::Instance(row) => Ok(Row::Instance(Boxed::new(alloc, row.copy(alloc)?)?)),
            Row::Snapshot(row) => Ok(Row::Snapshot(Boxed::new(alloc, row.copy(alloc)?)?)),
        }
    }
}
