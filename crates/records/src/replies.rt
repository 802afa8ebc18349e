ghost use Rattle.std.specs.Prelude.{◌≡◌, IfOk};

use crate::commands::Target;
use crate::refusals::Refusal;
use crate::rows::{Instance, Network, Pool, Profile, Project, Snapshot, Volume};
use config_lists::{Config, Devices};
use operations::{OpFault, Status};
use size_values::{NoMemory, Power, Seq, Text};
use std::alloc::Global;

/// A background operation as `GET /1.0/operations/{id}` shows it, with the project and the object that it is
/// about. `created` and `updated` are in seconds since 1970.
#[derive(Drop)]
pub struct OpView {
    pub number: u64,
    pub status: Status,
    pub may_cancel: bool,
    pub created: u64,
    pub updated: u64,
    pub fault: OpFault,
    pub project: Text,
    pub target: Target,
}

/// The limits of a project, each named after its key without `limits.`; that on a storage pool with the pool's name.
#[derive(Drop)]
pub enum LimitKeyName {
    Instances,
    Containers,
    Machines,
    Cpu,
    Memory,
    Processes,
    Disk,
    Networks,
    DiskOnPool(Text),
}

/// One line of a project's state: how much of a limit is used, and the limit where one is set.
#[derive(Drop)]
pub struct UsageLine {
    pub key: LimitKeyName,
    pub used: u128,
    pub limit: Option<u64>,
}

/// One object as a reply shows it. The lists of texts are `used_by`, the URLs of the objects that use it. An
/// instance has its expanded settings and devices beside its row, and its status. `Usage` is the state of a
/// project, and `Power` that of an instance.
#[derive(Drop)]
pub enum View {
    Server,
    Project(Project, Seq<Text>),
    Profile(Profile, Seq<Text>),
    Network(Network, Seq<Text>),
    Pool(Pool, Seq<Text>),
    Volume(Volume, Seq<Text>),
    Instance {
        row: Instance,
        config: Config,
        devices: Devices,
        power: Power,
    },
    Snapshot(Snapshot),
    Power(Power),
    Usage(Seq<UsageLine>),
    Op(OpView),
}

/// The answer to a command. `Links` and `Many` are lists without and with recursion; `OpLinks` and `OpMany` are
/// the operations of a project by status, by number or whole. `Started` is the operation that a command began.
#[derive(Drop)]
pub enum Reply {
    Empty,
    Links(Seq<Text>),
    One(View),
    Many(Seq<View>),
    OpLinks(Seq<(Status, Seq<u64>)>),
    OpMany(Seq<(Status, Seq<OpView>)>),
    Started(OpView),
    Refused(Refusal),
    NoMemory,
}

impl OpView {
    /// A view of its own with the same parts.
    pub fn copy(&self, alloc: Global) -> Result<OpView, NoMemory>
        ensures { IfOk result (λ v. v ≡ self.now) }
    {
        Ok(OpView {
            number: self.number,
            status: self.status,
            may_cancel: self.may_cancel,
            created: self.created,
            updated: self.updated,
            fault: self.fault,
            project: self.project.copy(alloc)?,
            target: self.target.copy(alloc)?,
        })
    }
}
