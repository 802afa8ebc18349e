ghost use Rattle.std.specs.Prelude.{◌≡◌, IfOk};

use crate::replies::OpView;
use size_values::{NoMemory, Text};
use std::alloc::Global;

/// What an event tells: an action of a lifecycle event with the URL of its object, or an operation as it is
/// after a change of its status.
#[derive(Drop)]
pub enum EventBody {
    Life { action: Life, source: Text },
    Op(OpView),
}

/// The actions of lifecycle events. Those of pools and volumes are written `storage-pool-` and
/// `storage-volume-`, and those of snapshots `instance-snapshot-`.
#[derive(Clone, Copy, PartialEq, Eq)]
pub enum Life {
    ProjectCreated,
    ProjectUpdated,
    ProjectRenamed,
    ProjectDeleted,
    ProfileCreated,
    ProfileUpdated,
    ProfileRenamed,
    ProfileDeleted,
    NetworkCreated,
    NetworkUpdated,
    NetworkRenamed,
    NetworkDeleted,
    PoolCreated,
    PoolUpdated,
    PoolDeleted,
    VolumeCreated,
    VolumeUpdated,
    VolumeRenamed,
    VolumeDeleted,
    InstanceCreated,
    InstanceUpdated,
    InstanceDeleted,
    InstanceRenamed,
    InstanceStarted,
    InstanceStopped,
    InstanceRestarted,
    InstancePaused,
    InstanceResumed,
    InstanceRestored,
    SnapshotCreated,
    SnapshotDeleted,
}

/// An event of `GET /1.0/events`, numbered from 1, with the project that it belongs to. `moment` is in seconds
/// since 1970.
#[derive(Drop)]
pub struct Notice {
    pub number: u64,
    pub moment: u64,
    pub project: Text,
    pub body: EventBody,
}

/// Which events a listener takes: those of one project, of the types `lifecycle` and `operation` that it wants.
#[derive(Drop)]
pub struct Filter {
    pub life: bool,
    pub op: bool,
    pub project: Text,
}

/// An event that has no number yet.
#[derive(Drop)]
pub struct Untold {
    pub moment: u64,
    pub project: Text,
    pub body: EventBody,
}

impl EventBody {
    /// The same, of its own.
    pub fn copy(&self, alloc: Global) -> Result<EventBody, NoMemory>
        ensures { IfOk result (λ t. t ≡ self.now) }
    {
        match self {
            EventBody::Life { action, source } => Ok(EventBody::Life {
                action: *action,
                source: source.copy(alloc)?,
            }),
            EventBody::Op(view) => Ok(EventBody::Op(view.copy(alloc)?)),
        }
    }
}

impl Notice {
    /// A notice of its own with the same parts.
    pub fn copy(&self, alloc: Global) -> Result<Notice, NoMemory>
        ensures { IfOk result (λ n. n ≡ self.now) }
    {
        Ok(Notice {
            number: self.number,
            moment: self.moment,
            project: self.project.copy(alloc)?,
            body: self.body.copy(alloc)?,
        })
    }
}
