ghost use Rattle.std.specs.Prelude.{◌≡◌, IfOk};

use crate::rows::Driver;
use config_lists::{Changes, Devices};
use size_values::{Action, Kind, NoMemory, ObjectKind, Seq, Text};
use std::alloc::Global;

/// The object that a command is about, or the objects of a list. A volume has its pool and a snapshot its
/// instance beside its name; the parts that a kind does not use are empty. A list has no name, and operations
/// are named by number elsewhere.
#[derive(Drop)]
pub struct Target {
    pub kind: ObjectKind,
    pub pool: Text,
    pub instance: Text,
    pub name: Text,
}

/// Where a new instance or volume gets its content: from nothing, from the image of this alias or fingerprint,
/// or from another object. A copy of an instance may be one of its snapshot, else `snapshot` is empty, and its
/// `pool` is empty. A copy of a volume names the pool of that volume: where a request leaves the pool out or gives
/// `null`, the route fills in the pool of its path. An empty `pool` is a text like any other, and names no pool (N2).
#[derive(Drop)]
pub enum Origin {
    None,
    Image(Text),
    Copy {
        from: Text,
        snapshot: Text,
        pool: Text,
    },
}

/// The fields of a request's body that speak of the object itself. `kind` is the field `type` of an instance.
#[derive(Drop)]
pub struct Body {
    pub description: Option<Text>,
    pub config: Option<Changes>,
    pub devices: Option<Devices>,
    pub profiles: Option<Seq<Text>>,
    pub kind: Option<Kind>,
    pub ephemeral: Option<bool>,
    pub driver: Option<Driver>,
    pub origin: Origin,
}

/// What a request asks for, in the project that its query names. `expects` is the entity tag that the object has to
/// have, with its quotes, where the request says so (RFC 9110, section 13.1.1).
#[derive(Drop)]
pub struct Command {
    pub project: Text,
    pub what: What,
    pub expects: Option<Text>,
}

/// The requests of the REST API. `Root` and `Server` are `GET /` and `GET /1.0`; `State` is the state of an
/// instance or the usage of a project; `Move` renames; `Act` changes the state of an instance, and `Restore`
/// takes an instance back to its snapshot. Operations go by number, and `timeout` is in seconds, -1 for none.
#[derive(Drop)]
pub enum What {
    Root,
    Server,
    List { of: Target, recursion: bool },
    Get { of: Target },
    State { of: Target },
    Create { of: Target, body: Body },
    Put { of: Target, body: Body },
    Patch { of: Target, body: Body },
    Move { of: Target, to: Text },
    Delete { of: Target },
    Act { of: Target, action: Action },
    Restore { of: Target, snapshot: Text },
    GetOp { op: u64 },
    Cancel { op: u64 },
    Wait { op: u64, timeout: i64 },
}

impl Target {
    /// A target of its own with the same parts.
    pub fn copy(&self, alloc: Global) -> Result<Target, NoMemory>
        ensures { IfOk result (λ t. t ≡ self.now) }
    {
        Ok(Target {
            kind: self.kind,
            pool: self.pool.copy(alloc)?,
            instance: self.instance.copy(alloc)?,
            name: self.name.copy(alloc)?,
        })
    }
}
