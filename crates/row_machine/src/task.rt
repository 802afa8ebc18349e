ghost use Rattle.std.specs.Prelude.{◌≡◌};
ghost use Rattle.row_machine.specs.machine.Deeds.{target_kind};

use host_model::HostCall;
use records::{Row, Target};
use size_values::{Deed, ObjectKind, Seq, Text};
use std::marker::Model;

/// What a background operation holds: its deed, the project and the object that it is about, the row that it would put
/// with the project and name of the instance that this row replaces, the source of a copy, the calls that are not yet
/// handed out, the call that takes the deed back while it was not handed out, and how many calls were done before the
/// last one was handed out. Contracts see all of it. The notices of its end, which are made ahead, stand beside the
/// operations: one that has ended keeps its work, and gives its notices away.
#[derive(Drop)]
pub struct Task {
    pub deed: Deed,
    pub project: Text,
    pub target: Target,
    pub claim: Option<Row>,
    pub replaces: Option<(Text, Text)>,
    pub source: Option<Target>,
    pub calls: Seq<HostCall>,
    pub undo: Option<HostCall>,
    pub done: u32,
}

impl Model for Task {
    ghost use Rattle.row_machine.specs.machine.Task.{Task};

    ghost Value = { Task };

    ghost view = { λ w. record {
      deed = w.deed;
      project = w.project;
      target = w.target;
      claim = w.claim;
      replaces = w.replaces;
      source = w.source;
      calls = w.calls;
      undo = w.undo;
      done = w.done;
    } };
}

/// The kind of object that a deed is about.
pub fn target_kind(deed: Deed) -> ObjectKind
    ensures { result ≡ target_kind deed }
{
    match deed {
        Deed::Create
        | Deed::Copy
        | Deed::Update
        | Deed::Restore
        | Deed::Rename
        | Deed::Act { .. } => ObjectKind::Instance,
        Deed::Delete => ObjectKind::Instance,
        Deed::Snap | Deed::Unsnap => ObjectKind::Snapshot,
        Deed::CopyVolume => ObjectKind::Volume,
    }
}
