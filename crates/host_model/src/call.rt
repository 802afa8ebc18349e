use crate::place::Place;
use crate::root::Spec;
use size_values::Text;

/// One call of a host, with all that it needs. A `CopyRoot` with an empty snapshot copies the root itself.
#[derive(Drop)]
pub enum HostCall {
    Clear {
        at: Place,
    },
    MakeRoot {
        at: Place,
        origin: Text,
    },
    CopyRoot {
        from: Place,
        snapshot: Text,
        to: Place,
    },
    Start {
        at: Place,
        spec: Spec,
    },
    Stop {
        at: Place,
    },
    Freeze {
        at: Place,
    },
    Thaw {
        at: Place,
    },
    Apply {
        at: Place,
        spec: Spec,
    },
    Rename {
        from: Place,
        to: Place,
    },
    Snap {
        at: Place,
        name: Text,
    },
    Unsnap {
        at: Place,
        name: Text,
    },
    Restore {
        at: Place,
        name: Text,
    },
}
