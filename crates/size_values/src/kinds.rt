/// What an instance is: a system container or a virtual machine.
#[derive(Clone, Copy, PartialEq, Eq)]
pub enum Kind {
    Container,
    Machine,
}

/// The status of an instance, as `GET /1.0/instances/{name}/state` shows it.
#[derive(Clone, Copy, PartialEq, Eq)]
pub enum Power {
    Stopped,
    Running,
    Frozen,
    Error,
}

/// An action of `PUT /1.0/instances/{name}/state`.
#[derive(Clone, Copy, Debug, PartialEq, Eq)]
pub enum Action {
    Start,
    Stop,
    Restart,
    Freeze,
    Unfreeze,
}

/// What a background operation does to its target.
#[derive(Clone, Copy, Debug, PartialEq, Eq)]
pub enum Deed {
    Create,
    Copy,
    Update,
    Restore,
    Rename,
    Delete,
    /// A change of state. An ephemeral instance that stops is deleted in the same operation.
    Act { action: Action, ephemeral: bool },
    Snap,
    Unsnap,
    CopyVolume,
}

/// The kinds of objects that have names, in the order in which refusals name them.
#[derive(Clone, Copy, PartialEq, Eq)]
pub enum ObjectKind {
    Project,
    Profile,
    Network,
    Pool,
    Volume,
    Instance,
    Snapshot,
    Operation,
}
