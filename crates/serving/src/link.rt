/// The door that a connection came through.
#[derive(Clone, Copy, PartialEq, Eq)]
pub enum DoorKind {
    /// A port of TCP.
    Port,
    /// A socket file.
    Socket,
}

/// One connection: the door that it came through, where its requests come from, and where its replies go. What happens
/// to the one end tells nothing of the other.
#[derive(Drop)]
pub struct Link<S, K> {
    pub door: DoorKind,
    pub source: S,
    pub sink: K,
}
