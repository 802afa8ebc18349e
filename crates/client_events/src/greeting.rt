/// What the bytes are that a server answers a handshake by.
#[derive(Clone, Copy, Debug, PartialEq, Eq)]
pub enum Greeting {
    /// A head has begun, or nothing stands here: more bytes may make it whole.
    Begun,
    /// A head of so many bytes that accepts the handshake: events follow it.
    Accepted { len: usize },
    /// Anything else, as the head of a reply that says why there are no events.
    Other,
}
