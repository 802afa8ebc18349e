//! By what the requests of a connection are read and its replies are printed.

/// How a door reads requests and prints replies: as the REST API says, or as the command `incus` needs it.
#[derive(Clone, Copy, PartialEq, Eq)]
pub enum Dialect {
    Plain,
    Client,
}

/// What a connection's requests and replies are read and printed by.
#[derive(Clone, Copy)]
pub struct Terms {
    /// The boot word of the ids of operations.
    pub boot: u64,
    pub dialect: Dialect,
    /// Whether a request with a head `Origin`, as web pages send, is refused; so it is over TCP.
    pub refuses_origin: bool,
}
