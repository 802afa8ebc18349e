//! Where doors listen, and why they can't.
use size_values::Text;

/// Where doors listen: at a port of 127.0.0.1, at a socket file, or at both.
#[derive(Drop)]
pub struct Places {
    pub port: Option<u16>,
    pub socket: Option<Text>,
}

/// Why a door can't be opened.
#[derive(Clone, Copy, PartialEq, Eq)]
pub enum DoorFault {
    /// The port can't be listened on.
    Port,
    /// The path of the socket file is longer than the system takes.
    LongPath,
    /// Its folder is missing.
    NoFolder,
    /// A file that is no socket is there.
    NoSocket,
    /// A server listens there.
    Live,
    /// The folder, or the file that is there, is not to be changed by this user.
    Denied,
    /// The system refuses it for another reason.
    System,
}
