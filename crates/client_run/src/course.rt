//! How a run went, and its status.
ghost use Rattle.std.specs.Prelude.{◌≡◌};
ghost use Rattle.client_run.specs.Sessions.{status_in};

/// How a run of the client went.
#[derive(Clone, Copy)]
pub enum Course {
    /// The words were not read, and nothing was sent.
    Unread,
    /// The command ended with this status, and what it tells was printed.
    Ended(u8),
    /// What the link gave is no reply, or it has ended before a reply was whole.
    Malformed,
    /// A read of the link or a write to it failed.
    LinkFailed,
    /// A print failed.
    PrintFailed,
    NoMemory,
}

impl Course {
    /// The status of the program.
    pub fn status(self) -> u8
        ensures { result ≡ status_in self }
    {
        match self {
            Course::Ended(status) => status,
            Course::Unread => 2,
            Course::Malformed => 3,
            Course::LinkFailed => 4,
            Course::PrintFailed => 5,
            Course::NoMemory => 9,
        }
    }
}
