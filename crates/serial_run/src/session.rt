ghost use Rattle.std.specs.Prelude.{◌≡◌};
ghost use Rattle.serial_run.specs.Inputs.{status_of};
ghost use Rattle.serial_run.specs.Most.{most_requests};

use http_front::HeadFault;

/// The most requests that one session answers.
pub const MOST_REQUESTS: u32 = 1_000_000;

/// The constant is the number that definitions speak of.
pub fn sessions_end_after_a_million_requests()
    ensures { MOST_REQUESTS ≡ most_requests }
{}

/// Where a session stops.
#[derive(Clone, Copy, PartialEq, Eq)]
pub enum SessionEnd {
    /// The source has ended between two requests, or a request was answered after which the
    /// connection ends.
    Ended,
    /// The source has ended within a request.
    Cut,
    /// No request begins here. It was answered by its rule, and the connection ends.
    Malformed(HeadFault),
    /// A read failed.
    ReadFault,
    /// A write failed.
    WriteFault,
    /// The most requests that a session answers were answered.
    Spent,
    /// Memory was refused outside a request.
    NoMemory,
}

impl SessionEnd {
    /// The exit status.
    pub fn status(self) -> u8
        ensures { result ≡ status_of self }
    {
        match self {
            SessionEnd::Ended => 0,
            SessionEnd::Cut => 2,
            SessionEnd::Malformed(_) => 3,
            SessionEnd::ReadFault => 4,
            SessionEnd::WriteFault => 5,
            SessionEnd::NoMemory => 9,
            SessionEnd::Spent => 10,
        }
    }
}

/// What one turn of a session comes to.
#[derive(Clone, Copy, PartialEq, Eq)]
pub enum Turn {
    /// A request was answered, and the next one may come.
    GoOn,
    /// A request was answered, and its connection ends.
    Final,
    /// The session stops.
    Stop(SessionEnd),
}
