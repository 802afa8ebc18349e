use host_model::{HostCall, Report};
use records::{Command, Filter, Notice, Reply};
use size_values::Seq;

/// What happens to the server, one thing at a time. The last number of `Ask`, `Take` and `Done` is the moment, in
/// seconds since 1970.
#[derive(Drop)]
pub enum Event {
    /// A client asks for this.
    Ask(Command, u64),
    /// A client that waits for an operation looks at it.
    Look(u64),
    /// A worker asks for a call to make on the host.
    Take(u64),
    /// A worker reports of the call that it made for an operation.
    Done(u64, Report, u64),
    /// A listener asks for the events from this number on.
    Fetch(u64, Filter),
    /// No more work is handed out once nothing is pending.
    Close,
}

/// The events that a listener gets, with the number of the next one; or that some are no longer kept, since it asks
/// from a number below the oldest kept one.
#[derive(Drop)]
pub enum Fetched {
    Notices(Seq<Notice>, u64),
    Lagged { cursor: u64, oldest: u64 },
}

/// What the server answers to an event.
#[derive(Drop)]
pub enum Answer {
    Reply(Reply),
    /// To a wait: the operation is live, so look again.
    Hold(u64),
    /// To a look: the operation is live.
    NotYet(u64),
    /// The operation is not live, or has just ended.
    Ended(u64),
    /// A call to make on the host for this operation.
    Job(u64, HostCall),
    NoJob,
    /// No call of this operation is out.
    Stray(u64),
    Fetched(Fetched),
    Closed,
    NoMemory,
}
