ghost use Rattle.std.specs.Prelude.{◌≡◌};
ghost use Rattle.operations.specs.Statuses.{is_live};

/// The status of an operation. The first three are live, the others ended.
#[derive(Clone, Copy, PartialEq, Eq)]
pub enum Status {
    Pending,
    Running,
    Cancelling,
    Success,
    Failure,
    Cancelled,
}

impl Status {
    /// Whether an operation of this status has not ended.
    pub fn is_live(self) -> bool
        ensures { result ≡ is_live self }
    {
        match self {
            Status::Pending | Status::Running | Status::Cancelling => true,
            Status::Success | Status::Failure | Status::Cancelled => false,
        }
    }
}
