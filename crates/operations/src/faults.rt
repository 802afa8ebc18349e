use crate::status::Status;

/// Why no operation is entered: `Full` where the most are live; `Spent` where fewer are and no number is left.
#[derive(Clone, Copy, PartialEq, Eq)]
pub enum EnterFault {
    Full,
    Spent,
}

/// Why an operation is not cancelled, the first of these that stands: none of this number is kept; it has ended,
/// with this status; it may not be cancelled; it is being cancelled already.
#[derive(Clone, Copy, PartialEq, Eq)]
pub enum CancelFault {
    Unknown,
    Ended(Status),
    Fixed,
    Already,
}
