use crate::status::Status;

/// Why an operation ended as `Failure`. A `Host` fault keeps which call of the operation failed, counted from 1,
/// and the host's count of faults before and after it; a `Keeper` fault the keeper's counts.
#[derive(Clone, Copy, PartialEq, Eq)]
pub enum OpFault {
    None,
    Host { call: u8, before: u64, after: u64 },
    Keeper { before: u64, after: u64 },
    NoMemory,
}

/// One background operation, with the work that it does. `created` and `updated` are moments, in seconds since
/// 1970; `updated` is that of the last change of the status.
#[derive(Drop)]
pub struct Operation<W> {
    pub number: u64,
    pub created: u64,
    pub updated: u64,
    pub status: Status,
    pub may_cancel: bool,
    pub fault: OpFault,
    pub work: W,
}
