use operations::{OpFault, Status};
use size_values::ObjectKind;

/// An operation as it was at a moment. What it is about is told beside it, as that never changes.
#[derive(Clone, Copy)]
pub struct Progress {
    pub moment: u64,
    pub number: u64,
    pub status: Status,
    pub may_cancel: bool,
    pub created: u64,
    pub updated: u64,
    pub fault: OpFault,
}

/// What an operation is about: its project and the object, whose unused parts are empty.
#[derive(Clone, Copy)]
pub struct About<'a> {
    pub project: &'a str,
    pub kind: ObjectKind,
    pub pool: &'a str,
    pub instance: &'a str,
    pub name: &'a str,
}
