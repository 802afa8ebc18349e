use operations::Operation;
use row_machine::Task;
use std::marker::Model;

/// A background operation, lent. Contracts see the operation.
#[derive(Drop)]
pub(crate) struct OperationRef<'a> {
    pub(crate) operation: &'a Operation<Task>,
}

impl<'a> Model for OperationRef<'a> {
    ghost use Rattle.operations.specs.declared.operation.Operation.{Operation};
    ghost use Rattle.row_machine.specs.machine.Task.{Task};

    ghost Value = { Operation Task };

    ghost view = { λ o. o.operation.now };
}
