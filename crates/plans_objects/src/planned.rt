use records::Untold;
use row_machine::RowChange;
use size_values::Seq;

/// What a command changes at once: the changes of rows in their order, and the notice that tells of them.
#[derive(Drop)]
pub struct Planned {
    pub changes: Seq<RowChange>,
    pub notice: Untold,
}
