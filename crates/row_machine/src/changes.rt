use records::Row;
use size_values::{ObjectKind, Text};

/// One change of the rows: a row is put, in place of the one of its name where there is one, or the row of this kind
/// and key is removed. Keys are written as the store writes them, as `PROJECT/NAME`.
#[derive(Drop)]
pub enum RowChange {
    Put(Row),
    Remove(ObjectKind, Text),
}
