use records::AnyRow;
use std::marker::Model;

/// A row of any kind, lent. Contracts see the row.
#[derive(Drop)]
pub struct RowRef<'a> {
    pub row: AnyRow<'a>,
}

impl<'a> Model for RowRef<'a> {
    ghost use Rattle.records.specs.declared.rows.Row.{Row};
    ghost use Rattle.records.specs.AnyRows.{row_in};

    ghost Value = { Row };

    ghost view = { λ r. row_in r.row };
}
