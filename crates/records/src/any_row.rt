ghost use Rattle.std.specs.Prelude.{◌≡◌};
ghost use Rattle.records.specs.AnyRows.{row_in};

use crate::rows::{Instance, Network, Pool, Profile, Project, Row, Snapshot, Volume};

/// A row of any kind, which stays where it is.
#[derive(Clone, Copy)]
pub enum AnyRow<'x> {
    Project(&'x Project),
    Profile(&'x Profile),
    Network(&'x Network),
    Pool(&'x Pool),
    Volume(&'x Volume),
    Instance(&'x Instance),
    Snapshot(&'x Snapshot),
}

impl Row {
    /// The row, lent.
    pub fn lent(&self) -> AnyRow<'_>
        ensures { row_in result ≡ self.now }
    {
        match self {
            Row::Project(row) => AnyRow::Project(row),
            Row::Profile(row) => AnyRow::Profile(row),
            Row::Network(row) => AnyRow::Network(row),
            Row::Pool(row) => AnyRow::Pool(row),
            Row::Volume(row) => AnyRow::Volume(row),
            Row::Instance(row) => AnyRow::Instance(row),
            Row::Snapshot(row) => AnyRow::Snapshot(row),
        }
    }
}
