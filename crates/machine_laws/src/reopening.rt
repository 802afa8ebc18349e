//! The law that what is kept opens again.
ghost use Rattle.machine_laws.specs.Reopening.{KeptRowsOpen};

/// The records of a state in which all facts hold open to its rows: no rule of opening refuses them, whatever was
/// claimed beside them. Every instance is stopped then, and there are no operations and no notices.
pub fn kept_rows_open()
    ensures { KeptRowsOpen }
{}
