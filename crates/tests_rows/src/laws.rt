//! Tables of cases, each the contract of a function that does nothing: what the definitions give in each case.
ghost use Rattle.tests_rows.specs.Host.{HostHolds};
ghost use Rattle.tests_rows.specs.Policies.{PoliciesHold};
ghost use Rattle.tests_rows.specs.Spellings.{SpellingsHold};
ghost use Rattle.tests_rows.specs.States.{StatesHold};

/// The calls of deeds, what actions lead to from each status, and the names of snapshots.
pub fn states_by_example()
    ensures { StatesHold }
{}

/// What restricted projects forbid.
pub fn policies_by_example()
    ensures { PoliciesHold }
{}

/// Rows as entries and entries as rows, damaged entries, and the sizes of bodies.
pub fn spellings_by_example()
    ensures { SpellingsHold }
{}

/// What the calls of the modelled host do to its roots.
pub fn host_by_example()
    ensures { HostHolds }
{}
