//! The rows that live operations would put, and those that they replace.
ghost use Rattle.std.specs.Prelude.{◌≡◌};
ghost use Rattle.std.specs.Option.{option_copied};
ghost use Rattle.row_machine.specs.machine.Claims.{claimed_instance, claimed_volume, claimed_snapshot};
ghost use Rattle.row_machine.specs.machine.Claims.{replaced_instance};

use crate::state_ref::StateRef;
use records::{Instance, Row, Snapshot, Volume};
use row_machine::Task;

/// The instance that a live operation would put.
pub fn claimed_instance(work: &Task) -> Option<&Instance>
    ensures { option_copied result ≡ claimed_instance work.now }
{
    match &work.claim {
        Some(Row::Instance(row)) => Some(row),
        _ => None,
    }
}

/// The volume that a live operation would put.
pub fn claimed_volume(work: &Task) -> Option<&Volume>
    ensures { option_copied result ≡ claimed_volume work.now }
{
    match &work.claim {
        Some(Row::Volume(row)) => Some(row),
        _ => None,
    }
}

/// The snapshot that a live operation would put.
pub fn claimed_snapshot(work: &Task) -> Option<&Snapshot>
    ensures { option_copied result ≡ claimed_snapshot work.now }
{
    match &work.claim {
        Some(Row::Snapshot(row)) => Some(row),
        _ => None,
    }
}

/// The instance that the claimed row replaces, as it now stands.
pub fn replaced_instance<'x>(view: &StateRef<'x>, work: &Task) -> Option<&'x Instance>
    ensures { option_copied result ≡ replaced_instance view.now work.now }
{
    match &work.replaces {
        Some((project, name)) => view.instance_named(project.view(), name.view()),
        None => None,
    }
}
