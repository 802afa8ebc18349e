//! The status of an instance after a deed.
ghost use Rattle.std.specs.Prelude.{◌≡◌};
ghost use Rattle.row_machine.specs.machine.Deeds.{breaks_instance};
ghost use Rattle.row_machine.specs.machine.Operations.{power_after};

use instance_states::after;
use row_machine::Task;
use row_readings::{StateRef, power_of};
use size_values::{Deed, Power};

/// The status that the target of an operation has after its success, where the deed is a change of state that the
/// present status allows.
pub fn power_after(view: &StateRef<'_>, work: &Task) -> Option<Power>
    ensures { result ≡ power_after view.now work.now }
{
    let Deed::Act { action, .. } = work.deed else {
        return None;
    };
    match power_of(view, work.project.view(), work.target.name.view()) {
        Some(power) => after(power, action).ok(),
        None => None,
    }
}

/// Whether a failure of a deed leaves its instance in an unknown state, since the host has begun to change it.
pub fn breaks_instance(deed: Deed) -> bool
    ensures { result ≡ breaks_instance deed }
{
    match deed {
        Deed::Update | Deed::Restore | Deed::Rename | Deed::Delete | Deed::Act { .. } => true,
        Deed::Create | Deed::Copy | Deed::Snap | Deed::Unsnap | Deed::CopyVolume => false,
    }
}
