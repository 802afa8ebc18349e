//! Rules on what stands in the way: B1 to B6.
ghost use Rattle.size_values.specs.Causes.{Says};
ghost use Rattle.row_machine.specs.machine.Rules.{standing_broken};

use crate::busy::instance_busy;
use crate::holders::profile_held;
use crate::occupied::project_occupied;
use crate::powers::wrong_state;
use crate::protected::object_protected;
use crate::used::object_used;
use records::{Command, Refusal};
use row_readings::StateRef;
use size_values::Or;
use std::alloc::Global;

/// The first rule on what stands in the way that a command breaks.
#[tactic(auto, unfolding(row_machine::specs::machine::Rules::standing_broken))]
pub fn standing_broken(
    alloc: Global,
    view: &StateRef<'_>,
    command: &Command,
) -> Result<(), Or<Refusal>>
    ensures { Says result (standing_broken view.now command.now) }
{
    instance_busy(alloc, view, command)?;
    wrong_state(alloc, view, command)?;
    object_protected(alloc, view, command)?;
    object_used(alloc, view, command)?;
    project_occupied(alloc, view, command)?;
    profile_held(alloc, view, command)
}
