//! Held waits: functions that do nothing, whose contracts are the laws.
ghost use Rattle.machine_laws.specs.Waits.{WaitsEnd, FewSteps};

/// A wait that is held while one worker serves alone ends: after four steps for each live operation all have ended,
/// whatever the host reports and however the store fails.
pub fn a_held_wait_ends()
    ensures { WaitsEnd }
{}

/// These are at most 4,096 steps.
pub fn a_held_wait_takes_few_steps()
    ensures { FewSteps }
{}
