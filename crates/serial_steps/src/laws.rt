//! What steps come to: a function that does nothing, whose contract is the law.
ghost use Rattle.serial_steps.specs.Counts.{StepsComeTo};

/// Steps read the clock once each, make the calls that they report of on the host, and tell of no
/// failure that the host or the keeper didn't count.
pub fn steps_come_to()
    ensures { StepsComeTo }
{}
