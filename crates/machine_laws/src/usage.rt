//! Laws of usage: functions that do nothing, whose contracts are the laws.
ghost use Rattle.machine_laws.specs.Lowered.{UpdatesLower, SuccessesRaiseNothing};

/// An update or a restore that succeeds lowers the usage of its project by exactly the parts in which the new row lies
/// below the old one, and leaves the usage of every other project.
pub fn an_update_lowers_usage()
    ensures { UpdatesLower }
{}

/// No operation that succeeds raises any part of the usage of any project.
pub fn no_success_raises_usage()
    ensures { SuccessesRaiseNothing }
{}
