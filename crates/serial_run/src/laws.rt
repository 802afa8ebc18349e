//! What a keeper tells after each of its calls in a run: a function that does nothing, whose contract is the law.
ghost use Rattle.serial_run.specs.Kept.{AfterEachCall, AfterEachCallOfOne};

/// After each call of the keeper in a run, what it tells are the records of the rows after all changes and operations so
/// far, with the one in progress or without it; and with it after each change that was answered with success.
pub fn after_each_call()
    ensures run { AfterEachCall }
    // The same of a request whose reply may not have been written.
    ensures one { AfterEachCallOfOne }
{}
