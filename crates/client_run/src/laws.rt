//! Laws of the definitions: functions that do nothing, whose contracts are the laws.
ghost use Rattle.client_run.specs.Laws.{EndsSo, EndsWell, PrintsAreRead, StatusesTell};

/// A command that is replied to well, over a link that does not fail, ends with the status 0, or for want of memory.
pub fn good_runs_end_well()
    ensures { EndsWell }
{}

/// A command ends by its replies with the status 0, 1 or 3.
pub fn commands_end_so()
    ensures { EndsSo }
{}

/// What the statuses 2, 4 and 5 say.
pub fn statuses_tell()
    ensures { StatusesTell }
{}

/// What a server prints is read: each of its heads, with the body behind it.
pub fn prints_are_read()
    ensures { PrintsAreRead }
{}
