//! Laws of the definitions: functions that do nothing, whose contracts are the laws.
ghost use Rattle.client_steps.specs.Laws.{EndsOnce, EndsWell, IsAnsweredFirst, KnowsNoFuture, Runs};

/// Each command, its requests in their order, and how it ends.
pub fn commands_run()
    ensures { Runs }
{}

/// A command sends a request for each reply at most, and one before the first.
pub fn is_answered_first()
    ensures { IsAnsweredFirst }
{}

/// What a command sends does not depend on what is replied later.
pub fn knows_no_future()
    ensures { KnowsNoFuture }
{}

/// A command that has ended stays so.
pub fn ends_once()
    ensures { EndsOnce }
{}

/// A command whose requests all go well ends with 0.
pub fn ends_well()
    ensures { EndsWell }
{}
