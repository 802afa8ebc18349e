//! The law of the counts: a function that does nothing, whose contract is the law.
ghost use Rattle.incus_run.specs.Counts.{EachCommandCounts};

/// When the clock is read after some commands and the worker's steps for them, these are the commands that count as
/// answered, each once, however many calls their operations made.
pub fn each_command_counts()
    ensures { EachCommandCounts }
{}
