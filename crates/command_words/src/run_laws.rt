//! Laws of the definitions: functions that do nothing, whose contracts are the laws.
ghost use Rattle.command_words.specs.RunExamples.{AreWorked};

/// Lists of words with what they say, each computed through the whole definition.
pub fn run_examples()
    ensures { AreWorked }
{}
