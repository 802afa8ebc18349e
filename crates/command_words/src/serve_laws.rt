//! Laws of the definitions: functions that do nothing, whose contracts are the laws.
ghost use Rattle.command_words.specs.ServeExamples.{AreWorked};

/// Lists of words with what they say, each computed through the whole definition.
pub fn serve_examples()
    ensures { AreWorked }
{}
