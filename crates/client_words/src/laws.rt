//! Laws of the definitions: functions that do nothing, whose contracts are the laws.
ghost use Rattle.client_words.specs.Examples.{AreWorked};

/// Lists of words with what they say, each computed through the whole definition.
pub fn client_examples()
    ensures { AreWorked }
{}
