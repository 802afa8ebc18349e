//! Laws: functions that do nothing, whose contracts are the laws.
ghost use Rattle.rest_replies.specs.Replies.{NoMemoryIsKnown};
ghost use Rattle.rest_replies.specs.WordExamples.{AreInWords, EmptyIsUnsaid};

/// The body where there is no memory is the one that is sent without making it.
pub fn no_memory_is_known()
    ensures { NoMemoryIsKnown }
{}

/// What the client's dialect says of refusals, one for each list of parts.
pub fn refusals_in_words()
    ensures words { AreInWords }
    ensures empty { EmptyIsUnsaid }
{}
