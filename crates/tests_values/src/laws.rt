//! Tables of cases, each the contract of a function that does nothing: what the definitions give in each case.
ghost use Rattle.tests_values.specs.Entries.{EntriesHold};
ghost use Rattle.tests_values.specs.Readers.{ReadersGive};
ghost use Rattle.tests_values.specs.Summaries.{SummariesHold};
ghost use Rattle.tests_values.specs.Values.{ValuesHold};

/// What the readers of option values give for texts.
pub fn readers_by_example()
    ensures { ReadersGive }
{}

/// Amounts, the order of texts, and calls of which some fail.
pub fn values_by_example()
    ensures { ValuesHold }
{}

/// What a keeper keeps after changes.
pub fn entries_after_changes()
    ensures { EntriesHold }
{}

/// What is told of the replies to a stream of requests.
pub fn summaries_of_replies()
    ensures { SummariesHold }
{}
