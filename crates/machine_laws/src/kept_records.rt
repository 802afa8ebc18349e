//! What the store keeps and the rows agree: functions that do nothing, whose contracts are the laws.
ghost use Rattle.machine_laws.specs.Records.{RecordsOrdered, RecordsFollow, CommandsFollow, SuccessesFollow};

/// The records of a state whose names hold stand in the order of kind and key, each kind and key once.
pub fn records_are_ordered()
    ensures { RecordsOrdered }
{}

/// Changes of rows of all kinds, committed as changes of their entries, make the records of the state after them, where
/// names hold after each single change.
pub fn commits_keep_the_records()
    ensures { RecordsFollow }
{}

/// What a command that breaks no rule changes at once, committed, makes the records of the state after it.
pub fn commands_keep_the_records()
    ensures { CommandsFollow }
{}

/// What the success of an operation changes, committed, makes the records of the state after it.
pub fn successes_keep_the_records()
    ensures { SuccessesFollow }
{}
