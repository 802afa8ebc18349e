//! What each kind of change keeps: functions that do nothing, whose contracts are the laws.
ghost use Rattle.size_values.specs.declared.kinds.ObjectKind.TheVariants as kind;
ghost use Rattle.machine_laws.specs.KindsOfChange.{RowsKeep, EntriesKeep, FirstCallsKeep, NextCallsKeep, CancelsKeep};
ghost use Rattle.machine_laws.specs.KindsOfChange.{UndoCallsKeep, CancelledKeeps, FailureKeeps, SuccessKeeps};
ghost use Rattle.machine_laws.specs.KindsOfChange.{NoticesKeep, ClosingKeeps};

/// A row of each kind that an accepted command puts or removes at once keeps all ten facts: a project with its profile
/// `default`, a profile, a network, a pool, a volume, and an instance by PATCH.
pub fn rows_put_at_once_keep_the_facts()
    ensures projects { RowsKeep kind.Project }
    ensures profiles { RowsKeep kind.Profile }
    ensures networks { RowsKeep kind.Network }
    ensures pools { RowsKeep kind.Pool }
    ensures volumes { RowsKeep kind.Volume }
    ensures instances { RowsKeep kind.Instance }
{}

/// An operation that an accepted command begins keeps them.
pub fn an_entry_keeps_the_facts()
    ensures { EntriesKeep }
{}

/// A call that is handed out keeps them: the first one, a further one, and the one that takes the deed back.
pub fn a_call_handed_out_keeps_the_facts()
    ensures first { FirstCallsKeep }
    ensures next { NextCallsKeep }
    ensures undo { UndoCallsKeep }
{}

/// An operation that becomes Cancelling keeps them.
pub fn a_cancel_keeps_the_facts()
    ensures { CancelsKeep }
{}

/// The end of an operation keeps them: as Cancelled, as Failure and as Success.
pub fn an_end_keeps_the_facts()
    ensures cancelled { CancelledKeeps }
    ensures failure { FailureKeeps }
    ensures success { SuccessKeeps }
{}

/// Notices keep them, and so does the end of the server's work.
pub fn notices_and_closing_keep_the_facts()
    ensures notices { NoticesKeep }
    ensures closing { ClosingKeeps }
{}
