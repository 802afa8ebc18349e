//! Laws: functions that do nothing, whose contracts are the laws.
ghost use Rattle.std.specs.Prelude.{ℕ};
ghost use Rattle.host_model.specs.declared.report.Report.{Report};
ghost use Rattle.records.specs.declared.notices.Filter.{Filter};
ghost use Rattle.row_machine.specs.declared.events.Answer.{Answer};
ghost use Rattle.row_machine.specs.declared.events.Event.TheVariants as event;
ghost use Rattle.gates.specs.History.{MayAnswer};
ghost use Rattle.gates.specs.Awaited.{NothingIsMissed};
ghost use Rattle.gates.specs.Answers.{IsForListener, IsForLooker, IsForReporter, IsForTaker};

/// A look is answered by whether its operation is live.
pub fn looks_are_answered()
    ensures { (number : ℕ) (a : Answer) → MayAnswer (event.Look number) a → IsForLooker a }
{}

/// A worker that asks for a call gets one, or hears that none waits, or that the server is closed.
pub fn calls_are_answered()
    ensures { (moment : ℕ) (a : Answer) → MayAnswer (event.Take moment) a → IsForTaker a }
{}

/// A report is answered by the next call, or by the end of its operation.
pub fn reports_are_answered()
    ensures { (number : ℕ) (r : Report) (moment : ℕ) (a : Answer)
        → MayAnswer (event.Done number r moment) a → IsForReporter a }
{}

/// A listener gets what it asks for, or is refused memory.
pub fn events_are_answered()
    ensures { (cursor : ℕ) (filter : Filter) (a : Answer)
        → MayAnswer (event.Fetch cursor filter) a → IsForListener a }
{}

/// Those who idle miss nothing: whatever a turn brings about, the bell of those who wait for it rings.
pub fn bells_miss_nothing()
    ensures { NothingIsMissed }
{}
