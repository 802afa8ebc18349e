//! Laws of the machine: functions that do nothing, whose contracts are the laws.
ghost use Rattle.row_machine.specs.facts.Laws.{EmptyRunStays, RunsJoin, RefusedStays, EndedStays, EndsOnce, NewIsWhole};
ghost use Rattle.row_machine.specs.facts.Laws.{DeletesInstances, SuccessIsFixed};
ghost use Rattle.row_machine.specs.examples.Worked.{AreWorked, BusyIsWhole};
ghost use Rattle.row_machine.specs.examples.Openings.{AreOpened};
ghost use Rattle.row_machine.specs.examples.Faults.{AreTold};

/// No events: nothing is answered, nothing ends, and the state stays.
pub fn an_empty_run_stays()
    ensures { EmptyRunStays }
{}

/// The run of two lists of events, one after the other, is the run of the first and then of the second.
pub fn runs_join()
    ensures { RunsJoin }
{}

/// A request that is refused leaves the state as it is.
pub fn a_refused_request_stays()
    ensures { RefusedStays }
{}

/// An operation that has ended is the same in each later state that keeps it.
pub fn an_ended_operation_stays()
    ensures { EndedStays }
{}

/// In the ends of a run no number stands twice.
pub fn each_operation_ends_once()
    ensures { EndsOnce }
{}

/// The facts hold of a new server: the state that no entries open to.
pub fn a_new_server_is_whole()
    ensures { NewIsWhole }
{}

/// The examples: lists of events from a new server with their exact answers, refusals and usage, each computed.
pub fn examples()
    ensures { AreWorked }
{}

/// The examples of opening: rows, and the state, rule or damage to which their entries open.
pub fn examples_of_opening()
    ensures { AreOpened }
{}

/// The examples of failures of the outside, of notices, and of listeners.
pub fn examples_of_faults()
    ensures { AreTold }
{}

/// The facts hold in no state in which an operation that deletes was entered with another target than an instance.
pub fn a_deletion_is_of_an_instance()
    ensures { DeletesInstances }
{}

/// What the success of an operation tells is fixed when it is entered, but for the moment.
pub fn a_success_tells_what_is_fixed_at_its_entry()
    ensures { SuccessIsFixed }
{}

/// The facts hold of a server on which a creation, a copy and a deletion are live.
pub fn a_busy_server_is_whole()
    ensures { BusyIsWhole }
{}
