//! Laws of the machine: functions that do nothing, whose contracts are the laws.
ghost use Rattle.machine_laws.specs.Laws.{StepKeeps, RunKeeps, NewRunKeeps};
ghost use Rattle.machine_laws.specs.Sorted.{StepsKeepOrder};
ghost use Rattle.machine_laws.specs.Headline.{TheHeadline};

/// Each step keeps all ten facts: of every possible event, with every outcome that it can have.
pub fn step_keeps_the_facts()
    ensures { StepKeeps }
{}

/// Each list of possible events keeps all ten facts, from any state in which they hold.
pub fn a_run_keeps_the_facts()
    ensures { RunKeeps }
{}

/// In each state that a new server comes to, all ten facts hold.
pub fn a_new_server_keeps_the_facts()
    ensures { NewRunKeeps }
{}

/// The settings and devices of all rows stay in the order of their keys, where those of requests are.
pub fn steps_keep_settings_in_order()
    ensures { StepsKeepOrder }
{}

/// The promise of the server. Over every list of requests, operation steps, host outcomes and cancellations, from any
/// state that entries open to: at the end of each turn every project's instances, volumes and live claims stand within
/// its limits, no restricted project holds a forbidden setting, every instance has what its profiles in their order and
/// then its own settings say, and each operation ended at most once, its share made its object's or returned whole.
pub fn the_headline()
    ensures { TheHeadline }
{}
