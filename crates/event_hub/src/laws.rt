//! Laws of the hub: functions that do nothing, whose contracts are the laws.
ghost use Rattle.std.specs.Prelude.{◌≡◌, ℕ};
ghost use Rattle.event_hub.specs.Recent.{as_state, pushed, recent_of, with_recent};
ghost use Rattle.records.specs.declared.notices.Filter.{Filter};
ghost use Rattle.records.specs.declared.notices.Untold.{Untold};
ghost use Rattle.row_machine.specs.machine.State.{State};
ghost use Rattle.row_machine.specs.shown.Notices.{push_notice, since};

/// What the machine makes of its notices is what the hub makes of them: a push, and the answer to a
/// listener, whatever else its state has.
pub fn notices_are_the_machines()
    ensures push { (n : Untold) (s : State) → push_notice n s ≡ with_recent (pushed n (recent_of s)) s }
    ensures since { (s : State) (cursor : ℕ) (filter : Filter)
        → since s cursor filter ≡ since (as_state (recent_of s)) cursor filter }
{}
