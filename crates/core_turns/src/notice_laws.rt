//! Laws of notices: functions that do nothing, whose contracts are the laws.
ghost use Rattle.core_turns.specs.Asides.{TellsAfter};
ghost use Rattle.core_turns.specs.ShortTasks.{StayShort};

/// What a step tells where nothing was told before, it tells after whatever was told; it is answered
/// the same, and leaves the same beside.
pub fn steps_tell_after()
    ensures { TellsAfter }
{}

/// The projects and objects of operations have short texts, after each step too.
pub fn operations_stay_short()
    ensures { StayShort }
{}
