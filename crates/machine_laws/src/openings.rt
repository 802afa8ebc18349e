//! What an opening that is accepted gives: functions that do nothing, whose contracts are the laws.
ghost use Rattle.machine_laws.specs.Openings.{OpeningIsWhole, OpeningKeepsEntries};

/// Of each state that entries open to all ten facts hold.
pub fn an_accepted_opening_is_whole()
    ensures { OpeningIsWhole }
{}

/// The records of a state that entries in order open to are these entries: opening loses nothing and adds nothing.
pub fn an_opening_keeps_its_entries()
    ensures { OpeningKeepsEntries }
{}
