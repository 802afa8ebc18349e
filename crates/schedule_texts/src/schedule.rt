ghost use Rattle.std.specs.Prelude.{◌≡◌};
ghost use Rattle.schedule_texts.specs.Matches.{fits};
ghost use Rattle.schedule_texts.specs.Schedules.{schedule_of};

use crate::aliases::AliasSet;
use crate::fields::FieldSets;
use crate::minute::CivilMinute;
use size_values::ValueFault;

/// When snapshots are made, as `snapshots.schedule` of the Incus documentation's "Instance options" says it: five
/// fields as in a table of cron, or aliases for such fields.
#[derive(Clone, Copy)]
pub enum Schedule {
    Fields(FieldSets),
    Aliases(AliasSet),
}

impl Schedule {
    /// Whether the schedule is due in a minute.
    pub fn fits(&self, at: &CivilMinute) -> bool
        ensures { result ≡ fits self.now at.now }
    {
        match self {
            Schedule::Fields(fields) => fields.fits(at),
            Schedule::Aliases(aliases) => aliases.fits(at),
        }
    }
}

/// Reads a schedule: five fields with one space between them, or aliases with commas between them.
#[tactic(auto, unfolding(crate::specs::Schedules::schedule_of))]
pub fn read_schedule(text: &str) -> Result<Schedule, ValueFault>
    ensures { result ≡ schedule_of text.now }
{
    if text.is_empty() {
        return Err(ValueFault::Empty);
    }
    if let Some(fields) = FieldSets::read(text) {
        return Ok(Schedule::Fields(fields));
    }
    let Some(aliases) = AliasSet::read(text) else {
        return Err(ValueFault::OutOfRange);
    };
    Ok(Schedule::Aliases(aliases))
}
