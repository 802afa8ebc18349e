ghost use Rattle.std.specs.Prelude.{◌≡◌, ◌<◌};
ghost use Rattle.size_values.specs.Moments.{moment_limit};
ghost use Rattle.schedule_texts.specs.Matches.{minute_of, matches};

use crate::days::{DAY, date_of};
use schedule_texts::{CivilMinute, Schedule};

/// Whether a schedule is due at a moment, which is in seconds since 1970: the moment begins a minute, and the minute
/// fits.
#[tactic(auto, unfolding(schedule_texts::specs::Matches::matches))]
pub fn matches(schedule: &Schedule, moment: u64) -> bool
    requires { moment < moment_limit }
    ensures { result ≡ matches schedule.now moment }
{
    moment % 60 == 0 && schedule.fits(&minute_of(moment))
}

/// The minute of the calendar in which a moment lies.
fn minute_of(moment: u64) -> CivilMinute
    requires { moment < moment_limit }
    ensures { result ≡ minute_of moment }
{
    let date = date_of(moment / DAY);
    CivilMinute {
        minute: (moment / 60 % 60) as u8,
        hour: (moment / 3_600 % 24) as u8,
        day: date.day() as u8,
        month: date.month() as u8,
        weekday: date.weekday().to_sunday_zero_offset() as u8,
    }
}
