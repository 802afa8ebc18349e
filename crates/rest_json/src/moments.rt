//! Moments as texts: dates by the calendar, and the time of the day.
ghost use Rattle.std.specs.Prelude.{◌≡◌, ◌<◌, ◌≤◌, ◌/◌, ◌%◌, pos, IfOk};
ghost use Rattle.jiff.specs.Words.{epoch_day};
ghost use Rattle.rest_json.specs.Moments.{last_moment, stamp_text, moment_text};

use jiff::ToSpan;
use jiff::civil::{Date, DateTime, Time};
use size_values::{NoMemory, Text};
use std::alloc::Global;

/// The last moment that has a text, in seconds since 1970: the last second of the year 9999.
const LAST_MOMENT: u64 = 253_402_300_799;

/// The first of January 1970.
fn first_date() -> Date
    ensures { epoch_day result ≡ pos 0 }
{
    let Ok(date) = Date::new(1970, 1, 1) else {
        unreachable!();
    };
    date
}

/// The date of a day, which is counted from 1970 on.
fn date_of(day: u64) -> Date
    requires { day < 2_932_897 }
    ensures { epoch_day result ≡ pos day }
{
    let Ok(date) = first_date().checked_add((day as i64).days()) else {
        unreachable!();
    };
    date
}

/// The time of a second of a day.
fn time_of(second: u64) -> Time
    requires { second < 86_400 }
    ensures hour { result.hour ≡ second / 3600 }
    ensures minute { result.minute ≡ second % 3600 / 60 }
    ensures second { result.second ≡ second % 60 }
    ensures whole { result.subsec_nanosecond ≡ 0 }
{
    let hour = (second / 3600) as i8;
    let minute = (second % 3600 / 60) as i8;
    let second = (second % 60) as i8;
    let Ok(time) = Time::new(hour, minute, second, 0) else {
        unreachable!();
    };
    time
}

/// The text of a moment that is not after the last one.
fn stamp_text(alloc: Global, moment: u64) -> Result<Text, NoMemory>
    requires { moment ≤ last_moment }
    ensures { IfOk result (λ t. t ≡ stamp_text moment) }
{
    let date = date_of(moment / 86_400);
    let time = time_of(moment % 86_400);
    let civil = DateTime::from_parts(date, time);
    Ok(Text::from_string(format!(in alloc; "{civil}Z")?))
}

/// A moment, in seconds since 1970, as `YYYY-MM-DDThh:mm:ssZ`. One after the year 9999 is told as its last second.
#[tactic(auto, unfolding(crate::specs::Moments::moment_text))]
pub fn moment_text(alloc: Global, moment: u64) -> Result<Text, NoMemory>
    ensures { IfOk result (λ t. t ≡ moment_text moment) }
{
    stamp_text(alloc, moment.min(LAST_MOMENT))
}
