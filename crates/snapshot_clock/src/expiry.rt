ghost use Rattle.std.specs.Prelude.{◌≡◌, ◌<◌, ◌+◌, ◌*◌, ◌^◌};
ghost use Rattle.size_values.specs.Moments.{moment_limit};
ghost use Rattle.schedule_texts.specs.Expires.{expires_at, later_day, seconds_in, months_in};
ghost use Rattle.snapshot_clock.specs.Days.{day_limit, if_day};

use crate::days::{DAY, date_of, day_of};
use jiff::ToSpan;
use size_values::{Expiry, MOMENT_LIMIT};

/// The months from 1970 on after which no year is left.
const MOST_MONTHS: u64 = 12 * 9_999;

/// The moment at which what was made at a moment expires: first the months and years by the calendar, with the last
/// day of the month where the day is missing, and then the rest. None where that is after the year 9999.
pub fn expires_at(created: u64, expiry: &Expiry) -> Option<u64>
    requires { created < moment_limit }
    ensures { result ≡ expires_at created expiry.now }
{
    let Some(day) = later_day(created / DAY, months_in(expiry)) else {
        return None;
    };
    let end = day * DAY + created % DAY + seconds_in(expiry);
    if end < MOMENT_LIMIT { Some(end) } else { None }
}

/// The months and years of an expiry, in months.
fn months_in(expiry: &Expiry) -> u64
    ensures { result ≡ months_in expiry.now }
{
    12 * u64::from(expiry.years) + u64::from(expiry.months)
}

/// The weeks, days, hours and minutes of an expiry, in seconds.
fn seconds_in(expiry: &Expiry) -> u64
    ensures seconds { result ≡ seconds_in expiry.now }
    ensures bound { result < 2 ^ 53 }
{
    604_800 * u64::from(expiry.weeks)
        + 86_400 * u64::from(expiry.days)
        + 3_600 * u64::from(expiry.hours)
        + 60 * u64::from(expiry.minutes)
}

/// The day so many months after a day, or none after the year 9999.
fn later_day(day: u64, months: u64) -> Option<u64>
    requires { day < day_limit }
    ensures { result ≡ if_day (later_day months day) }
{
    if months > MOST_MONTHS {
        return None;
    }
    let Ok(date) = date_of(day).checked_add((months as i64).months()) else {
        return None;
    };
    Some(day_of(date))
}
