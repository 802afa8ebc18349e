ghost use Rattle.std.specs.Prelude.{◌≡◌, ◌<◌, ◌≤ℤ◌, pos};
ghost use Rattle.jiff.specs.Words.{epoch_day};
ghost use Rattle.snapshot_clock.specs.Days.{day_limit};

use jiff::ToSpan;
use jiff::civil::Date;

/// The seconds of a day.
pub const DAY: u64 = 86_400;

/// The first of January 1970, which is day 0.
fn first_date() -> Date
    ensures { epoch_day result ≡ pos 0 }
{
    let Ok(date) = Date::new(1970, 1, 1) else {
        unreachable!();
    };
    date
}

/// The date of a day, which is counted from 1970 on.
pub fn date_of(day: u64) -> Date
    requires { day < day_limit }
    ensures { epoch_day result ≡ pos day }
{
    let Ok(date) = first_date().checked_add((day as i64).days()) else {
        unreachable!();
    };
    date
}

/// The day of a date that is not before 1970.
pub fn day_of(date: Date) -> u64
    requires { pos 0 ≤ℤ epoch_day date }
    ensures { pos result ≡ epoch_day date }
{
    let passed = first_date().duration_until(date);
    passed.as_secs() as u64 / DAY
}
