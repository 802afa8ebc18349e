//! In which minutes a schedule is due.
use schedule_texts::{CivilMinute, Schedule, read_schedule};
use snapshot_clock::matches;

/// The first of January 2024.
const START_OF_2024: u64 = 1_704_067_200;

/// The minutes of 2024.
const MINUTES_OF_2024: u64 = 527_040;

/// A schedule, and in how many minutes of 2024 it is due.
const COUNTS: &[(&str, u64)] = &[
    ("0 6 * * *", 366),
    ("*/15 * * * *", 35_136),
    ("0 0 31 * *", 7),
    ("0 0 29 2 *", 1),
    ("0 0 1 * 1", 62),
    ("0 0 13 * 5", 62),
    ("0 0 */2 * 1", 213),
    ("5-10/5,30 0-23/12 * 2 *", 174),
    ("@weekly", 52),
    ("@hourly,@daily", 8_784),
    ("@monthly, @yearly", 12),
];

/// A schedule, a moment, and whether it is due then.
const MOMENTS: &[(&str, u64, bool)] = &[
    ("* * * * *", 0, true),
    ("* * * * *", 1, false),
    ("* * * * *", 59, false),
    ("* * * * *", 60, true),
    ("* * * * 4", 0, true),
    ("* * * * 3", 0, false),
    ("59 23 31 12 5", 253_402_300_740, true),
    ("59 23 31 12 5", 253_402_300_741, false),
    ("0 0 29 2 *", 951_782_400, true),
    ("0 0 29 2 *", 4_107_542_400, false),
    ("0 0 1 3 *", 4_107_542_400, true),
    ("@yearly", 1_704_067_200, true),
    ("@yearly", 1_706_745_600, false),
    ("@monthly", 1_706_745_600, true),
    ("@weekly", 1_704_585_600, true),
    ("@weekly", 1_704_067_200, false),
    ("@hourly", 1_704_070_800, true),
    ("@midnight", 1_704_070_800, false),
];

#[test]
fn the_minutes_of_a_leap_year(rt: HostRuntime) {
    for (text, count) in COUNTS {
        assert!(rt; count_of_2024(text) == *count, "{text}");
    }
}

#[test]
fn single_moments(rt: HostRuntime) {
    for (text, moment, is_due) in MOMENTS {
        assert!(rt; is_due_at(text, *moment) == *is_due, "{text}: {moment}");
    }
}

#[test]
fn a_minute_without_its_year(rt: HostRuntime) {
    assert!(rt; fits("30 6 * * 1-5", minute(30, 6, 13, 5)));
    assert!(rt; !fits("30 6 * * 1-5", minute(30, 6, 13, 0)));
    assert!(rt; fits("30 6 13 * 1-4", minute(30, 6, 13, 5)));
    assert!(rt; !fits("30 6 13 * *", minute(30, 6, 255, 5)));
}

fn count_of_2024(text: &str) -> u64 {
    let Ok(schedule) = read_schedule(text) else {
        return 0;
    };
    let mut count: u64 = 0;
    for place in 0..MINUTES_OF_2024 {
        if matches(&schedule, START_OF_2024 + place * 60) {
            count = count.saturating_add(1);
        }
    }
    count
}

fn is_due_at(text: &str, moment: u64) -> bool {
    match read_schedule(text) {
        Ok(schedule) => moment < size_values::MOMENT_LIMIT && matches(&schedule, moment),
        Err(_) => false,
    }
}

fn minute(minute: u8, hour: u8, day: u8, weekday: u8) -> CivilMinute {
    CivilMinute {
        minute,
        hour,
        day,
        month: 9,
        weekday,
    }
}

fn fits(text: &str, at: CivilMinute) -> bool {
    match read_schedule(text) {
        Ok(Schedule::Fields(fields)) => fields.fits(&at),
        Ok(Schedule::Aliases(aliases)) => aliases.fits(&at),
        Err(_) => false,
    }
}
