//! Schedules by chance, beside what a plain reckoning says of them.
ghost use Rattle.std.specs.Prelude.{◌<◌, ◌≤◌};

use schedule_texts::read_schedule;
use snapshot_clock::matches;
use std::alloc::{AllocError, Global};

/// The minutes before the year 10000.
const MINUTES: u64 = 4_223_371_680;

/// Numbers by chance.
#[derive(Drop)]
struct Chance {
    state: u64,
}

impl Chance {
    /// A number below the limit.
    fn below(&mut self, limit: u64) -> u64
        requires { 0 < limit }
        ensures { result < limit }
    {
        self.state = self
            .state
            .wrapping_mul(6_364_136_223_846_793_005)
            .wrapping_add(1_442_695_040_888_963_407);
        (self.state >> 33) % limit
    }
}

/// What five fields say: one bit for each number, and whether a day field is `*`.
#[derive(Clone, Copy)]
struct Said {
    minutes: u64,
    hours: u64,
    days: u64,
    months: u64,
    weekdays: u64,
    any_day: bool,
}

#[test]
fn a_thousand_schedules_by_chance(rt: HostRuntime) {
    for seed in 0..1_000u64 {
        assert!(rt; agrees(rt.alloc(), seed).unwrap_or(false), "{seed}");
    }
}

/// Whether a schedule by chance is due when it should be, at 300 moments by chance.
fn agrees(alloc: Global, seed: u64) -> Result<bool, AllocError> {
    let mut chance = Chance { state: seed };
    let mut text = String::new(alloc);
    let said = push_fields(alloc, &mut text, &mut chance)?;
    Ok(is_as_said(&text, &said, &mut chance))
}

fn is_as_said(text: &str, said: &Said, chance: &mut Chance) -> bool {
    let Ok(schedule) = read_schedule(text) else {
        return false;
    };
    for _ in 0..300 {
        let minute = chance.below(MINUTES);
        if matches(&schedule, minute * 60) != said.is_due(minute) {
            return false;
        }
    }
    true
}

impl Said {
    /// Whether the minute, counted from 1970 on, is one that was said.
    fn is_due(&self, minute: u64) -> bool {
        let day = minute / 1_440;
        let (month, day_of_month) = month_and_day(day);
        let is_day = has(self.days, day_of_month);
        let is_weekday = has(self.weekdays, day.wrapping_add(4) % 7);
        has(self.minutes, minute % 60)
            && has(self.hours, minute / 60 % 24)
            && has(self.months, month)
            && if self.any_day {
                is_day && is_weekday
            } else {
                is_day || is_weekday
            }
    }
}

/// The month and the day of the month, by eras of 400 years from March of the year 0 on.
fn month_and_day(day: u64) -> (u64, u64) {
    let of_era = day.wrapping_add(719_468) % 146_097;
    let year = of_era
        .wrapping_sub(of_era / 1_460)
        .wrapping_add(of_era / 36_524)
        .wrapping_sub(of_era / 146_096)
        / 365;
    let before = year
        .wrapping_mul(365)
        .wrapping_add(year / 4)
        .wrapping_sub(year / 100);
    let of_year = of_era.wrapping_sub(before);
    let month = of_year.wrapping_mul(5).wrapping_add(2) / 153;
    let first = month.wrapping_mul(153).wrapping_add(2) / 5;
    (
        month.wrapping_add(2) % 12 + 1,
        of_year.wrapping_sub(first).wrapping_add(1),
    )
}

fn has(bits: u64, number: u64) -> bool {
    number < 64 && (bits >> number) & 1 == 1
}

fn push_fields(alloc: Global, text: &mut String, chance: &mut Chance) -> Result<Said, AllocError> {
    let (minutes, _) = push_field(alloc, text, chance, 0, 59)?;
    text.push(' ')?;
    let (hours, _) = push_field(alloc, text, chance, 0, 23)?;
    text.push(' ')?;
    let (days, any_day) = push_field(alloc, text, chance, 1, 31)?;
    text.push(' ')?;
    let (months, _) = push_field(alloc, text, chance, 1, 12)?;
    text.push(' ')?;
    let (weekdays, any_weekday) = push_field(alloc, text, chance, 0, 6)?;
    Ok(Said {
        minutes,
        hours,
        days,
        months,
        weekdays,
        any_day: any_day || any_weekday,
    })
}

/// Writes one to three parts: the numbers that they name, and whether they are one star alone.
fn push_field(
    alloc: Global,
    text: &mut String,
    chance: &mut Chance,
    least: u64,
    most: u64,
) -> Result<(u64, bool), AllocError>
    requires low { least ≤ most }
    requires high { most < 60 }
{
    let more = chance.below(3);
    let (mut bits, is_star) = push_part(alloc, text, chance, least, most)?;
    for _ in 0..more {
        text.push(',')?;
        let (part, _) = push_part(alloc, text, chance, least, most)?;
        bits |= part;
    }
    Ok((bits, is_star && more == 0))
}

/// Writes one part: the numbers that it names, and whether it is a star.
fn push_part(
    alloc: Global,
    text: &mut String,
    chance: &mut Chance,
    least: u64,
    most: u64,
) -> Result<(u64, bool), AllocError>
    requires low { least ≤ most }
    requires high { most < 60 }
{
    let low = least + chance.below(most - least + 1);
    let high = low + chance.below(most - low + 1);
    let step = 1 + chance.below(59);
    match chance.below(5) {
        0 => {
            text.push('*')?;
            Ok((bits_of(least, most, 1), true))
        }
        1 => {
            push_number(alloc, text, low)?;
            Ok((bits_of(low, low, 1), false))
        }
        2 => {
            push_range(alloc, text, low, high)?;
            Ok((bits_of(low, high, 1), false))
        }
        3 => {
            text.push_str("*/")?;
            push_number(alloc, text, step)?;
            Ok((bits_of(least, most, step), false))
        }
        _ => {
            push_range(alloc, text, low, high)?;
            text.push('/')?;
            push_number(alloc, text, step)?;
            Ok((bits_of(low, high, step), false))
        }
    }
}

fn push_range(alloc: Global, text: &mut String, low: u64, high: u64) -> Result<(), AllocError> {
    push_number(alloc, text, low)?;
    text.push('-')?;
    push_number(alloc, text, high)
}

fn push_number(alloc: Global, text: &mut String, number: u64) -> Result<(), AllocError> {
    let digits = format!(in alloc; "{number}")?;
    text.push_str(&digits)
}

/// Each `step`-th number from `low` to `high`.
fn bits_of(low: u64, high: u64, step: u64) -> u64
    requires { 0 < step }
{
    let mut bits = 0;
    for number in 0..60u64 {
        if low <= number && number <= high && (number - low) % step == 0 {
            bits |= 1 << number;
        }
    }
    bits
}
