ghost use Rattle.std.specs.Prelude.{◌≡◌, ◌≢◌, ◌<◌, ◌∷◌, [], length, IfSome, IfNone};
ghost use Rattle.std.specs.List.{slice_split};
ghost use Rattle.schedule_texts.specs.Parts.{part_limit};
ghost use Rattle.schedule_texts.specs.Signs.{is_space};
ghost use Rattle.schedule_texts.specs.Matches.{fits_fields, fits_day};
ghost use Rattle.schedule_texts.specs.Fields.{field_of, fields_of};

use crate::cuts::cut;
use crate::minute::CivilMinute;
use crate::numbers::NumberSet;
use crate::part::Part;

/// The five fields of a schedule: the numbers that each names, and of the two fields for days whether the text is `*`.
#[derive(Clone, Copy)]
pub struct FieldSets {
    pub minutes: NumberSet,
    pub hours: NumberSet,
    pub days: NumberSet,
    pub months: NumberSet,
    /// From 0 for Sunday.
    pub weekdays: NumberSet,
    pub any_day: bool,
    pub any_weekday: bool,
}

/// The texts of five fields.
#[derive(Clone, Copy)]
pub struct FieldTexts<'a> {
    pub minutes: &'a str,
    pub hours: &'a str,
    pub days: &'a str,
    pub months: &'a str,
    pub weekdays: &'a str,
}

impl<'a> FieldTexts<'a> {
    /// Cuts a text into five at single spaces.
    fn cut(text: &'a str) -> Option<FieldTexts<'a>>
        ensures some { IfSome result (λ texts. slice_split is_space text.now ≡ texts.minutes.now ∷ texts.hours.now
            ∷ texts.days.now ∷ texts.months.now ∷ texts.weekdays.now ∷ []) }
        ensures none { IfNone result (length (slice_split is_space text.now) ≢ 5) }
    {
        let (minutes, rest) = cut(text, ' ')?;
        let (hours, rest) = cut(rest, ' ')?;
        let (days, rest) = cut(rest, ' ')?;
        let (months, weekdays) = cut(rest, ' ')?;
        match cut(weekdays, ' ') {
            Some(_) => None,
            None => Some(FieldTexts {
                minutes,
                hours,
                days,
                months,
                weekdays,
            }),
        }
    }
}

impl FieldSets {
    /// Reads five fields with one space between them: minute, hour, day, month and weekday.
    #[tactic(auto, unfolding(crate::specs::Fields::fields_of))]
    pub(crate) fn read(text: &str) -> Option<FieldSets>
        ensures { result ≡ fields_of text.now }
    {
        let texts = FieldTexts::cut(text)?;
        Some(FieldSets {
            minutes: numbers_in(texts.minutes, 0, 59)?,
            hours: numbers_in(texts.hours, 0, 23)?,
            days: numbers_in(texts.days, 1, 31)?,
            months: numbers_in(texts.months, 1, 12)?,
            weekdays: numbers_in(texts.weekdays, 0, 6)?,
            any_day: texts.days == "*",
            any_weekday: texts.weekdays == "*",
        })
    }

    /// Whether a minute is in the fields.
    pub fn fits(&self, at: &CivilMinute) -> bool
        ensures { result ≡ fits_fields self.now at.now }
    {
        self.minutes.has(at.minute)
            && self.hours.has(at.hour)
            && self.months.has(at.month)
            && self.fits_day(at)
    }

    /// The day is in both day fields; where neither of them is `*` it is enough that it is in one.
    fn fits_day(&self, at: &CivilMinute) -> bool
        ensures { result ≡ fits_day self.now at.now }
    {
        let in_days = self.days.has(at.day);
        let in_weekdays = self.weekdays.has(at.weekday);
        if self.any_day || self.any_weekday {
            in_days && in_weekdays
        } else {
            in_days || in_weekdays
        }
    }
}

/// Reads a field whose numbers are from `least` to `most`: parts with a comma between them.
#[tactic(auto, unfolding(crate::specs::Fields::field_of))]
fn numbers_in(text: &str, least: u8, most: u8) -> Option<NumberSet>
    requires { most < part_limit }
    ensures { result ≡ field_of least most text.now }
{
    let mut numbers = NumberSet::empty();
    for part in text.split(',') {
        numbers = numbers.with_part(Part::read(part, least, most)?);
    }
    Some(numbers)
}
