//! Laws: functions that do nothing, whose contracts are the laws.
ghost use Rattle.std.specs.Prelude.{◌≡◌, ◌<◌, ℕ, List, map, Some, true, false};
ghost use Rattle.schedule_texts.specs.Expires.{expires_at};
ghost use Rattle.schedule_texts.specs.Worked.{after_months_and_days, is_due_on};
ghost use Rattle.std.specs.List.{slice_split, list_any};
ghost use Rattle.schedule_texts.specs.declared.numbers.NumberSet.{NumberSet as SetValue};
ghost use Rattle.schedule_texts.specs.Signs.{is_comma};
ghost use Rattle.schedule_texts.specs.Numbers.{has};
ghost use Rattle.schedule_texts.specs.Parts.{part_of, is_named};
ghost use Rattle.schedule_texts.specs.Fields.{field_of};
ghost use Rattle.schedule_texts.specs.Calendar.{Date, IsDate, day_of, date_of};

/// The date of a day is one of the calendar and has that day, and each date of the calendar is the one of its day.
pub fn days_have_dates()
    ensures dates { (day : ℕ) → IsDate (date_of day) }
    ensures days { (day : ℕ) → day_of (date_of day) ≡ day }
    ensures back { (date : Date) → IsDate date → date_of (day_of date) ≡ date }
{}

/// The set that is read of a field has exactly the numbers that a part of its text names.
pub fn fields_have_the_numbers_of_their_parts()
    ensures { (least most : ℕ) (text : List ℕ) (set : SetValue) → field_of least most text ≡ Some set
        → (n : ℕ) → n < 60
        → has set n ≡ list_any (is_named n) (map (part_of least most) (slice_split is_comma text)) }
{}

/// Examples: a month after 31 January 2024, and a day more; and midnights at which `0 0 13 * 1` is due.
pub fn dates_by_example()
    ensures month { expires_at 1706659200 (after_months_and_days 1 0) ≡ Some 1709164800 }
    ensures day { expires_at 1706659200 (after_months_and_days 1 1) ≡ Some 1709251200 }
    ensures monday { is_due_on 1726444800 ≡ true }
    ensures friday_13 { is_due_on 1726185600 ≡ true }
    ensures saturday { is_due_on 1726272000 ≡ false }
{}
