ghost use Rattle.std.specs.Prelude.{◌≡◌, ◌<◌, ◌≤◌, IfOk, IfErr, IfSome, IfNone, false, length, option_and_then};
ghost use Rattle.size_values.specs.Expiry.{expiry_of, is_unit};
ghost use Rattle.size_values.specs.ExpiryParts.{letter_of, amount_in, with_amount, with_part, IsPartAt, MissesPart};
ghost use Rattle.size_values.specs.ExpiryParts.{FollowsSpace, MissesSpace};

use crate::fault::{Stray, ValueFault};
use crate::number::Number;

/// The greatest number of a unit.
const MOST: u64 = 9_999;

/// How long a snapshot is kept, as `snapshots.expiry` of the Incus documentation's "Instance options" says it. A unit
/// that is not named has 0.
#[derive(Clone, Copy, PartialEq, Eq)]
pub struct Expiry {
    pub minutes: u32,
    pub hours: u32,
    pub days: u32,
    pub weeks: u32,
    pub months: u32,
    pub years: u32,
}

#[derive(Clone, Copy)]
pub enum Unit {
    Minutes,
    Hours,
    Days,
    Weeks,
    Months,
    Years,
}

/// A number and its unit in a text, and where they end.
#[derive(Clone, Copy)]
pub struct Part {
    pub end: usize,
    pub number: Number,
    pub unit: Unit,
}

/// The front of an expiry up to the end of a part: where it ends, and what it says, if all of it is fit.
#[derive(Clone, Copy)]
pub struct ExpiryFront {
    pub end: usize,
    pub expiry: Option<Expiry>,
}

/// Reads an expiry: numbers from 1 to 9,999, each with the letter of its unit, joined by one space, as `4w 2d`. The
/// letters are `M` for minutes, `H` for hours, `d` for days, `w` for weeks, `m` for months and `y` for years, and none
/// comes twice.
pub fn read_expiry(text: &str) -> Result<Expiry, ValueFault>
    ensures { result ≡ expiry_of text.now }
{
    expiry_in(text.as_bytes())
}

fn expiry_in(text: &[u8]) -> Result<Expiry, ValueFault>
    ensures { result ≡ expiry_of text.now }
{
    if text.is_empty() {
        return Err(ValueFault::Empty);
    }
    let first = part_at(text, 0)?;
    let mut front = ExpiryFront {
        end: first.end,
        expiry: Expiry::NONE.with_part(first),
    };
    while front.end < text.len() {
        let part = part_after_space(text, front.end)?;
        front = front.with_part(part);
    }
    front.expiry.ok_or(ValueFault::OutOfRange)
}

/// The part that follows a space at the place, or the place at which the text leaves that form.
fn part_after_space(text: &[u8], at: usize) -> Result<Part, Stray>
    requires { at < length text.now }
    ensures ok { IfOk result (FollowsSpace text.now at) }
    ensures err { IfErr result (λ stray. MissesSpace text.now at stray.place) }
{
    if text[at] != b' ' {
        return Err(Stray { place: at });
    }
    part_at(text, at + 1)
}

/// The part that begins at the place, or the place at which the text leaves that form.
fn part_at(text: &[u8], at: usize) -> Result<Part, Stray>
    requires { at ≤ length text.now }
    ensures ok { IfOk result (IsPartAt text.now at) }
    ensures err { IfErr result (λ stray. MissesPart text.now at stray.place) }
{
    let number = Number::at_front(&text[at..]);
    if number.len == 0 {
        return Err(Stray { place: at });
    }
    let place = at + number.len;
    if place == text.len() {
        return Err(Stray { place });
    }
    let Some(unit) = Unit::of(text[place]) else {
        return Err(Stray { place });
    };
    Ok(Part {
        end: place + 1,
        number,
        unit,
    })
}

impl Unit {
    /// `M` and `m` differ: minutes and months.
    fn of(letter: u8) -> Option<Unit>
        ensures some { IfSome result (λ unit. letter_of unit ≡ letter) }
        ensures none { IfNone result (is_unit letter ≡ false) }
    {
        match letter {
            b'M' => Some(Unit::Minutes),
            b'H' => Some(Unit::Hours),
            b'd' => Some(Unit::Days),
            b'w' => Some(Unit::Weeks),
            b'm' => Some(Unit::Months),
            b'y' => Some(Unit::Years),
            _ => None,
        }
    }
}

impl ExpiryFront {
    /// The front with one more part.
    fn with_part(self, part: Part) -> ExpiryFront
        ensures end { result.end ≡ part.end }
        ensures expiry { result.expiry ≡ option_and_then (with_part part) self.expiry }
    {
        ExpiryFront {
            end: part.end,
            expiry: self.expiry.and_then(|expiry| expiry.with_part(part)),
        }
    }
}

impl Expiry {
    const NONE: Expiry = Expiry {
        minutes: 0,
        hours: 0,
        days: 0,
        weeks: 0,
        months: 0,
        years: 0,
    };

    /// The same with one more part, if its number is fit and its unit is not named yet.
    fn with_part(self, part: Part) -> Option<Expiry>
        ensures { result ≡ with_part part self }
    {
        if !part.number.is_within(1, MOST) || self.amount(part.unit) != 0 {
            return None;
        }
        Some(self.with_amount(part.unit, part.number.value as u32))
    }

    fn amount(&self, unit: Unit) -> u32
        ensures { result ≡ amount_in unit self.now }
    {
        match unit {
            Unit::Minutes => self.minutes,
            Unit::Hours => self.hours,
            Unit::Days => self.days,
            Unit::Weeks => self.weeks,
            Unit::Months => self.months,
            Unit::Years => self.years,
        }
    }

    fn with_amount(self, unit: Unit, amount: u32) -> Expiry
        ensures { result ≡ with_amount unit amount self }
    {
        let mut expiry = self;
        match unit {
            Unit::Minutes => expiry.minutes = amount,
            Unit::Hours => expiry.hours = amount,
            Unit::Days => expiry.days = amount,
            Unit::Weeks => expiry.weeks = amount,
            Unit::Months => expiry.months = amount,
            Unit::Years => expiry.years = amount,
        }
        expiry
    }
}
