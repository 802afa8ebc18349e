ghost use Rattle.std.specs.Prelude.{◌≡◌, ◌<◌, ◌≤◌, ◌==◌, ◌&&◌, ◌||◌, ℕ};
ghost use Rattle.schedule_texts.specs.Numbers.{has, empty_set};
ghost use Rattle.schedule_texts.specs.Parts.{part_has, IsFitPart};

use crate::part::Part;

/// The numbers that a field names, one bit for each: bit 6 is 1 where 6 is among them.
#[derive(Clone, Copy)]
pub struct NumberSet {
    pub bits: u64,
}

impl NumberSet {
    /// No number.
    pub fn empty() -> NumberSet
        ensures { result ≡ empty_set }
    {
        NumberSet { bits: 0 }
    }

    /// Whether the number is in the set.
    pub fn has(&self, number: u8) -> bool
        ensures { result ≡ has self.now number }
    {
        let bits = self.bits;
        number < 64 && (bits >> number) & 1 == 1
    }

    /// The same with one more number.
    fn with(self, number: u8) -> NumberSet
        requires { number < 64 }
        ensures { (n : ℕ) → has result n ≡ (has self n || n == number) }
    {
        NumberSet {
            bits: self.bits | 1 << number,
        }
    }

    /// The same with a number from the lowest to the highest of a part, if it is one of the part.
    fn with_number_of(self, part: Part, number: u8) -> NumberSet
        requires low { part.low ≤ number }
        requires high { number ≤ part.high }
        requires fit { IsFitPart part }
        ensures { (n : ℕ) → has result n ≡ (has self n || (n == number && part_has n part)) }
    {
        if (number - part.low) % part.step == 0 {
            self.with(number)
        } else {
            self
        }
    }

    /// The same with the numbers of a part.
    pub(crate) fn with_part(self, part: Part) -> NumberSet
        requires { IsFitPart part }
        ensures { (n : ℕ) → has result n ≡ (has self n || part_has n part) }
    {
        let mut numbers = self;
        for number in part.low..=part.high {
            numbers = numbers.with_number_of(part, number);
        }
        numbers
    }
}
