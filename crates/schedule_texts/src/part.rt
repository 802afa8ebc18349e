ghost use Rattle.std.specs.Prelude.{◌≡◌, ◌<◌, ◌≤◌, IfSome};
ghost use Rattle.schedule_texts.specs.Parts.{number_of, range_of, part_of, part_limit, IsFitPart};

use crate::cuts::cut;

/// The greatest step.
const GREATEST_STEP: u8 = 59;

/// A part of a field: the numbers from `low` on, up to `high`, each `step` after the one before it.
#[derive(Clone, Copy)]
pub struct Part {
    pub low: u8,
    pub high: u8,
    pub step: u8,
}

impl Part {
    /// Reads a part of a field whose numbers are from `least` to `most`: `*`, a number, or two numbers with a dash
    /// between them, of which the first is not above the second; a step may follow behind a slash, but for one number.
    #[tactic(auto, unfolding(crate::specs::Parts::part_of))]
    pub fn read(text: &str, least: u8, most: u8) -> Option<Part>
        requires { most < part_limit }
        ensures part { result ≡ part_of least most text.now }
        ensures fit { IfSome result IsFitPart }
    {
        if let Some((range, step)) = cut(text, '/') {
            let part = Part::range(range, least, most)?;
            let step = number_in(step, 1, GREATEST_STEP)?;
            return Some(Part { step, ..part });
        }
        if let Some(part) = Part::range(text, least, most) {
            return Some(part);
        }
        let number = number_in(text, least, most)?;
        Some(Part {
            low: number,
            high: number,
            step: 1,
        })
    }

    /// Reads `*` or a range of numbers.
    #[tactic(auto, unfolding(crate::specs::Parts::range_of))]
    fn range(text: &str, least: u8, most: u8) -> Option<Part>
        requires { most < part_limit }
        ensures range { result ≡ range_of least most text.now }
        ensures fit { IfSome result IsFitPart }
    {
        if text == "*" {
            return Some(Part {
                low: least,
                high: most,
                step: 1,
            });
        }
        let (low, high) = cut(text, '-')?;
        let low = number_in(low, least, most)?;
        let high = number_in(high, least, most)?;
        if high < low {
            return None;
        }
        Some(Part { low, high, step: 1 })
    }
}

/// Reads a number from `least` to `most` of decimal digits; zeros may come first.
#[tactic(auto, unfolding(crate::specs::Parts::number_of))]
fn number_in(text: &str, least: u8, most: u8) -> Option<u8>
    requires { most < part_limit }
    ensures number { result ≡ number_of least most text.now }
    ensures within { IfSome result (λ number. (least ≤ number) × (number ≤ most)) }
{
    let digits = text.as_bytes();
    if digits.is_empty() {
        return None;
    }
    let mut value: u8 = 0;
    for digit in digits {
        if !digit.is_ascii_digit() {
            return None;
        }
        value = value.saturating_mul(10).saturating_add(*digit - b'0');
    }
    if least <= value && value <= most {
        Some(value)
    } else {
        None
    }
}
