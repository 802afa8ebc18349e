ghost use Rattle.std.specs.Prelude.{◌≡◌, ◌≤◌, IfOk};
ghost use Rattle.size_values.specs.Count.{count_of};
ghost use Rattle.size_values.specs.Number.{number_at};

use crate::fault::ValueFault;
use crate::number::Number;

/// Reads a count: decimal digits alone, at most twenty, whose number is from `least` to `most` and below 2^63.
pub fn read_count(text: &str, least: u64, most: u64) -> Result<u64, ValueFault>
    ensures { result ≡ count_of text.now least most }
{
    count_in(text.as_bytes(), least, most)
}

/// The same of the bytes of a text.
pub fn count_in(text: &[u8], least: u64, most: u64) -> Result<u64, ValueFault>
    ensures count { result ≡ count_of text.now least most }
    ensures within { IfOk result (λ n. (least ≤ n) × (n ≤ most)) }
{
    count_from_number(text, Number::at_front(text), least, most)
}

/// The same of the bytes of a text and of the number at their front.
pub fn count_from_number(
    text: &[u8],
    number: Number,
    least: u64,
    most: u64,
) -> Result<u64, ValueFault>
    requires { number ≡ number_at text.now }
    ensures count { result ≡ count_of text.now least most }
    ensures within { IfOk result (λ n. (least ≤ n) × (n ≤ most)) }
{
    if text.is_empty() {
        return Err(ValueFault::Empty);
    }
    if number.len < text.len() {
        return Err(ValueFault::BadByte(number.len as u64));
    }
    if number.is_too_large() {
        return Err(ValueFault::TooLarge);
    }
    if !number.is_within(least, most) {
        return Err(ValueFault::OutOfRange);
    }
    Ok(number.value)
}
