ghost use Rattle.std.specs.Prelude.{◌≡◌, ◌≤◌, ◌^◌, true, IfSome, IfNone};
ghost use Rattle.std.specs.Char.{is_ascii_digit};
ghost use Rattle.std.specs.List.{list_all};
ghost use Rattle.std.specs.Str.Parse.{digits_value};
ghost use Rattle.command_words.specs.Numbers.{is_numeral, leads_with_zero, number_said};

/// The greatest number of digits that a number may have: those of 2^64 - 1.
const MOST_DIGITS: usize = 20;

fn are_digits(text: &[u8]) -> bool
    ensures { result ≡ list_all is_ascii_digit text.now }
{
    text.iter().all(|b| b.is_ascii_digit())
}

/// Whether a zero stands before another byte.
fn leads_with_zero(text: &[u8]) -> bool
    ensures { result ≡ leads_with_zero text.now }
{
    match text {
        [] => false,
        [_] => false,
        [first, _, ..] => *first == b'0',
    }
}

/// Whether a text is digits alone, one to twenty of them, with no zero before another one.
fn is_numeral(text: &str) -> bool
    ensures { result ≡ is_numeral text.now }
{
    let bytes = text.as_bytes();
    !text.is_empty() && text.len() <= MOST_DIGITS && !leads_with_zero(bytes) && are_digits(bytes)
}

/// The number that digits write, where 64 bits hold it.
fn parsed(text: &str) -> Option<u64>
    requires { is_numeral text.now ≡ true }
    ensures some { IfSome result (λ number. number ≡ digits_value 10 text.now) }
    ensures none { IfNone result (2 ^ 64 ≤ digits_value 10 text.now) }
{
    match text.parse::<u64>() {
        Ok(number) => Some(number),
        Err(_) => None,
    }
}

/// The number from `least` to `most` that a text says: digits without a sign, and without a zero before another
/// digit.
pub fn number_said(least: u64, most: u64, text: &str) -> Option<u64>
    ensures said { result ≡ number_said least most text.now }
    ensures within { IfSome result (λ number. (least ≤ number) × (number ≤ most)) }
{
    if !is_numeral(text) {
        return None;
    }
    match parsed(text) {
        Some(number) => {
            if least <= number && number <= most {
                Some(number)
            } else {
                None
            }
        }
        None => None,
    }
}
