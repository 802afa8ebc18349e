ghost use Rattle.std.specs.Prelude.{◌≡◌, ◌+◌, ◌<◌, ◌≤◌, ◌^◌, true, IfOk, IfSome, length};
ghost use Rattle.std.specs.List.{list_all};
ghost use Rattle.std.specs.Option.{option_copied, option_and_then};
ghost use Rattle.std.specs.Char.{is_ascii_digit};
ghost use Rattle.std.specs.Str.Parse.{digits_value};
ghost use Rattle.instance_states.specs.Numbers.{unseen, is_number, number_of, text_between, greater_number, seen};
ghost use Rattle.instance_states.specs.Numbers.{next_name};

use size_values::{NoMemory, Text};
use std::alloc::Global;
use std::marker::Model;

/// Finds the next number in the names of an instance's snapshots. A name is of the pattern where one to nine
/// digits without a leading zero stand in place of its first `%d`, or after all of it where it has none.
#[derive(Drop)]
pub struct SnapshotNumbers<'a> {
    before: &'a str,
    after: &'a str,
    greatest: Option<u32>,
}

impl<'a> Model for SnapshotNumbers<'a> {
    ghost use Rattle.std.specs.Prelude.{◌<◌, ◌^◌, IfSome};
    ghost use Rattle.instance_states.specs.Numbers.{Numbering};

    ghost Value = { Numbering };

    ghost view = { λ s. record { before = s.before.now; after = s.after.now; greatest = s.greatest } };

    ghost invariant = { λ s. IfSome s.greatest (λ n. n < 10 ^ 9) };
}

impl<'a> SnapshotNumbers<'a> {
    /// No name was seen yet.
    pub fn new(pattern: &'a str) -> SnapshotNumbers<'a>
        ensures { result ≡ unseen pattern.now }
    {
        match pattern.split_once("%d") {
            Some((before, after)) => SnapshotNumbers {
                before,
                after,
                greatest: None,
            },
            None => SnapshotNumbers {
                before: pattern,
                after: "",
                greatest: None,
            },
        }
    }

    /// Sees the name of a snapshot that is there.
    pub fn see(&mut self, name: &str)
        ensures { self.new ≡ seen name.now self.old }
    {
        let number = number_in(
            self.before.as_bytes(),
            self.after.as_bytes(),
            name.as_bytes(),
        );
        self.greatest = greater_number(self.greatest, number);
    }

    /// The name with the next number: one more than the greatest that was seen, or 0.
    pub fn next(&self, alloc: Global) -> Result<Text, NoMemory>
        ensures { IfOk result (λ t. t ≡ next_name self.now) }
    {
        let number = match self.greatest {
            Some(greatest) => greatest + 1,
            None => 0,
        };
        let digits = number.to_string(alloc)?;
        let mut name = String::from_str(alloc, self.before)?;
        name.push_str(&digits)?;
        name.push_str(self.after)?;
        Ok(Text::from_string(name))
    }
}

/// The greater of two numbers, if there are any.
fn greater_number(a: Option<u32>, b: Option<u32>) -> Option<u32>
    ensures { result ≡ greater_number a b }
{
    match (a, b) {
        (Some(m), Some(n)) => Some(m.max(n)),
        (Some(m), None) => Some(m),
        (None, n) => n,
    }
}

/// The number of a name, where the name is of the pattern.
fn number_in(before: &[u8], after: &[u8], name: &[u8]) -> Option<u32>
    ensures number { result ≡ option_and_then number_of (text_between before.now after.now name.now) }
    ensures small { IfSome result (λ n. n < 10 ^ 9) }
{
    match text_between(before, after, name) {
        Some(digits) => number_of(digits),
        None => None,
    }
}

/// The part of a name between the text before and the text after.
fn text_between<'x>(before: &[u8], after: &[u8], name: &'x [u8]) -> Option<&'x [u8]>
    requires { length before.now + length after.now < 2 ^ 64 }
    ensures { option_copied result ≡ text_between before.now after.now name.now }
{
    if before.len() + after.len() > name.len() {
        return None;
    }
    if !name.starts_with(before) || !name.ends_with(after) {
        return None;
    }
    Some(&name[before.len()..name.len() - after.len()])
}

/// The number that one to nine digits write without a leading zero.
fn number_of(digits: &[u8]) -> Option<u32>
    ensures number { result ≡ number_of digits.now }
    ensures small { IfSome result (λ n. n < 10 ^ 9) }
{
    if is_number(digits) {
        Some(value_of(digits))
    } else {
        None
    }
}

/// Whether these are one to nine digits without a leading zero.
fn is_number(digits: &[u8]) -> bool
    ensures { result ≡ is_number digits.now }
{
    if digits.is_empty() || digits.len() > 9 || !are_digits(digits) {
        return false;
    }
    digits.len() == 1 || digits[0] != b'0'
}

fn are_digits(bytes: &[u8]) -> bool
    ensures { result ≡ list_all is_ascii_digit bytes.now }
{
    bytes.iter().all(|byte| byte.is_ascii_digit())
}

/// The number that digits write.
fn value_of(digits: &[u8]) -> u32
    requires few { length digits.now ≤ 9 }
    requires digits { list_all is_ascii_digit digits.now ≡ true }
    ensures number { result ≡ digits_value 10 digits.now }
    ensures small { result < 10 ^ 9 }
{
    let mut value = 0u32;
    for byte in digits {
        value = value * 10 + u32::from(*byte - b'0');
    }
    value
}
