ghost use Rattle.std.specs.Prelude.{◌≡◌, ◌<◌, IfOk, IfErr, length};
ghost use Rattle.size_values.specs.Cpu.{cpu_of, set_of};
ghost use Rattle.size_values.specs.Number.{number_at};
ghost use Rattle.size_values.specs.Set.{BeginsSet, ContinuesSet, BreaksSet};

use crate::count::count_from_number;
use crate::fault::{Stray, ValueFault};
use crate::number::Number;

/// The greatest count of processors, and the greatest number of one.
const MOST: u64 = 1_000_000;

/// The processors that an instance may use, as `limits.cpu` of the Incus documentation's "Instance options" says it.
#[derive(Clone, Copy, PartialEq, Eq)]
pub enum Cpu {
    /// Any so many processors, from 1 to 1,000,000.
    Count(u32),
    /// The processors of a set.
    Pinned,
}

/// The front of a set up to the end of a number, as far as it has been read.
#[derive(Clone, Copy)]
pub struct SetFront {
    pub end: usize,
    /// The last number, which stops at 2^64 - 1.
    pub last: u64,
    /// Whether the last number is the second of a range.
    pub in_range: bool,
    pub too_large: bool,
    /// Whether a number is above the greatest one, or a range falls.
    pub unfit: bool,
}

/// Reads a CPU setting: digits alone are a count from 1 to 1,000,000; any other text is a set, of numbers up to
/// 1,000,000 and of rising ranges such as `0-3`, joined by commas.
pub fn read_cpu(text: &str) -> Result<Cpu, ValueFault>
    ensures { result ≡ cpu_of text.now }
{
    cpu_in(text.as_bytes())
}

fn cpu_in(text: &[u8]) -> Result<Cpu, ValueFault>
    ensures { result ≡ cpu_of text.now }
{
    let number = Number::at_front(text);
    if number.len < text.len() {
        return set_in(text, number);
    }
    let count = count_from_number(text, number, 1, MOST)?;
    Ok(Cpu::Count(count as u32))
}

/// A set, and the number at its front.
fn set_in(text: &[u8], number: Number) -> Result<Cpu, ValueFault>
    requires { number ≡ number_at text.now }
    ensures { result ≡ set_of text.now }
{
    let mut front = SetFront::from_first(number)?;
    while front.end < text.len() {
        front = front.next(text)?;
    }
    if front.too_large {
        return Err(ValueFault::TooLarge);
    }
    if front.unfit {
        return Err(ValueFault::OutOfRange);
    }
    Ok(Cpu::Pinned)
}

impl SetFront {
    /// The first number of a set.
    fn from_first(number: Number) -> Result<SetFront, Stray>
        ensures ok { IfOk result (BeginsSet number) }
        ensures err { IfErr result (λ stray. (number.len ≡ 0) × (stray.place ≡ 0)) }
    {
        if number.len == 0 {
            return Err(Stray { place: 0 });
        }
        Ok(SetFront {
            end: number.len,
            last: number.value,
            in_range: false,
            too_large: number.is_too_large(),
            unfit: number.value > MOST,
        })
    }

    /// The next sign and number of a set.
    fn next(&self, text: &[u8]) -> Result<SetFront, Stray>
        requires { self.now.end < length text.now }
        ensures ok { IfOk result (ContinuesSet text.now self.now) }
        ensures err { IfErr result (λ stray. BreaksSet text.now self.now stray.place) }
    {
        let in_range = text[self.end] == b'-';
        let is_comma = text[self.end] == b',';
        if !is_comma && (!in_range || self.in_range) {
            return Err(Stray { place: self.end });
        }
        let start = self.end + 1;
        let number = Number::at_front(&text[start..]);
        if number.len == 0 {
            return Err(Stray { place: start });
        }
        Ok(SetFront {
            end: start + number.len,
            last: number.value,
            in_range,
            too_large: self.too_large || number.is_too_large(),
            unfit: self.unfit || number.value > MOST || in_range && number.value < self.last,
        })
    }
}
