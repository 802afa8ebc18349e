ghost use Rattle.std.specs.Prelude.{◌≡◌, ◌-◌, ◌*◌, ◌^◌, ◌≤◌, min, ◌&&◌, ◌||◌, length, nat_lt, nat_le};

/// The greatest number of digits that a count or a size may have.
const MOST_DIGITS: usize = 20;

/// The first number that is too large for a count or a size.
const TOO_LARGE: u64 = 1 << 63;

/// The decimal number at the front of a text: how many digits it has, and its value, which stops at 2^64 - 1.
#[derive(Clone, Copy)]
pub struct Number {
    pub len: usize,
    pub value: u64,
}

impl Number {
    ghost use Rattle.size_values.specs.Number.{number_at};

    /// Reads the digits at the front of the text.
    pub fn at_front(text: &[u8]) -> Number
        ensures number { result ≡ number_at text.now }
        ensures within { result.len ≤ length text.now }
    {
        let mut value: u64 = 0;
        for (len, byte) in text.iter().enumerate() {
            if !byte.is_ascii_digit() {
                return Number { len, value };
            }
            value = value
                .saturating_mul(10)
                .saturating_add(u64::from(*byte - b'0'));
        }
        Number {
            len: text.len(),
            value,
        }
    }

    /// So many times the number.
    pub fn times(&self, factor: u64) -> Number
        ensures { result ≡ record self.now { value = min (self.now.value * factor) (2 ^ 64 - 1) } }
    {
        Number {
            len: self.len,
            value: self.value.saturating_mul(factor),
        }
    }

    /// Whether there are more than twenty digits, or the number is 2^63 or more.
    pub fn is_too_large(&self) -> bool
        ensures { result ≡ (nat_lt 20 self.now.len || nat_le (2 ^ 63) self.now.value) }
    {
        self.len > MOST_DIGITS || self.value >= TOO_LARGE
    }

    /// Whether the number is from `least` to `most`.
    pub fn is_within(&self, least: u64, most: u64) -> bool
        ensures { result ≡ (nat_le least self.now.value && nat_le self.now.value most) }
    {
        least <= self.value && self.value <= most
    }
}
