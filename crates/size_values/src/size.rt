ghost use Rattle.std.specs.Prelude.{◌≡◌, find};
ghost use Rattle.std.specs.Option.{option_map};
ghost use Rattle.std.specs.Char.{is_ascii_alphabetic};
ghost use Rattle.std.specs.List.{prefix_len};
ghost use Rattle.std.specs.Str.{bytes_eq};
ghost use Rattle.size_values.specs.Size.{size_of, factor_of};

use crate::fault::ValueFault;
use crate::number::Number;

/// The suffixes of sizes, each with the bytes that one of it stands for.
const SUFFIXES: [(&str, u64); 14] = [
    ("", 1),
    ("B", 1),
    ("kB", 1_000),
    ("MB", 1_000_000),
    ("GB", 1_000_000_000),
    ("TB", 1_000_000_000_000),
    ("PB", 1_000_000_000_000_000),
    ("EB", 1_000_000_000_000_000_000),
    ("KiB", 1 << 10),
    ("MiB", 1 << 20),
    ("GiB", 1 << 30),
    ("TiB", 1 << 40),
    ("PiB", 1 << 50),
    ("EiB", 1 << 60),
];

/// Reads a size in bytes: decimal digits, at most twenty, and a suffix or none. The suffixes are `B`, those of powers
/// of 1000 from `kB` to `EB`, and those of powers of 1024 from `KiB` to `EiB`, as the Incus documentation lists them
/// under "Units for storage and network limits". The size is below 2^63.
pub fn read_size(text: &str) -> Result<u64, ValueFault>
    ensures { result ≡ size_of text.now }
{
    size_in(text.as_bytes())
}

/// The same of the bytes of a text.
pub fn size_in(text: &[u8]) -> Result<u64, ValueFault>
    ensures { result ≡ size_of text.now }
{
    if text.is_empty() {
        return Err(ValueFault::Empty);
    }
    let number = Number::at_front(text);
    if number.len == 0 {
        return Err(ValueFault::BadByte(0));
    }
    let suffix = &text[number.len..];
    let letters = letters_len(suffix);
    if letters < suffix.len() {
        return Err(ValueFault::BadByte((number.len + letters) as u64));
    }
    let Some(factor) = factor_of(suffix) else {
        return Err(ValueFault::UnknownSuffix(number.len as u64));
    };
    let size = number.times(factor);
    if size.is_too_large() {
        return Err(ValueFault::TooLarge);
    }
    Ok(size.value)
}

/// How many letters stand at the front.
fn letters_len(text: &[u8]) -> usize
    ensures { result ≡ prefix_len is_ascii_alphabetic text.now }
{
    text.iter()
        .take_while(|byte| byte.is_ascii_alphabetic())
        .count()
}

/// The bytes that one of the suffix stands for, where it is listed.
fn factor_of(suffix: &[u8]) -> Option<u64>
    ensures { result ≡ factor_of suffix.now }
{
    factor_in(&SUFFIXES, suffix)
}

fn factor_in(rows: &[(&str, u64)], suffix: &[u8]) -> Option<u64>
    ensures { result ≡ option_map (λ row. row.1) (find (λ row. bytes_eq row.0.now suffix.now) rows.now) }
{
    rows.iter()
        .find(|row| row.0.as_bytes() == suffix)
        .map(|row| row.1)
}
