ghost use Rattle.std.specs.Prelude.{◌≡◌, ◌+◌, ◌<◌, ◌≤◌, IfOk, IfErr, IfSome, IfNone, length, drop, take_while};
ghost use Rattle.std.specs.Char.{is_ascii_digit};
ghost use Rattle.std.specs.List.{prefix_len};
ghost use Rattle.size_values.specs.Address.{address_of, cidr_of, has_leading_zero};
ghost use Rattle.size_values.specs.Number.{number_at};
ghost use Rattle.size_values.specs.Quad.{fit_of, quad_value, IsFrom, Follows, Misses, IsQuad, IsAstray};

use crate::fault::{Stray, ValueFault};
use crate::number::Number;

/// A number of at most 255 in a text: where its digits end, and its value, if it is fit.
#[derive(Clone, Copy)]
pub struct SmallNumber {
    pub end: usize,
    pub value: Option<u8>,
}

/// Four numbers joined by dots at the front of a text: where they end, and the address, if all four are fit.
#[derive(Clone, Copy)]
pub struct Quad {
    pub end: usize,
    pub address: Option<u32>,
}

/// Reads an IPv4 address: four numbers from 0 to 255 without leading zeros, joined by dots. The first number is the
/// highest byte of the answer.
pub fn read_address(text: &str) -> Result<u32, ValueFault>
    ensures { result ≡ address_of text.now }
{
    address_in(text.as_bytes())
}

/// Reads an IPv4 address with the length of its network, as `ipv4.address` of the Incus documentation's bridge options
/// takes it: an address, `/` and a length from 8 to 30.
pub fn read_cidr(text: &str) -> Result<(u32, u8), ValueFault>
    ensures { result ≡ cidr_of text.now }
{
    cidr_in(text.as_bytes())
}

fn address_in(text: &[u8]) -> Result<u32, ValueFault>
    ensures { result ≡ address_of text.now }
{
    if text.is_empty() {
        return Err(ValueFault::Empty);
    }
    let quad = read_quad(text)?;
    if quad.end < text.len() {
        return Err(ValueFault::BadByte(quad.end as u64));
    }
    quad.address.ok_or(ValueFault::OutOfRange)
}

fn cidr_in(text: &[u8]) -> Result<(u32, u8), ValueFault>
    ensures { result ≡ cidr_of text.now }
{
    if text.is_empty() {
        return Err(ValueFault::Empty);
    }
    let quad = read_quad(text)?;
    let bits = number_after(text, quad.end, b'/', 8, 30)?;
    if bits.end < text.len() {
        return Err(ValueFault::BadByte(bits.end as u64));
    }
    quad.address.zip(bits.value).ok_or(ValueFault::OutOfRange)
}

/// The four numbers at the front, or the place at which the text leaves their form.
fn read_quad(text: &[u8]) -> Result<Quad, Stray>
    ensures ok { IfOk result (IsQuad text.now) }
    ensures err { IfErr result (λ stray. IsAstray text.now stray.place) }
{
    let first = number_from(text, 0, 0, 255).ok_or(Stray { place: 0 })?;
    let second = number_after(text, first.end, b'.', 0, 255)?;
    let third = number_after(text, second.end, b'.', 0, 255)?;
    let fourth = number_after(text, third.end, b'.', 0, 255)?;
    Ok(Quad {
        end: fourth.end,
        address: quad_value(first.value, second.value, third.value, fourth.value),
    })
}

/// The address of four numbers, if all are fit.
fn quad_value(
    first: Option<u8>,
    second: Option<u8>,
    third: Option<u8>,
    fourth: Option<u8>,
) -> Option<u32>
    ensures { result ≡ quad_value first second third fourth }
{
    Some(u32::from_be_bytes([first?, second?, third?, fourth?]))
}

/// The number that follows the separator at the place, or the place at which the text leaves that form.
fn number_after(
    text: &[u8],
    at: usize,
    separator: u8,
    least: u64,
    most: u64,
) -> Result<SmallNumber, Stray>
    requires within { at ≤ length text.now }
    requires separator { 0 < separator }
    requires bounds { (least ≤ most) × (most ≤ 255) }
    ensures ok { IfOk result (Follows separator least most text.now at) }
    ensures err { IfErr result (λ stray. Misses separator text.now at stray.place) }
{
    if text.get(at) != Some(&separator) {
        return Err(Stray { place: at });
    }
    number_from(text, at + 1, least, most).ok_or(Stray { place: at + 1 })
}

/// The number whose digits begin at the place, if one stands there.
fn number_from(text: &[u8], at: usize, least: u64, most: u64) -> Option<SmallNumber>
    requires within { at ≤ length text.now }
    requires bounds { (least ≤ most) × (most ≤ 255) }
    ensures some { IfSome result (IsFrom least most text.now at) }
    ensures none { IfNone result (prefix_len is_ascii_digit (drop at text.now) ≡ 0) }
{
    let digits = &text[at..];
    let number = Number::at_front(digits);
    if number.len == 0 {
        return None;
    }
    Some(SmallNumber {
        end: at + number.len,
        value: fit_value(digits, number, least, most),
    })
}

/// The value of the digits at the front, where it is from the least to the most and has no leading zero.
fn fit_value(text: &[u8], number: Number, least: u64, most: u64) -> Option<u8>
    requires number { number ≡ number_at text.now }
    requires within { number.len ≤ length text.now }
    requires bounds { (least ≤ most) × (most ≤ 255) }
    ensures { result ≡ fit_of least most (take_while is_ascii_digit text.now) }
{
    if has_leading_zero(text, number) || !number.is_within(least, most) {
        return None;
    }
    Some(number.value as u8)
}

fn has_leading_zero(text: &[u8], number: Number) -> bool
    requires number { number ≡ number_at text.now }
    requires within { number.len ≤ length text.now }
    ensures { result ≡ has_leading_zero (take_while is_ascii_digit text.now) }
{
    number.len > 1 && text[0] == b'0'
}
