ghost use Rattle.std.specs.Prelude.{◌≡◌, ◌+◌, ◌<◌, ◌≤◌, IfSome, IfOk, option_map, length, take, drop, take_while};
ghost use Rattle.std.specs.Char.{is_ascii_digit};
ghost use Rattle.std.specs.Str.Parse.{AllDigits, digits_value};
ghost use Rattle.workload.specs.Summary.{code_in, codes_of, first_reply, length_in, number_in, parted};

use size_values::NoMemory;
use std::alloc::Global;

/// One whole reply at the front of a text.
#[derive(Clone, Copy)]
struct Reply {
    code: u16,
    /// The place after its body.
    end: usize,
}

/// The first place at which the mark stands.
fn find(text: &[u8], mark: &[u8]) -> Option<usize>
    ensures parts { option_map (λ i. (take i text.now, drop (i + length mark.now) text.now)) result
        ≡ parted mark.now text.now }
    ensures within { IfSome result (λ i. i + length mark.now ≤ length text.now) }
{
    for place in 0..text.len() {
        if text[place..].starts_with(mark) {
            return Some(place);
        }
    }
    None
}

/// The value of the digits.
fn value(digits: &[u8]) -> u64
    requires few { length digits.now ≤ 19 }
    requires digits { AllDigits 10 digits.now }
    ensures { result ≡ digits_value 10 digits.now }
{
    let mut value = 0;
    for digit in digits {
        value = value * 10 + u64::from(*digit - b'0');
    }
    value
}

/// How many digits a text begins with.
fn digits_len(text: &[u8]) -> usize
    ensures { result ≡ length (take_while is_ascii_digit text.now) }
{
    text.iter().take_while(|byte| byte.is_ascii_digit()).count()
}

/// The number with which a text begins.
#[tactic(auto, using(crate::proofs::Digits::run_facts))]
fn number_in(text: &[u8]) -> Option<u64>
    ensures { result ≡ number_in text.now }
{
    let len = digits_len(text);
    if len == 0 || len > 19 {
        return None;
    }
    Some(value(&text[..len]))
}

/// The status code of a head.
fn code_in(head: &[u8]) -> Option<u16>
    ensures { result ≡ code_in head.now }
{
    let number = number_in(head.strip_prefix(b"HTTP/1.1 ")?)?;
    if (100..1000).contains(&number) {
        Some(number as u16)
    } else {
        None
    }
}

/// The length of the body that a head tells.
fn length_in(head: &[u8]) -> Option<u64>
    ensures { result ≡ length_in head.now }
{
    let mark = b"\r\nContent-Length: ";
    let place = find(head, mark)?;
    number_in(&head[place + mark.len()..])
}

/// The first reply of a text, if it is whole.
fn first_reply(bytes: &[u8]) -> Option<Reply>
    ensures reply { option_map (λ r. (r.code, drop r.end bytes.now)) result ≡ first_reply bytes.now }
    ensures within { IfSome result (λ r. (0 < r.end) × (r.end ≤ length bytes.now)) }
{
    let head_end = find(bytes, b"\r\n\r\n")?;
    let head = &bytes[..head_end];
    let body = &bytes[head_end + 4..];
    let code = code_in(head)?;
    let length = length_in(head)?;
    if length > body.len() as u64 {
        return None;
    }
    Some(Reply {
        code,
        end: head_end + 4 + length as usize,
    })
}

/// The codes of the whole replies at the front of a text.
pub fn codes_of(alloc: Global, bytes: &[u8]) -> Result<Vec<u16>, NoMemory>
    ensures { IfOk result (λ v. v.items ≡ codes_of bytes.now) }
{
    let mut codes = Vec::new(alloc);
    let mut rest = bytes;
    while let Some(reply) = first_reply(rest) {
        codes.push(reply.code)?;
        rest = &rest[reply.end..];
    }
    Ok(codes)
}
