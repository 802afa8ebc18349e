ghost use Rattle.std.specs.Prelude.{◌≡◌, ℕ, ◌≤◌, List, length, map, reverse, option_to_list, All, IfOk, IfErr};
ghost use Rattle.std.specs.Option.{option_map};
ghost use Rattle.std.specs.Str.{str_eq_ignore_ascii_case};
ghost use Rattle.httparse.specs.Grammar.{skip_ows, trim_ows};
ghost use Rattle.httparse.specs.Spans.{IsWithin, IsHeaderWithin, span_bytes, header_bytes};
ghost use Rattle.http_heads.specs.Limits.{max_body};
ghost use Rattle.http_heads.specs.Fields.{values_of, first_value, length_in, framing, lists_word, some_lists};
ghost use Rattle.http_heads.specs.Fields.{some_named, expects_in};

use crate::request::{HeadFault, MAX_BODY};
use httparse::spans::{HeaderSpan, Span};

/// The length of the body that the headers give.
#[tactic(auto, unfolding(crate::specs::Fields::framing))]
pub(crate) fn framing(bytes: &[u8], headers: &[HeaderSpan]) -> Result<usize, HeadFault>
    requires { All (IsHeaderWithin (length bytes.now)) headers.now }
    ensures value { result ≡ framing (map (header_bytes bytes.now) headers.now) }
    ensures small { IfOk result (λ length. length ≤ max_body) }
{
    if single_value(bytes, headers, b"transfer-encoding")?.is_some() {
        return Err(HeadFault::H3);
    }
    match single_value(bytes, headers, b"content-length")? {
        Some(text) => length_in(text),
        None => Ok(0),
    }
}

/// The value of the header of this name, if there is one; several are a fault.
pub(crate) fn single_value<'a>(
    bytes: &'a [u8],
    headers: &[HeaderSpan],
    name: &[u8],
) -> Result<Option<&'a [u8]>, HeadFault>
    requires { All (IsHeaderWithin (length bytes.now)) headers.now }
    ensures ok { IfOk result (λ found.
        values_of name.now (map (header_bytes bytes.now) headers.now)
        ≡ option_to_list (option_map (λ v. v.now) found)) }
    ensures fault { IfErr result (λ fault. fault ≡ HeadFault.H3) }
    ensures several { IfErr result
        (λ fault. 2 ≤ length (values_of name.now (map (header_bytes bytes.now) headers.now))) }
{
    let mut found = None;
    for header in headers {
        if is_named(bytes, header.name, name) {
            if found.is_some() {
                return Err(HeadFault::H3);
            }
            found = Some(header.value.of(bytes));
        }
    }
    Ok(found)
}

/// The value of the first header of this name, if there is one.
pub(crate) fn first_value<'a>(
    bytes: &'a [u8],
    headers: &[HeaderSpan],
    name: &[u8],
) -> Option<&'a [u8]>
    requires { All (IsHeaderWithin (length bytes.now)) headers.now }
    ensures { option_map (λ v. v.now) result ≡ first_value name.now (map (header_bytes bytes.now) headers.now) }
{
    for header in headers {
        if is_named(bytes, header.name, name) {
            return Some(header.value.of(bytes));
        }
    }
    None
}

/// Whether the bytes of the span are the name, in any ASCII case.
fn is_named(bytes: &[u8], span: Span, name: &[u8]) -> bool
    requires { IsWithin (length bytes.now) span }
    ensures { result ≡ str_eq_ignore_ascii_case (span_bytes bytes.now span) name.now }
{
    span.of(bytes).eq_ignore_ascii_case(name)
}

/// The length that a text of 1 to 19 digits gives.
#[tactic(auto, unfolding(crate::specs::Fields::length_in))]
fn length_in(text: &[u8]) -> Result<usize, HeadFault>
    ensures value { result ≡ length_in text.now }
    ensures small { IfOk result (λ length. length ≤ max_body) }
{
    if text.is_empty() || text.len() > 19 {
        return Err(HeadFault::H3);
    }
    let mut length = 0usize;
    for byte in text {
        if !byte.is_ascii_digit() {
            return Err(HeadFault::H3);
        }
        length = length * 10 + usize::from(*byte - b'0');
    }
    if length > MAX_BODY {
        return Err(HeadFault::H4);
    }
    Ok(length)
}

/// Whether the client of a request with this length of the body, version and headers waits for leave before it sends
/// the body.
#[tactic(auto, unfolding(crate::specs::Fields::expects_in))]
pub(crate) fn expects_in(body: usize, minor: u8, bytes: &[u8], headers: &[HeaderSpan]) -> bool
    requires { All (IsHeaderWithin (length bytes.now)) headers.now }
    ensures { result ≡ expects_in body minor (map (header_bytes bytes.now) headers.now) }
{
    body > 0 && minor == 1 && some_lists(bytes, headers, b"expect", b"100-continue")
}

/// Whether some header of this name lists the word.
pub(crate) fn some_lists(bytes: &[u8], headers: &[HeaderSpan], name: &[u8], word: &[u8]) -> bool
    requires { All (IsHeaderWithin (length bytes.now)) headers.now }
    ensures { result ≡ some_lists name.now word.now (map (header_bytes bytes.now) headers.now) }
{
    for header in headers {
        if is_named(bytes, header.name, name) && lists_word(word, header.value.of(bytes)) {
            return true;
        }
    }
    false
}

/// Whether some header has this name.
pub(crate) fn some_named(bytes: &[u8], headers: &[HeaderSpan], name: &[u8]) -> bool
    requires { All (IsHeaderWithin (length bytes.now)) headers.now }
    ensures { result ≡ some_named name.now (map (header_bytes bytes.now) headers.now) }
{
    for header in headers {
        if is_named(bytes, header.name, name) {
            return true;
        }
    }
    false
}

/// Whether one of the parts between commas is the word.
fn lists_word(word: &[u8], value: &[u8]) -> bool
    ensures { result ≡ lists_word word.now value.now }
{
    value
        .split(|byte| *byte == b',')
        .any(|part| is_word(part, word))
}

fn is_word(part: &[u8], word: &[u8]) -> bool
    ensures { result ≡ str_eq_ignore_ascii_case (trim_ows part.now) word.now }
{
    trim_ows(part).eq_ignore_ascii_case(word)
}

/// The text without the blanks and tabs at its ends.
#[tactic(auto, unfolding(httparse::specs::Grammar::trim_ows))]
fn trim_ows(text: &[u8]) -> &[u8]
    ensures { result.now ≡ trim_ows text.now }
{
    skip_ows_back(skip_ows(text))
}

fn skip_ows(text: &[u8]) -> &[u8]
    ensures { result.now ≡ skip_ows text.now }
{
    let mut rest = text;
    while let [b' ' | b'\t', tail @ ..] = rest {
        rest = tail;
    }
    rest
}

fn skip_ows_back(text: &[u8]) -> &[u8]
    ensures { result.now ≡ reverse (skip_ows (reverse text.now)) }
{
    let mut rest = text;
    while let [front @ .., b' ' | b'\t'] = rest {
        rest = front;
    }
    rest
}
