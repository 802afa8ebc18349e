//! What the header fields of a reply say of its body.
ghost use Rattle.std.specs.Prelude.{◌≡◌, length, map, All, option_map, IfSome, ◌≤◌};
ghost use Rattle.std.specs.Str.{str_eq_ignore_ascii_case};
ghost use Rattle.httparse.specs.Spans.{IsWithin, IsHeaderWithin, span_bytes, header_bytes};
ghost use Rattle.http_heads.specs.Fields.{some_named, values_of};
ghost use Rattle.http_heads.specs.Upgrades.{only};
ghost use Rattle.client_replies.specs.Fields.{body_length, length_in};
ghost use Rattle.client_replies.specs.Limits.{max_body};

use httparse::spans::{HeaderSpan, Span};

/// The most bytes of a body.
const MAX_BODY: usize = 67_108_864;

/// The most digits of a length.
const MOST_DIGITS: usize = 19;

/// The length of the body that the header fields give.
#[tactic(auto, unfolding(crate::specs::Fields::body_length))]
pub(crate) fn body_length(bytes: &[u8], headers: &[HeaderSpan]) -> Option<usize>
    requires { All (IsHeaderWithin (length bytes.now)) headers.now }
    ensures value { result ≡ body_length (map (header_bytes bytes.now) headers.now) }
    ensures small { IfSome result (λ length. length ≤ max_body) }
{
    if some_named(bytes, headers, b"transfer-encoding") {
        return None;
    }
    match only_value(bytes, headers, b"content-length") {
        Some(text) => length_in(text),
        None => None,
    }
}

/// Whether the bytes of the span are the name, in any ASCII case.
fn is_named(bytes: &[u8], span: Span, name: &[u8]) -> bool
    requires { IsWithin (length bytes.now) span }
    ensures { result ≡ str_eq_ignore_ascii_case (span_bytes bytes.now span) name.now }
{
    span.of(bytes).eq_ignore_ascii_case(name)
}

/// Whether some header has this name.
fn some_named(bytes: &[u8], headers: &[HeaderSpan], name: &[u8]) -> bool
    requires { All (IsHeaderWithin (length bytes.now)) headers.now }
    ensures { result ≡ some_named name.now (map (header_bytes bytes.now) headers.now) }
{
    for header in headers {
        if is_named(bytes, header.name, name) {
            return true;
        }
    }
    false
}

/// The value of the header of this name, where there is one and no other.
fn only_value<'a>(bytes: &'a [u8], headers: &[HeaderSpan], name: &[u8]) -> Option<&'a [u8]>
    requires { All (IsHeaderWithin (length bytes.now)) headers.now }
    ensures { option_map (λ v. v.now) result ≡ only (values_of name.now (map (header_bytes bytes.now) headers.now)) }
{
    let mut found = None;
    for header in headers {
        if is_named(bytes, header.name, name) {
            if found.is_some() {
                return None;
            }
            found = Some(header.value.of(bytes));
        }
    }
    found
}

/// The length that a text of 1 to 19 digits gives, where it is no longer than a body may be.
#[tactic(auto, unfolding(crate::specs::Fields::length_in))]
fn length_in(text: &[u8]) -> Option<usize>
    ensures value { result ≡ length_in text.now }
    ensures small { IfSome result (λ length. length ≤ max_body) }
{
    if text.is_empty() || text.len() > MOST_DIGITS {
        return None;
    }
    let mut length = 0usize;
    for byte in text {
        if !byte.is_ascii_digit() {
            return None;
        }
        length = length * 10 + usize::from(*byte - b'0');
    }
    if length > MAX_BODY {
        return None;
    }
    Some(length)
}
