ghost use Rattle.std.specs.Prelude.{◌≡◌, ◌≤◌, ℕ, length, take, map, All, IfOk, IfErr, IfSome, IfNone, IsUtf8};
ghost use Rattle.httparse.specs.Grammar.{RequestHead};
ghost use Rattle.httparse.specs.Spans.{IsWithin, IsHeaderWithin, span_bytes, header_bytes};
ghost use Rattle.http_heads.specs.Heads.{after_blank};
ghost use Rattle.http_heads.specs.Limits.{max_body, max_fields};
ghost use Rattle.http_heads.specs.Fields.{ascii_or_empty, if_match_in, leave_due};
ghost use Rattle.http_heads.specs.Messages.{IsHead};
ghost use Rattle.http_heads.specs.Readings.{Says, HasReason, AreParts, TellsExpects};
ghost use Rattle.http_heads.specs.Upgrades.{key_in};

use crate::fields::{expects_in, first_value, framing, some_lists, some_named};
use crate::request::{HeadFault, MAX_FIELDS};
use crate::search::leading_line_bytes;
use crate::upgrade::key_in;
use httparse::Status;
use httparse::spans::{EMPTY_HEADER_SPAN, HeaderSpan, RequestSpans, parse_request};
use size_values::{NoMemory, Or, Text};
use std::alloc::Global;
use std::marker::Model;
use std::mem;

/// What a head says: the method, the target, the length of the body, whether the connection ends after it, whether its
/// client waits for leave before it sends the body, the key of the WebSocket handshake that it asks for, and whether a
/// header is named `Origin`. `if_match` is the value of the first If-Match header (RFC 9110, section 13.1.1), if there
/// is one; empty where it has a byte that is not ASCII.
#[derive(Drop)]
pub struct Head {
    pub method: Text,
    pub target: Text,
    pub body: usize,
    pub last: bool,
    pub expects: bool,
    pub upgrade: Option<Text>,
    pub origin: bool,
    pub if_match: Option<Text>,
}

/// The place in which `read_head` notes where the headers are. It is made once for many heads, and what a head leaves
/// there says nothing to the next one: contracts see no value of it.
#[derive(Drop)]
pub struct HeaderSpans {
    spans: Vec<HeaderSpan>,
}

impl Model for HeaderSpans {
    ghost use Rattle.std.specs.Prelude.{◌≡◌, vec_len};
    ghost use Rattle.http_heads.specs.Limits.{max_fields};

    ghost Value = { Unit {0} };

    ghost view = { λ s. tt };

    ghost invariant = { λ s. vec_len s.spans ≡ max_fields };
}

/// Texts that are done with, in whose memory those of the next head are put. What they say matters to no reader.
#[derive(Drop)]
pub struct SpareTexts {
    pub method: Text,
    pub target: Text,
}

impl HeaderSpans {
    /// A place for the most headers that a head has.
    pub fn new(alloc: Global) -> Result<HeaderSpans, NoMemory> {
        let spans = vec![in alloc; EMPTY_HEADER_SPAN; MAX_FIELDS]?;
        Ok(HeaderSpans { spans })
    }
}

/// Reads a whole head, with the CR and LF bytes before it. A fault is H1, H3 or H4, the first that stands.
pub fn read_head(
    alloc: Global,
    bytes: &[u8],
    places: &mut HeaderSpans,
    spare: &mut SpareTexts,
) -> Result<Head, Or<HeadFault>>
    ensures ok { IfOk result (Says (after_blank bytes.now)) }
    ensures small { IfOk result (λ head. head.body ≤ max_body) }
    ensures err { IfErr result (HasReason (after_blank bytes.now)) }
{
    let text = &bytes[leading_line_bytes(bytes)..];
    let headers = places.spans.as_mut_slice();
    match spans_of(text, headers) {
        Some(spans) => head_of(alloc, text, &headers[..spans.headers], &spans, spare),
        None => Err(Or::Why(HeadFault::H1)),
    }
}

/// Whether a whole head, with the CR and LF bytes before it, has its client wait for leave before it sends the body, and
/// is not refused for an `Origin`. No memory is taken.
pub fn expects_leave(bytes: &[u8], places: &mut HeaderSpans, refuses_origin: bool) -> bool
    ensures { TellsExpects refuses_origin (after_blank bytes.now) result }
{
    let text = &bytes[leading_line_bytes(bytes)..];
    let headers = places.spans.as_mut_slice();
    match spans_of(text, headers) {
        Some(spans) => expects_of(text, &headers[..spans.headers], &spans, refuses_origin),
        None => false,
    }
}

/// The same of a head with these parts.
fn expects_of(
    text: &[u8],
    headers: &[HeaderSpan],
    spans: &RequestSpans,
    refuses_origin: bool,
) -> bool
    requires { AreParts text.now headers.now spans.now }
    ensures { TellsExpects refuses_origin text.now result }
{
    match framing(text, headers) {
        Ok(body) => {
            let expects = expects_in(body, spans.version, text, headers);
            let origin = some_named(text, headers, b"origin");
            leave_due(refuses_origin, origin, expects)
        }
        Err(_) => false,
    }
}

/// Whether leave is due: the client waits for it, and the request is not refused for its `Origin`.
fn leave_due(refuses_origin: bool, origin: bool, expects: bool) -> bool
    ensures { result ≡ leave_due refuses_origin origin expects }
{
    expects && !(refuses_origin && origin)
}

/// Where the parts of a text are, if all of it is one head.
fn spans_of(text: &[u8], headers: &mut [HeaderSpan]) -> Option<RequestSpans>
    requires { length headers.old ≡ max_fields }
    ensures some { IfSome result (λ spans. AreParts text.now (take spans.headers headers.new) spans) }
    ensures few { IfSome result (λ spans. spans.headers ≤ max_fields) }
    ensures none { IfNone result ((head : RequestHead) → ¬ (IsHead text.now head)) }
{
    match parse_request(text, headers) {
        Ok(Status::Complete(spans)) => {
            if spans.len == text.len() {
                Some(spans)
            } else {
                None
            }
        }
        Ok(Status::Partial) => None,
        Err(_) => None,
    }
}

/// What the parts of a head say.
fn head_of(
    alloc: Global,
    text: &[u8],
    headers: &[HeaderSpan],
    spans: &RequestSpans,
    spare: &mut SpareTexts,
) -> Result<Head, Or<HeadFault>>
    requires { AreParts text.now headers.now spans.now }
    ensures ok { IfOk result (Says text.now) }
    ensures small { IfOk result (λ head. head.body ≤ max_body) }
    ensures err { IfErr result (HasReason text.now) }
{
    let body = match framing(text, headers) {
        Ok(body) => body,
        Err(fault) => return Err(Or::Why(fault)),
    };
    let last = spans.version == 0 || some_lists(text, headers, b"connection", b"close");
    let expects = expects_in(body, spans.version, text, headers);
    let origin = some_named(text, headers, b"origin");
    let method = text_in(alloc, &mut spare.method, str_of(spans.method.of(text)))?;
    let target = text_in(alloc, &mut spare.target, str_of(spans.path.of(text)))?;
    let upgrade = upgrade_of(alloc, text, headers, spans)?;
    let if_match = if_match_in(alloc, text, headers)?;
    Ok(Head {
        method,
        target,
        body,
        last,
        expects,
        upgrade,
        origin,
        if_match,
    })
}

/// The key of the WebSocket handshake that a head asks for.
fn upgrade_of(
    alloc: Global,
    text: &[u8],
    headers: &[HeaderSpan],
    spans: &RequestSpans,
) -> Result<Option<Text>, NoMemory>
    requires headers { All (IsHeaderWithin (length text.now)) headers.now }
    requires method { IsWithin (length text.now) spans.now.method }
    ensures { IfOk result (λ key. key ≡ key_in (span_bytes text.now spans.now.method) spans.now.version
        (map (header_bytes text.now) headers.now)) }
{
    match key_in(spans.method.of(text), spans.version, text, headers) {
        Some(key) => Ok(Some(Text::from_text(alloc, str_of(key))?)),
        None => Ok(None),
    }
}

/// The value of the first If-Match header, if there is one.
fn if_match_in(alloc: Global, text: &[u8], headers: &[HeaderSpan]) -> Result<Option<Text>, NoMemory>
    requires { All (IsHeaderWithin (length text.now)) headers.now }
    ensures { IfOk result (λ found. found ≡ if_match_in (map (header_bytes text.now) headers.now)) }
{
    match first_value(text, headers, b"if-match") {
        Some(value) => Ok(Some(Text::from_text(alloc, ascii_or_empty(value))?)),
        None => Ok(None),
    }
}

/// The value, or an empty one where it has a byte that is not ASCII.
fn ascii_or_empty(value: &[u8]) -> &str
    ensures { result.now ≡ ascii_or_empty value.now }
{
    if value.is_ascii() { str_of(value) } else { "" }
}

/// The bytes as a `str`.
fn str_of(bytes: &[u8]) -> &str
    requires { IsUtf8 bytes.now }
    ensures { result.now ≡ bytes.now }
{
    match std::str::from_utf8(bytes) {
        Ok(text) => text,
        Err(_) => unreachable!(),
    }
}

/// The text, in the memory of one that is done with.
fn text_in(alloc: Global, spare: &mut Text, text: &str) -> Result<Text, NoMemory>
    ensures { IfOk result (λ filled. filled ≡ text.now) }
{
    spare.set(text)?;
    Ok(mem::replace(spare, Text::new(alloc)))
}
