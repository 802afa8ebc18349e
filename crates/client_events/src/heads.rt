//! The head by which a server answers a handshake.
ghost use Rattle.std.specs.Prelude.{◌≡◌, [], length, take, IfOk};
ghost use Rattle.httparse.specs.Spans.{IsResponseWithin};
ghost use Rattle.websocket.specs.Headers.{fields_of};
ghost use Rattle.client_replies.specs.Heads.{AreParts};
ghost use Rattle.client_events.specs.Opening.{is_accepting, key};
ghost use Rattle.client_events.specs.Greetings.{EndsIn, IsGreeting, IsSettled};

use crate::greeting::Greeting;
use httparse::Status;
use httparse::spans::{EMPTY_HEADER_SPAN, HeaderSpan, ResponseSpans, parse_response};
use size_values::NoMemory;
use std::alloc::Global;
use websocket::handshake::client::{ClientRequest, verify_response};

/// The most bytes of a head.
const MAX_HEAD: usize = 16_384;

/// As many header fields as no head has: a field has 3 bytes at least.
const MAX_FIELDS: usize = 5_461;

/// The key of each handshake.
const KEY: [u8; 24] = *b"dGhlIHNhbXBsZSBub25jZQ==";

/// What the bytes are that a server answers a handshake by (RFC 6455, section 4.1): a head of at most 16,384 bytes, with
/// the status 101, accepts it where `Upgrade` and `Connection` say so, `Sec-WebSocket-Accept` answers the key, and no
/// extension and no subprotocol is chosen.
pub fn read_greeting(alloc: Global, bytes: &[u8]) -> Result<Greeting, NoMemory>
    ensures greeting { IfOk result (IsGreeting bytes.now) }
    ensures within { IfOk result (EndsIn (length bytes.now)) }
{
    let mut headers = vec![in alloc; EMPTY_HEADER_SPAN; MAX_FIELDS]?;
    Ok(greeting_of(bytes, headers.as_mut_slice()))
}

/// The same, where there is a place for the header fields.
fn greeting_of(bytes: &[u8], headers: &mut [HeaderSpan]) -> Greeting
    requires { length headers.old ≡ 5461 }
    ensures greeting { IsGreeting bytes.now result }
    ensures within { EndsIn (length bytes.now) result }
{
    let window = &bytes[..MAX_HEAD.min(bytes.len())];
    match parse_response(window, headers) {
        Ok(Status::Complete(spans)) => settled(window, headers, &spans),
        Ok(Status::Partial) => {
            if bytes.len() < MAX_HEAD {
                Greeting::Begun
            } else {
                Greeting::Other
            }
        }
        Err(_) => Greeting::Other,
    }
}

/// What a head with these parts is.
fn settled(bytes: &[u8], headers: &[HeaderSpan], spans: &ResponseSpans) -> Greeting
    requires within { IsResponseWithin bytes.now headers.now spans.now }
    requires parts { AreParts bytes.now (take spans.now.headers headers.now) spans.now }
    ensures greeting { IsSettled bytes.now result }
    ensures within { EndsIn (length bytes.now) result }
{
    if is_accepting(bytes, headers, spans) {
        Greeting::Accepted { len: spans.len }
    } else {
        Greeting::Other
    }
}

/// Whether a head accepts a request for a handshake with the key, in which no subprotocol is offered.
fn is_accepted(
    request: &ClientRequest<'_>,
    bytes: &[u8],
    headers: &[HeaderSpan],
    spans: &ResponseSpans,
) -> bool
    requires key { request.now.key ≡ key }
    requires none { request.now.subprotocols.now ≡ [] }
    requires within { IsResponseWithin bytes.now headers.now spans.now }
    ensures { result ≡ is_accepting spans.now.version spans.now.code
        (fields_of bytes.now (take spans.now.headers headers.now)) }
{
    verify_response(request, bytes, spans, headers).is_ok()
}

/// Whether a head accepts the handshake.
fn is_accepting(bytes: &[u8], headers: &[HeaderSpan], spans: &ResponseSpans) -> bool
    requires { IsResponseWithin bytes.now headers.now spans.now }
    ensures { result ≡ is_accepting spans.now.version spans.now.code
        (fields_of bytes.now (take spans.now.headers headers.now)) }
{
    let request = ClientRequest {
        host: "localhost",
        path: "/1.0/events",
        key: KEY,
        subprotocols: &[],
        extra: &[],
    };
    is_accepted(&request, bytes, headers, spans)
}
