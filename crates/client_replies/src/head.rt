//! The head of a reply.
ghost use Rattle.std.specs.Prelude.{◌≡◌, ◌+◌, ◌≤◌, ◌<◌, length, take, map, All, IfOk};
ghost use Rattle.httparse.specs.Grammar.{ResponseHead};
ghost use Rattle.httparse.specs.Spans.{IsHeaderWithin, header_bytes};
ghost use Rattle.client_replies.specs.Heads.{AreParts, IsFront, IsSettled, FitsIn};

use crate::fields::body_length;
use httparse::Status;
use httparse::spans::{EMPTY_HEADER_SPAN, HeaderSpan, ResponseSpans, parse_response};
use size_values::NoMemory;
use std::alloc::Global;

/// The most bytes of a head.
const MAX_HEAD: usize = 16_384;

/// As many header fields as no head has: a field has 3 bytes at least.
const MAX_FIELDS: usize = 5_461;

/// What bytes begin with.
#[derive(Clone, Copy)]
pub(crate) enum Front {
    /// A head has begun, and may become whole.
    Open,
    /// No head begins here, or it gives no length of a body.
    Wrong,
    /// A head of so many bytes with this HTTP status code, and the length of the body that follows it.
    Head { code: u16, len: usize, body: usize },
}

/// Reads the head that the bytes begin with.
pub(crate) fn read_head(alloc: Global, bytes: &[u8]) -> Result<Front, NoMemory>
    ensures front { IfOk result (IsFront bytes.now) }
    ensures within { IfOk result (FitsIn (length bytes.now)) }
{
    let mut headers = vec![in alloc; EMPTY_HEADER_SPAN; MAX_FIELDS]?;
    Ok(front_of(bytes, headers.as_mut_slice()))
}

/// The same, where there is a place for the header fields.
fn front_of(bytes: &[u8], headers: &mut [HeaderSpan]) -> Front
    requires { length headers.old ≡ 5461 }
    ensures front { IsFront bytes.now result }
    ensures within { FitsIn (length bytes.now) result }
{
    let window = &bytes[..MAX_HEAD.min(bytes.len())];
    match parse_response(window, headers) {
        Ok(Status::Complete(spans)) => framed(window, &headers[..spans.headers], &spans),
        Ok(Status::Partial) => {
            if bytes.len() < MAX_HEAD {
                Front::Open
            } else {
                Front::Wrong
            }
        }
        Err(_) => Front::Wrong,
    }
}

/// The head with these parts.
fn framed(bytes: &[u8], headers: &[HeaderSpan], spans: &ResponseSpans) -> Front
    requires { AreParts bytes.now headers.now spans.now }
    ensures front { IsSettled bytes.now result }
    ensures within { FitsIn (length bytes.now) result }
{
    if spans.version != 1 {
        return Front::Wrong;
    }
    match body_length(bytes, headers) {
        Some(body) => Front::Head {
            code: spans.code,
            len: spans.len,
            body,
        },
        None => Front::Wrong,
    }
}
