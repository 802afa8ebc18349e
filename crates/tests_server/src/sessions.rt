//! What a session of events sends.
use crate::busy_gate::BusyGate;
use crate::client::{Client, Piece};
use crate::links::{OwnGate, POOL, TCP, new_gate, requests};
use crate::server::text;
use http_front::ByteSink;
use records::Filter;
use serve_loop::{SessionEnd, event_session};
use size_values::Seq;
use std::alloc::Global;
use std::sync::Wait;

/// The head that accepts the key of RFC 6455, section 1.3.
pub(crate) const HEAD: &str =
    "HTTP/1.1 101 Switching Protocols\r\nUpgrade: websocket\r\nConnection: Upgrade\r\nSec-WebSocket-Accept: s3pPLMBiTxaQ9kYGzzhZRbK+xOo=\r\n\r\n";

/// A close frame with the code 1008.
const CLOSE: &[u8] = b"\x88\x1c\x03\xf0lagged: events were missed";

/// An empty ping of a client, and the pong to it.
const PING: Piece = Piece::Bytes(&[0x89, 0x80, 0, 0, 0, 0]);

const PONG: &[u8] = &[0x8a, 0];

pub(crate) const KEY: &str = "dGhlIHNhbXBsZSBub25jZQ==";

const NOTHING: &str = "";

const CREATION: &str =
    "POST /1.0/instances HTTP/1.1\r\nHost: localhost\r\nContent-Length: 37\r\n\r\n{\"name\":\"a\",\"source\":{\"type\":\"none\"}}";

const CANCELLED_CREATION: &str =
    "POST /1.0/instances HTTP/1.1\r\nHost: localhost\r\nContent-Length: 37\r\n\r\n{\"name\":\"a\",\"source\":{\"type\":\"none\"}}DELETE /1.0/operations/00000000-0001-8000-8000-000000000001 HTTP/1.1\r\nHost: localhost\r\n\r\n";

const PENDING: &str =
    "{\"metadata\":{\"class\":\"task\",\"created_at\":\"1970-01-01T00:00:00Z\",\"err\":\"\",\"id\":\"00000000-0001-8000-8000-000000000001\",\"may_cancel\":true,\"metadata\":null,\"resources\":{\"instances\":[\"/1.0/instances/a\"]},\"status\":\"Pending\",\"status_code\":105,\"updated_at\":\"1970-01-01T00:00:00Z\"},\"number\":3,\"project\":\"default\",\"timestamp\":\"1970-01-01T00:00:00Z\",\"type\":\"operation\"}";

const RUNNING: &str =
    "{\"metadata\":{\"class\":\"task\",\"created_at\":\"1970-01-01T00:00:00Z\",\"err\":\"\",\"id\":\"00000000-0001-8000-8000-000000000001\",\"may_cancel\":true,\"metadata\":null,\"resources\":{\"instances\":[\"/1.0/instances/a\"]},\"status\":\"Running\",\"status_code\":103,\"updated_at\":\"1970-01-01T00:00:00Z\"},\"number\":4,\"project\":\"default\",\"timestamp\":\"1970-01-01T00:00:00Z\",\"type\":\"operation\"}";

const SUCCESS: &str =
    "{\"metadata\":{\"class\":\"task\",\"created_at\":\"1970-01-01T00:00:00Z\",\"err\":\"\",\"id\":\"00000000-0001-8000-8000-000000000001\",\"may_cancel\":false,\"metadata\":null,\"resources\":{\"instances\":[\"/1.0/instances/a\"]},\"status\":\"Success\",\"status_code\":200,\"updated_at\":\"1970-01-01T00:00:00Z\"},\"number\":6,\"project\":\"default\",\"timestamp\":\"1970-01-01T00:00:00Z\",\"type\":\"operation\"}";

const CANCELLED: &str =
    "{\"metadata\":{\"class\":\"task\",\"created_at\":\"1970-01-01T00:00:00Z\",\"err\":\"operation was cancelled\",\"id\":\"00000000-0001-8000-8000-000000000001\",\"may_cancel\":false,\"metadata\":null,\"resources\":{\"instances\":[\"/1.0/instances/a\"]},\"status\":\"Cancelled\",\"status_code\":401,\"updated_at\":\"1970-01-01T00:00:00Z\"},\"number\":4,\"project\":\"default\",\"timestamp\":\"1970-01-01T00:00:00Z\",\"type\":\"operation\"}";

const CREATED: &str =
    "{\"metadata\":{\"action\":\"instance-created\",\"source\":\"/1.0/instances/a\"},\"number\":5,\"project\":\"default\",\"timestamp\":\"1970-01-01T00:00:00Z\",\"type\":\"lifecycle\"}";

/// What was requested before a session listens, and what is while it does; whether it takes lifecycle events and
/// whether operation events; and what it sends before it lags, with the number that it asks for then. The oldest
/// event that is kept is then the next one.
type Session = (
    &'static str,
    &'static str,
    bool,
    bool,
    &'static [&'static str],
    u64,
);

const SESSIONS: &[Session] = &[
    (NOTHING, NOTHING, false, true, &[], 1),
    (NOTHING, NOTHING, true, true, &[], 1),
    (POOL, NOTHING, true, true, &[], 3),
    (POOL, CREATION, false, true, &[PENDING, RUNNING, SUCCESS], 7),
    (
        POOL,
        CREATION,
        true,
        true,
        &[PENDING, RUNNING, CREATED, SUCCESS],
        7,
    ),
    (POOL, CREATION, true, false, &[CREATED], 7),
    (
        POOL,
        CANCELLED_CREATION,
        false,
        true,
        &[PENDING, CANCELLED],
        5,
    ),
];

/// What stands after this part at the beginning of bytes; none where they do not begin so.
fn after<'x>(bytes: Option<&'x [u8]>, part: &[u8]) -> Option<&'x [u8]> {
    match bytes {
        Some(bytes) => bytes.strip_prefix(part),
        None => None,
    }
}

/// The head of the frame of a text message of 126 to 65,535 bytes, by hand (RFC 6455, section 5.2).
fn frame_head(length: usize) -> [u8; 4] {
    [0x81, 126, (length / 256 % 256) as u8, (length % 256) as u8]
}

/// Whether bytes are the head, this, these messages, and a close frame.
fn are_sent(bytes: &[u8], first: &[u8], texts: &[&str]) -> bool {
    let mut rest = after(Some(bytes), HEAD.as_bytes());
    rest = after(rest, first);
    for text in texts {
        rest = after(rest, &frame_head(text.len()));
        rest = after(rest, text.as_bytes());
    }
    rest == Some(CLOSE)
}

/// A gate to a server of which this was requested before.
fn gate_after<T: Wait>(rt: &T, alloc: Global, before: &str) -> Option<OwnGate> {
    let mut gate = new_gate(alloc)?;
    if requests(rt, alloc, &mut gate, before) {
        Some(gate)
    } else {
        drop(gate);
        None
    }
}

/// How a session at a gate ends, and what it sends, while a link makes these requests.
fn listened<T: Wait + Copy>(
    rt: T,
    alloc: Global,
    inner: OwnGate,
    requests: &'static str,
    script: &'static [Piece],
    filter: Filter,
) -> (SessionEnd, ByteSink) {
    let mut gate = BusyGate {
        rt,
        alloc,
        inner,
        requests,
        made: 0,
        idles: 0,
    };
    let mut sink = ByteSink::new(alloc, Seq::new(alloc));
    let mut source = Client::new(script);
    let ends = event_session(
        &rt,
        alloc,
        &mut gate,
        &mut source,
        &mut sink,
        KEY,
        &filter,
        TCP,
    );
    drop(source);
    drop(filter);
    drop(gate);
    (ends, sink)
}

/// Whether a session that takes these events sends this and then these messages, and then lags so.
fn is_told<T: Wait + Copy>(
    rt: T,
    alloc: Global,
    session: &Session,
    script: &'static [Piece],
    first: &[u8],
) -> bool {
    let (before, requests, life, op, texts, cursor) = *session;
    let Some(inner) = gate_after(&rt, alloc, before) else {
        return false;
    };
    let project = text(alloc, "default");
    let filter = Filter { life, op, project };
    let (ends, sink) = listened(rt, alloc, inner, requests, script, filter);
    let oldest = cursor.wrapping_add(1);
    let is_so = ends == SessionEnd::Lagged { cursor, oldest }
        && are_sent(sink.bytes(), first, texts);
    drop(sink);
    is_so
}

#[test]
fn sessions_send_what_is_told(rt: HostRuntime) {
    for session in SESSIONS {
        assert!(rt;
            is_told(rt, rt.alloc(), session, &[], &[]),
            "{} {} {} {}",
            session.0,
            session.1,
            session.2,
            session.3
        );
    }
}

#[test]
fn no_event_is_left_out_after_a_ping(rt: HostRuntime) {
    for session in SESSIONS {
        assert!(rt;
            is_told(rt, rt.alloc(), session, &[PING], PONG),
            "{} {} {} {}",
            session.0,
            session.1,
            session.2,
            session.3
        );
    }
}
