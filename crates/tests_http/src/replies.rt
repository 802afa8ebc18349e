//! Replies, and their bytes.

use http_front::{Printed, no_memory_reply, reply_bytes};
use size_values::{NoMemory, Seq, Text};
use std::alloc::Global;

/// The parts of a reply.
#[derive(Clone, Copy)]
struct Parts {
    code: u16,
    body: &'static str,
    location: &'static str,
    tag: &'static str,
    last: bool,
}

/// Replies, and their bytes.
const REPLIES: &[(Parts, &str)] = &[
    (
        Parts {
            code: 200,
            body: "{}",
            location: "",
            tag: "",
            last: false,
        },
        "HTTP/1.1 200 OK\r\nContent-Type: application/json\r\nContent-Length: 2\r\n\r\n{}",
    ),
    (
        Parts {
            code: 202,
            body: "{\"a\":1}",
            location: "/1.0/operations/1",
            tag: "",
            last: true,
        },
        "HTTP/1.1 202 Accepted\r\nContent-Type: application/json\r\nContent-Length: 7\r\nLocation: /1.0/operations/1\r\nConnection: close\r\n\r\n{\"a\":1}",
    ),
    (
        Parts {
            code: 405,
            body: "",
            location: "",
            tag: "",
            last: false,
        },
        "HTTP/1.1 405 Method Not Allowed\r\nContent-Type: application/json\r\nContent-Length: 0\r\n\r\n",
    ),
    // An entity tag stands as it is given, behind the location.
    (
        Parts {
            code: 200,
            body: "{}",
            location: "",
            tag: "\"a1\"",
            last: false,
        },
        "HTTP/1.1 200 OK\r\nContent-Type: application/json\r\nContent-Length: 2\r\nETag: \"a1\"\r\n\r\n{}",
    ),
    (
        Parts {
            code: 202,
            body: "{}",
            location: "/a",
            tag: "W/\"b\"",
            last: true,
        },
        "HTTP/1.1 202 Accepted\r\nContent-Type: application/json\r\nContent-Length: 2\r\nLocation: /a\r\nETag: W/\"b\"\r\nConnection: close\r\n\r\n{}",
    ),
];

const NO_MEMORY: &str =
    "HTTP/1.1 500 Internal Server Error\r\nContent-Type: application/json\r\nContent-Length: 78\r\n\r\n{\"error\":\"no memory\",\"error_code\":500,\"metadata\":{\"rule\":\"M1\"},\"type\":\"error\"}";

/// Whether a reply with one of the codes of this table has these bytes.
fn is_printed_as(alloc: Global, printed: &Printed, want: &str) -> bool {
    let bytes = match printed.code {
        200 | 202 | 405 => reply_bytes(alloc, printed),
        _ => Ok(Seq::new(alloc)),
    };
    let is = match &bytes {
        Ok(bytes) => bytes.view() == want.as_bytes(),
        Err(_) => false,
    };
    drop(bytes);
    is
}

fn reply_of(alloc: Global, parts: Parts) -> Result<Printed, NoMemory> {
    let body = Seq::of_bytes(alloc, parts.body.as_bytes())?;
    let location = Text::from_text(alloc, parts.location)?;
    let tag = Text::from_text(alloc, parts.tag)?;
    Ok(Printed {
        code: parts.code,
        body,
        location,
        tag,
        last: parts.last,
    })
}

/// Whether the reply with these parts has these bytes.
fn is_reply(alloc: Global, parts: Parts, want: &str) -> bool {
    let Ok(printed) = reply_of(alloc, parts) else {
        return false;
    };
    let is = is_printed_as(alloc, &printed, want);
    drop(printed);
    is
}

/// Whether the reply that takes no memory has its bytes, and those of the last one of a connection are so many more.
fn is_no_memory_told() -> bool {
    (no_memory_reply(false) == NO_MEMORY.as_bytes())
        & (no_memory_reply(true).len() == NO_MEMORY.len() + 19)
}

#[test]
fn prints_replies(rt: HostRuntime) {
    for (number, (parts, want)) in REPLIES.iter().enumerate() {
        assert!(rt; is_reply(rt.alloc(), *parts, want), "reply {number}");
    }
    assert!(rt; is_no_memory_told());
}
