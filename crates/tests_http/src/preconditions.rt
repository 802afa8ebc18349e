//! The first If-Match header of a request, and its value.

use crate::answers::is_text;
use http_front::{Buffer, ByteSource, Got, read_request};
use size_values::Seq;
use std::alloc::Global;

/// Texts of requests on one connection, and the values of their first If-Match headers.
const TEXTS: &[(&[u8], &[Option<&str>])] = &[
    (b"PUT / HTTP/1.1\nIf-Match: \"a\"\n\n", &[Some("\"a\"")]),
    (
        b"PUT / HTTP/1.1\nHost: a\nif-MATCH:\"a\"\n\n",
        &[Some("\"a\"")],
    ),
    (
        b"PUT / HTTP/1.1\nIf-Match: \"a\", W/\"b\"\n\n",
        &[Some("\"a\", W/\"b\"")],
    ),
    (b"PUT / HTTP/1.1\nIf-Match: *\n\n", &[Some("*")]),
    (b"PUT / HTTP/1.1\r\nIf-Match:\t * \t\r\n\r\n", &[Some("*")]),
    (b"PUT / HTTP/1.1\nIf-Match:\n\n", &[Some("")]),
    // The first of two counts, also where it says nothing.
    (
        b"PUT / HTTP/1.1\nIf-Match: \"a\"\nHost: b\nif-match: \"c\"\n\n",
        &[Some("\"a\"")],
    ),
    (
        b"PUT / HTTP/1.1\nIf-Match:\nIf-Match: \"c\"\n\n",
        &[Some("")],
    ),
    // Bytes past ASCII, whether UTF-8 or not.
    (b"PUT / HTTP/1.1\nIf-Match: \"\xc3\"\n\n", &[Some("")]),
    (b"PUT / HTTP/1.1\nIf-Match: \"\xc3\xa9\"\n\n", &[Some("")]),
    (
        b"PUT / HTTP/1.1\nIf-Match: \xff\nIf-Match: \"c\"\n\n",
        &[Some("")],
    ),
    (b"PUT / HTTP/1.1\nX: \xff\nIf-Match: ~\n\n", &[Some("~")]),
    // None.
    (b"PUT / HTTP/1.1\n\n", &[None]),
    (
        b"PUT /If-Match HTTP/1.1\nIf-None-Match: *\nX-If-Match: *\nHost: If-Match\n\n",
        &[None],
    ),
    (
        b"PUT / HTTP/1.1\nContent-Length: 11\n\nIf-Match: *PUT / HTTP/1.1\nIf-Match: a\n\n",
        &[None, Some("a")],
    ),
    // The head of the request before is known, and one with the header is not the same.
    (
        b"GET / HTTP/1.1\n\nGET / HTTP/1.1\n\nGET / HTTP/1.1\nIf-Match: a\n\nGET / HTTP/1.1\nIf-Match: a\n\nGET / HTTP/1.1\n\n",
        &[None, None, Some("a"), Some("a"), None],
    ),
    (
        b"GET / HTTP/1.1\nIf-Match: a\n\nGET / HTTP/1.1\n\nGET / HTTP/1.1\nIf-Match: a\n\nGET / HTTP/1.1\nIf-Match: b\n\n",
        &[Some("a"), None, Some("a"), Some("b")],
    ),
];

/// Whether the next requests have these values.
fn have(alloc: Global, text: &[u8], wanted: &[Option<&str>]) -> bool {
    let Ok(bytes) = Seq::of_bytes(alloc, text) else {
        return false;
    };
    let mut source = ByteSource::new(bytes, 5, Seq::new(alloc));
    let Ok(mut buffer) = Buffer::new(alloc) else {
        drop(source);
        return false;
    };
    let mut have = true;
    for value in wanted {
        let got = read_request(alloc, &mut buffer, &mut source);
        let has = match &got {
            Got::Request(request) => is_text(&request.if_match, *value),
            _ => false,
        };
        have = have & has;
        drop(got);
    }
    drop(buffer);
    drop(source);
    have
}

#[test]
fn a_request_tells_of_its_first_if_match(rt: HostRuntime) {
    for (number, (text, wanted)) in TEXTS.iter().enumerate() {
        assert!(rt; have(rt.alloc(), text, wanted), "text {number}");
    }
}
