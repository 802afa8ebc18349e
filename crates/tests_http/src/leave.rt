//! Whether the client of the next request waits for leave before it sends the body.

use http_front::{Buffer, ByteSource, Got, Stop, awaits_leave, read_request};
use size_values::Seq;
use std::alloc::Global;

/// Texts, whether leave is awaited, and how many bytes the body has.
const TEXTS: &[(&[u8], bool, usize)] = &[
    (
        b"POST / HTTP/1.1\nExpect: 100-continue\nContent-Length: 2\n\nab",
        true,
        2,
    ),
    // The word in any case, in a list, and in one of several headers.
    (
        b"\r\nPOST / HTTP/1.1\r\nEXPECT:\t100-Continue \r\nContent-Length: 3\r\n\r\nabc",
        true,
        3,
    ),
    (
        b"PUT / HTTP/1.1\nContent-Length: 1\nExpect: a=b , 100-continue\n\na",
        true,
        1,
    ),
    (
        b"PUT / HTTP/1.1\nExpect: a\nContent-Length: 1\nexpect:100-continue\n\na",
        true,
        1,
    ),
    // No body.
    (b"POST / HTTP/1.1\nExpect: 100-continue\n\n", false, 0),
    (
        b"POST / HTTP/1.1\nExpect: 100-continue\nContent-Length: 0\n\n",
        false,
        0,
    ),
    // HTTP/1.0 has no expectations.
    (
        b"POST / HTTP/1.0\nExpect: 100-continue\nContent-Length: 2\n\nab",
        false,
        2,
    ),
    // Other expectations, and other headers.
    (
        b"POST / HTTP/1.1\nExpect: 100-continued\nContent-Length: 2\n\nab",
        false,
        2,
    ),
    (
        b"POST / HTTP/1.1\nExpect: 100 continue\nContent-Length: 2\n\nab",
        false,
        2,
    ),
    (
        b"POST / HTTP/1.1\nExpects: 100-continue\nContent-Length: 2\n\nab",
        false,
        2,
    ),
    (b"POST / HTTP/1.1\nContent-Length: 2\n\nab", false, 2),
    (b"GET / HTTP/1.1\n\n", false, 0),
];

/// Whether the request that was read expects leave so, and has so many bytes of body.
fn expects_as(got: &Got, wanted: bool, body: usize) -> bool {
    match got {
        Got::Request(request) => (request.expects == wanted) & (request.body.len() == body),
        _ => false,
    }
}

/// Whether this is told of the text once its head was read, and by its request afterwards. A byte at a time is read, and
/// so none of the body before it is told.
fn tells(alloc: Global, text: &[u8], wanted: bool, body: usize) -> bool {
    let Ok(bytes) = Seq::of_bytes(alloc, text) else {
        return false;
    };
    let mut source = ByteSource::new(bytes, 1, Seq::new(alloc));
    let Ok(mut buffer) = Buffer::new(alloc) else {
        drop(source);
        return false;
    };
    let told = match awaits_leave(&mut buffer, &mut source, false) {
        Ok(awaited) => awaited == wanted,
        Err(_) => false,
    };
    let head_alone = buffer.view().len() == text.len() - body.min(text.len());
    let got = read_request(alloc, &mut buffer, &mut source);
    let is = told & head_alone & expects_as(&got, wanted, body);
    drop(got);
    drop(buffer);
    drop(source);
    is
}

#[test]
fn leave_is_told_by_a_head(rt: HostRuntime) {
    for (number, (text, wanted, body)) in TEXTS.iter().enumerate() {
        assert!(rt; tells(rt.alloc(), text, *wanted, *body), "text {number}");
    }
}

/// Whether a text in which no head is whole stops so.
fn stops(alloc: Global, text: &[u8], cut: u64) -> bool {
    let Ok(bytes) = Seq::of_bytes(alloc, text) else {
        return false;
    };
    let mut source = ByteSource::new(bytes, 7, Seq::new(alloc));
    let Ok(mut buffer) = Buffer::new(alloc) else {
        drop(source);
        return false;
    };
    let is = match awaits_leave(&mut buffer, &mut source, false) {
        Err(Stop::Cut(held)) => held == cut,
        Err(Stop::End) => cut == 0,
        _ => false,
    };
    drop(buffer);
    drop(source);
    is
}

#[test]
fn an_end_within_a_head_is_told(rt: HostRuntime) {
    assert!(rt; stops(rt.alloc(), b"\r\n\r\n", 0), "a blank end");
    assert!(rt;
        stops(
            rt.alloc(),
            b"POST / HTTP/1.1\nExpect: 100-continue\nContent-Length: 2\n",
            55
        ),
        "a cut head"
    );
}
