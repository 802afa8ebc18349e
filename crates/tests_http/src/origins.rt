//! Whether a request has a header `Origin`, and what its refusal does to leave.

use http_front::{Buffer, ByteSource, Got, awaits_leave, read_request};
use size_values::Seq;
use std::alloc::Global;

/// Texts of requests on one connection, and which of them have the header.
const TEXTS: &[(&[u8], &[bool])] = &[
    (b"GET / HTTP/1.1\nOrigin: http://a\n\n", &[true]),
    (b"GET / HTTP/1.1\norigin:null\n\n", &[true]),
    (b"GET / HTTP/1.1\nhost: a\nORIGIN:\n\n", &[true]),
    (b"GET / HTTP/1.1\noRiGiN: a\nOrigin: b\n\n", &[true]),
    (b"GET / HTTP/1.1\n\n", &[false]),
    (
        b"GET / HTTP/1.1\nOrigins: a\nX-Origin: b\nHost: Origin\n\n",
        &[false],
    ),
    (b"GET /Origin HTTP/1.1\nReferer: Origin: a\n\n", &[false]),
    (b"POST / HTTP/1.1\nContent-Length: 9\n\nOrigin: a", &[false]),
    // The head of the request before is known, and one with the header is not the same.
    (
        b"GET / HTTP/1.1\n\nGET / HTTP/1.1\n\nGET / HTTP/1.1\nOrigin: a\n\nGET / HTTP/1.1\nOrigin: a\n\nGET / HTTP/1.1\n\n",
        &[false, false, true, true, false],
    ),
];

/// Whether the next requests have the header so.
fn have(alloc: Global, text: &[u8], wanted: &[bool]) -> bool {
    let Ok(bytes) = Seq::of_bytes(alloc, text) else {
        return false;
    };
    let mut source = ByteSource::new(bytes, 5, Seq::new(alloc));
    let Ok(mut buffer) = Buffer::new(alloc) else {
        drop(source);
        return false;
    };
    let mut have = true;
    for origin in wanted {
        let got = read_request(alloc, &mut buffer, &mut source);
        let has = match &got {
            Got::Request(request) => request.origin == *origin,
            _ => false,
        };
        have = have & has;
        drop(got);
    }
    drop(buffer);
    drop(source);
    have
}

#[test]
fn a_request_tells_of_its_origin(rt: HostRuntime) {
    for (number, (text, wanted)) in TEXTS.iter().enumerate() {
        assert!(rt; have(rt.alloc(), text, wanted), "text {number}");
    }
}

const PAGE: &[u8] = b"POST / HTTP/1.1\nExpect: 100-continue\norigin: a\nContent-Length: 2\n\nab";

const OTHER: &[u8] = b"POST / HTTP/1.1\nExpect: 100-continue\nContent-Length: 2\n\nab";

/// Whether leave is due by this head, where requests with the header are refused or not.
fn is_due(alloc: Global, text: &[u8], refuses_origin: bool) -> Option<bool> {
    let bytes = Seq::of_bytes(alloc, text).ok()?;
    let mut source = ByteSource::new(bytes, 1, Seq::new(alloc));
    let Ok(mut buffer) = Buffer::new(alloc) else {
        drop(source);
        return None;
    };
    let told = awaits_leave(&mut buffer, &mut source, refuses_origin).ok();
    drop(buffer);
    drop(source);
    told
}

#[test]
fn a_refused_origin_gets_no_leave(rt: HostRuntime) {
    let alloc = rt.alloc();
    assert!(rt; is_due(alloc, PAGE, true) == Some(false), "a page, refused");
    assert!(rt; is_due(alloc, PAGE, false) == Some(true), "a page, taken");
    assert!(rt; is_due(alloc, OTHER, true) == Some(true), "no page");
}
