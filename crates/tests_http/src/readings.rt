//! Texts, and what is read of them.

use crate::answers::Want::{Cut, End, Last, Malformed, Next, ReadFault};
use crate::answers::{Part, Want, reads_as, reads_in_any_pieces, text_of};
use http_front::{Buffer, ByteSource, Got, HeadFault, Request, read_request};
use size_values::Seq;
use std::alloc::Global;

/// Texts, and what is read of them in any pieces.
const TEXTS: &[(&[u8], &[Want])] = &[
    (b"", &[End]),
    (b"\r\n\n\r", &[End]),
    (b"GET / HTTP/1.1\r\n\r\n", &[Next("GET", "/", 0), End]),
    (b"GET / HTTP/1.1\n\n", &[Next("GET", "/", 0), End]),
    (
        b"GET /a HTTP/1.1\r\nHost: x\n\r\nPUT /b HTTP/1.1\nHost: y\r\n\n",
        &[Next("GET", "/a", 0), Next("PUT", "/b", 0), End],
    ),
    (
        b"\r\r\n\nGET / HTTP/1.1\r\n\r\n\r\n",
        &[Next("GET", "/", 0), End],
    ),
    (
        b"POST /p HTTP/1.1\r\nContent-Length: 3\r\n\r\nabcGET / HTTP/1.1\r\n\r\n",
        &[Next("POST", "/p", 3), Next("GET", "/", 0), End],
    ),
    (
        b"POST /p HTTP/1.1\r\ncontent-LENGTH:\t 03 \r\n\r\nabc",
        &[Next("POST", "/p", 3), End],
    ),
    (
        b"GET / HTTP/1.1\r\nContent-Length: 0\r\n\r\n",
        &[Next("GET", "/", 0), End],
    ),
    // The same head again, others that begin as it does, and it once more.
    (
        b"GET /a HTTP/1.1\r\nA: b\r\n\r\nGET /a HTTP/1.1\r\nA: b\r\n\r\nGET /a HTTP/1.1\r\nA: c\r\n\r\n\nGET /a HTTP/1.1\r\nA: c\r\n\r\n",
        &[A, A, A, A, End],
    ),
    (
        b"GET /a HTTP/1.1\n\nGET /b HTTP/1.1\n\nGET /a HTTP/1.1\n\nGET /a HTTP/1.1\r\n\nGET /a HTTP/1.1\nA: b",
        &[A, B, A, A, Cut(20)],
    ),
    (
        b"POST /a HTTP/1.1\nContent-Length: 1\n\nxPOST /a HTTP/1.1\nContent-Length: 1\n\n\nGET /a HTTP/1.1\n\n",
        &[Next("POST", "/a", 1), Next("POST", "/a", 1), A, End],
    ),
    (
        b"GET /a HTTP/1.1\n\nGET /a HTTP/1.0\n\nGET /a HTTP/1.0\n\nGET /a HTTP/1.1\n\n",
        &[A, Last("GET", "/a", 0), Last("GET", "/a", 0), A, End],
    ),
    (b"GET /a HTTP/1.1\r\n\r\nGET /a HTTP/1.1\r\n", &[A, Cut(17)]),
    (
        b"GET /a HTTP/1.1\n\nGET /a\n\n",
        &[A, Malformed(HeadFault::H1)],
    ),
    // What is no head at all: a version, a space, a colon, a folded line, a lone CR, a NUL, bytes past ASCII.
    (b"GET /\r\n\r\n", &[Malformed(HeadFault::H1)]),
    (b"GET / HTTP/1.2\r\n\r\n", &[Malformed(HeadFault::H1)]),
    (b"GET  / HTTP/1.1\r\n\r\n", &[Malformed(HeadFault::H1)]),
    (
        b"GET / HTTP/1.1\r\nHost\r\n\r\n",
        &[Malformed(HeadFault::H1)],
    ),
    (
        b"GET / HTTP/1.1\r\nHost: x\r\n y\r\n\r\n",
        &[Malformed(HeadFault::H1)],
    ),
    (
        b"GET / HTTP/1.1\r\nHost: x\ry\r\n\r\n",
        &[Malformed(HeadFault::H1)],
    ),
    (
        b"GET / HTTP/1.1\r\nHost: \x00\r\n\r\n",
        &[Malformed(HeadFault::H1)],
    ),
    (b"GET /\xff HTTP/1.1\r\n\r\n", &[Malformed(HeadFault::H1)]),
    (
        b"GET /\xc3\xa9 HTTP/1.1\r\nX: \xff\r\n\r\n",
        &[Next("GET", "/\u{e9}", 0), End],
    ),
    (
        b"G\xc3\xa9T / HTTP/1.1\r\n\r\n",
        &[Malformed(HeadFault::H1)],
    ),
    (
        b"GET / HTTP/1.1\r\n\r\nrubbish\r\n\r\n",
        &[Next("GET", "/", 0), Malformed(HeadFault::H1)],
    ),
    // Rubbish with no empty line is only cut, whatever it is.
    (b"\x00\x01", &[Cut(2)]),
    (b"GET / HTTP/1.1\r\nHost: x\r\n", &[Cut(25)]),
    (b"GET / HTTP/1.1\r\n\r", &[Cut(17)]),
    (b"GET / HTTP/1.1\r\nContent-Length: 2\r\n\r\na", &[Cut(38)]),
    (
        b"GET / HTTP/1.1\n\nPOST / HTTP/1.1\nContent-Length: 10\n\nabcd",
        &[Next("GET", "/", 0), Cut(40)],
    ),
    // Lengths.
    (
        b"POST / HTTP/1.1\r\nContent-Length: 3\r\nContent-Length: 4\r\n\r\nabc",
        &[Malformed(HeadFault::H3)],
    ),
    (
        b"POST / HTTP/1.1\r\nContent-Length: 3\r\ncontent-length: 3\r\n\r\nabc",
        &[Malformed(HeadFault::H3)],
    ),
    (
        b"POST / HTTP/1.1\r\nContent-Length: 3, 3\r\n\r\nabc",
        &[Malformed(HeadFault::H3)],
    ),
    (
        b"POST / HTTP/1.1\r\nContent-Length: +3\r\n\r\nabc",
        &[Malformed(HeadFault::H3)],
    ),
    (
        b"POST / HTTP/1.1\r\nContent-Length:\r\n\r\nabc",
        &[Malformed(HeadFault::H3)],
    ),
    (
        b"POST / HTTP/1.1\r\nTransfer-Encoding: chunked\r\n\r\n0\r\n\r\n",
        &[Malformed(HeadFault::H3)],
    ),
    (
        b"POST / HTTP/1.1\r\nTRANSFER-encoding:\r\nContent-Length: 9999999\r\n\r\n",
        &[Malformed(HeadFault::H3)],
    ),
    (
        b"POST / HTTP/1.1\r\nContent-Length: 1048577\r\n\r\n",
        &[Malformed(HeadFault::H4)],
    ),
    (
        b"POST / HTTP/1.1\r\nContent-Length: 9999999999999999999\r\n\r\n",
        &[Malformed(HeadFault::H4)],
    ),
    (
        b"POST / HTTP/1.1\r\nContent-Length: 00000000000000000003\r\n\r\nabc",
        &[Malformed(HeadFault::H3)],
    ),
    (
        b"POST / HTTP/1.1\r\nContent-Length: 0000000000000000003\r\n\r\nabc",
        &[Next("POST", "/", 3), End],
    ),
    // The last request of a connection.
    (b"GET / HTTP/1.0\r\n\r\n", &[Last("GET", "/", 0), End]),
    (
        b"GET / HTTP/1.1\r\nConnection: keep-alive,\t CLOSE \r\n\r\n",
        &[Last("GET", "/", 0), End],
    ),
    (
        b"GET / HTTP/1.1\r\nConnection: a\r\nconnection: b,Close,c\r\n\r\n",
        &[Last("GET", "/", 0), End],
    ),
    (
        b"GET / HTTP/1.1\r\nConnection: close-not, clo se, \"close\"\r\nX: close\r\n\r\n",
        &[Next("GET", "/", 0), End],
    ),
    (
        b"GET / HTTP/1.1\r\nConnection:\r\n\r\n",
        &[Next("GET", "/", 0), End],
    ),
];

const ROOT: &[Want] = &[Next("GET", "/", 0), End];

const TOO_LONG: &[Want] = &[Malformed(HeadFault::H2)];

const LINE: &[u8] = b"GET / HTTP/1.1\r\n";

/// Long texts by their parts, and what is read of them in any pieces. A head is at most 16,384 bytes long with the line
/// bytes before it, and has at most 64 headers. A body is at most 1,048,576 bytes long.
const LONG_TEXTS: &[(&[Part], &[Want])] = &[
    (
        &[(LINE, 1), (b"B:", 1), (b"b", 16_362), (b"\r\n\r\n", 1)],
        ROOT,
    ),
    (
        &[(LINE, 1), (b"B:", 1), (b"b", 16_363), (b"\r\n\r\n", 1)],
        TOO_LONG,
    ),
    (
        &[
            (b"\n", 5_000),
            (LINE, 1),
            (b"B:", 1),
            (b"b", 11_362),
            (b"\r\n\r\n", 1),
        ],
        ROOT,
    ),
    (
        &[
            (b"\n", 5_000),
            (LINE, 1),
            (b"B:", 1),
            (b"b", 11_363),
            (b"\r\n\r\n", 1),
        ],
        TOO_LONG,
    ),
    (
        &[
            (b"\n", 16_383),
            (LINE, 1),
            (b"B:", 1),
            (b"b", 3_595),
            (b"\r\n\r\n", 1),
        ],
        TOO_LONG,
    ),
    (
        &[
            (LINE, 1),
            (b"A:\r\n", 63),
            (b"B:", 1),
            (b"b", 1_726),
            (b"\r\n\r\n", 1),
        ],
        ROOT,
    ),
    (
        &[
            (LINE, 1),
            (b"A:\r\n", 64),
            (b"B:", 1),
            (b"b", 1_722),
            (b"\r\n\r\n", 1),
        ],
        &[Malformed(HeadFault::H1)],
    ),
    // Bytes without an empty line.
    (&[(b"\r", 16_383)], &[End]),
    (&[(b"\r", 16_384)], TOO_LONG),
    (&[(b"\r", 16_385)], TOO_LONG),
    (&[(b"x", 16_383)], &[Cut(16_383)]),
    (&[(b"x", 16_384)], TOO_LONG),
    (&[(b"x", 16_385)], TOO_LONG),
    // The longest body, and one more request.
    (
        &[
            (b"PUT / HTTP/1.1\r\nContent-Length: 1048576\r\n\r\n", 1),
            (b"z", 1_048_576),
            (b"GET / HTTP/1.1\r\n\r\n", 1),
        ],
        &[Next("PUT", "/", 1_048_576), Next("GET", "/", 0), End],
    ),
];

fn reads_parts_as(alloc: Global, parts: &[Part], wants: &[Want]) -> bool {
    let Ok(text) = text_of(alloc, parts) else {
        return false;
    };
    let is = reads_in_any_pieces(alloc, text.view(), wants);
    drop(text);
    is
}

#[test]
fn reads_texts_in_any_pieces(rt: HostRuntime) {
    for (number, (text, wants)) in TEXTS.iter().enumerate() {
        assert!(rt;
            reads_in_any_pieces(rt.alloc(), text, wants),
            "text {number}"
        );
    }
}

#[test]
fn reads_long_texts_in_any_pieces(rt: HostRuntime) {
    for (number, (parts, wants)) in LONG_TEXTS.iter().enumerate() {
        assert!(rt; reads_parts_as(rt.alloc(), parts, wants), "text {number}");
    }
}

const HELLO: &[u8] = b"\nPOST /a HTTP/1.1\r\nContent-Length: 5\r\n\r\nhello";

/// Whether a body that is cut is told as cut, at every byte of its request.
fn is_cut_at_every_byte(alloc: Global) -> bool {
    let mut all = true;
    for end in 0..HELLO.len() {
        let want = if end < 2 { End } else { Cut(end as u64) };
        all &= reads_in_any_pieces(alloc, &HELLO[..end], &[want]);
    }
    all
}

const TWO: &[u8] =
    b"\r\nPOST /p?q=%20 HTTP/1.1\r\nContent-Length: 4\r\n\r\na\x00\xffbGET / HTTP/1.1\r\n\r\n";

fn is_first_of_two(request: &Request) -> bool {
    (request.method.view() == "POST")
        & (request.target.view() == "/p?q=%20")
        & (request.body.view() == b"a\x00\xffb".as_slice())
        & !request.last
}

/// Whether the first request is taken whole, and only bytes of the second one are held then.
fn takes_first_of_two(alloc: Global, source: &mut ByteSource) -> bool {
    let Ok(mut buffer) = Buffer::new(alloc) else {
        return false;
    };
    let got = read_request(alloc, &mut buffer, source);
    let is = match &got {
        Got::Request(request) => is_first_of_two(request),
        _ => false,
    };
    drop(got);
    let holds = b"GET / HTTP/1.1\r\n\r\n".starts_with(buffer.view());
    drop(buffer);
    is & holds
}

fn takes_first_in_threes(alloc: Global) -> bool {
    let Ok(bytes) = Seq::of_bytes(alloc, TWO) else {
        return false;
    };
    let mut source = ByteSource::new(bytes, 3, Seq::new(alloc));
    let takes = takes_first_of_two(alloc, &mut source);
    drop(source);
    takes
}

const PAIR: &[u8] = b"GET /a HTTP/1.1\r\n\r\nGET /b HTTP/1.1\r\n\r\n";

const A: Want = Next("GET", "/a", 0);

const B: Want = Next("GET", "/b", 0);

/// The read that fails, where the text comes in pieces of ten bytes, what is read, and how many reads fail.
const FAILING: &[(u64, &[Want], u64)] = &[
    (1, &[ReadFault], 1),
    (2, &[ReadFault], 1),
    (3, &[A, ReadFault], 1),
    (4, &[A, ReadFault], 1),
    (5, &[A, B, ReadFault], 1),
    (6, &[A, B, End], 0),
];

/// Whether reads fail at the listed calls.
fn fails_as_listed(alloc: Global) -> bool {
    let mut all = true;
    for (number, wants, faults) in FAILING {
        all &= reads_as(alloc, PAIR, 10, &[*number], wants, *faults);
    }
    all
}

#[test]
fn takes_what_stands_there(rt: HostRuntime) {
    assert!(rt; takes_first_in_threes(rt.alloc()));
    assert!(rt; is_cut_at_every_byte(rt.alloc()));
    assert!(rt; fails_as_listed(rt.alloc()));
}
