//! Texts in the place of a reply, and what is read of them.
use client_replies::{Answer, Metadata, Reading, is_id, read_reply};
use std::alloc::Global;

/// What is to be read.
#[derive(Clone, Copy)]
enum Want {
    Sync(&'static str),
    Async(&'static str, &'static str),
    Error(&'static str, u16, Option<&'static str>),
    Malformed,
    Incomplete,
}

const ROWS: &[(&str, Want)] = &[
    (
        "HTTP/1.1 200 OK\r\nContent-Type: application/json\r\nContent-Length: 84\r\n\r\n{\"metadata\":{\"b\":[1,-2],\"a\":\"x\"},\"status\":\"Success\",\"status_code\":200,\"type\":\"sync\"}",
        Want::Sync("{\"a\":\"x\",\"b\":[1,-2]}"),
    ),
    (
        "HTTP/1.1 200 OK\r\ncontent-LENGTH:   139  \r\n\r\n{\"type\": \"sync\", \"status\": \"Success\", \"status_code\": 200, \"operation\": \"\", \"error_code\": 0, \"error\": \"\", \"metadata\": [\"/1.0/instances/a\"]}\n",
        Want::Sync("[\"/1.0/instances/a\"]"),
    ),
    (
        "HTTP/1.1 202 Accepted\r\nContent-Type: application/json\r\nContent-Length: 171\r\nLocation: /1.0/operations/aaaaaaaa-bbbb-8000-8000-000000000001\r\n\r\n{\"metadata\":{\"id\":\"a\",\"status\":\"Pending\"},\"operation\":\"/1.0/operations/aaaaaaaa-bbbb-8000-8000-000000000001\",\"status\":\"Operation created\",\"status_code\":100,\"type\":\"async\"}",
        Want::Async(
            "/1.0/operations/aaaaaaaa-bbbb-8000-8000-000000000001",
            "{\"id\":\"a\",\"status\":\"Pending\"}",
        ),
    ),
    (
        "HTTP/1.1 404 Not Found\r\nContent-Type: application/json\r\nContent-Length: 84\r\n\r\n{\"error\":\"path is unknown\",\"error_code\":404,\"metadata\":{\"rule\":\"A1\"},\"type\":\"error\"}",
        Want::Error("path is unknown", 404, Some("{\"rule\":\"A1\"}")),
    ),
    (
        "HTTP/1.1 404 Not Found\r\nContent-Type: application/json\r\nContent-Length: 53\r\nConnection: close\r\n\r\n{\"type\":\"error\",\"error\":\"not found\",\"error_code\":404}",
        Want::Error("not found", 404, None),
    ),
    (
        "HTTP/1.1 404\nContent-Length: 53\n\n{\"type\":\"error\",\"error\":\"not found\",\"error_code\":404}",
        Want::Error("not found", 404, None),
    ),
    (
        "HTTP/1.1 200 OK\r\nContent-Type: application/json\r\nContent-Length: 53\r\n\r\n{\"type\":\"error\",\"error\":\"not found\",\"error_code\":404}",
        Want::Malformed,
    ),
    (
        "HTTP/1.1 404 Not Found\r\nContent-Type: application/json\r\nContent-Length: 84\r\n\r\n{\"metadata\":{\"b\":[1,-2],\"a\":\"x\"},\"status\":\"Success\",\"status_code\":200,\"type\":\"sync\"}",
        Want::Malformed,
    ),
    (
        "HTTP/1.1 200 OK\r\nContent-Type: application/json\r\nContent-Length: 171\r\n\r\n{\"metadata\":{\"id\":\"a\",\"status\":\"Pending\"},\"operation\":\"/1.0/operations/aaaaaaaa-bbbb-8000-8000-000000000001\",\"status\":\"Operation created\",\"status_code\":100,\"type\":\"async\"}",
        Want::Malformed,
    ),
    (
        "HTTP/1.1 202 Accepted\r\nContent-Type: application/json\r\nContent-Length: 171\r\n\r\n{\"metadata\":{\"id\":\"a\",\"status\":\"Pending\"},\"operation\":\"/1.0/operations/aaaaaaaa-bbbb-8000-8000-0000000000Z1\",\"status\":\"Operation created\",\"status_code\":100,\"type\":\"async\"}",
        Want::Malformed,
    ),
    (
        "HTTP/1.1 202 Accepted\r\nContent-Type: application/json\r\nContent-Length: 171\r\n\r\n{\"metadata\":{\"id\":\"a\",\"status\":\"Pending\"},\"operation\":\"/1.0/operationz/aaaaaaaa-bbbb-8000-8000-000000000001\",\"status\":\"Operation created\",\"status_code\":100,\"type\":\"async\"}",
        Want::Malformed,
    ),
    (
        "HTTP/1.1 200 OK\r\nContent-Type: application/json\r\nContent-Length: 86\r\n\r\n{\"metadata\":{\"b\":[1,-2.5],\"a\":\"x\"},\"status\":\"Success\",\"status_code\":200,\"type\":\"sync\"}",
        Want::Malformed,
    ),
    (
        "HTTP/1.1 200 OK\r\nContent-Type: application/json\r\nContent-Length: 84\r\n\r\n{\"metadate\":{\"b\":[1,-2],\"a\":\"x\"},\"status\":\"Success\",\"status_code\":200,\"type\":\"sync\"}",
        Want::Malformed,
    ),
    (
        "HTTP/1.1 200 OK\r\nContent-Type: application/json\r\nContent-Length: 84\r\n\r\n{\"metadata\":{\"b\":[1,-2],\"a\":\"x\"},\"status\":\"success\",\"status_code\":200,\"type\":\"sync\"}",
        Want::Malformed,
    ),
    (
        "HTTP/1.1 200 OK\r\nContent-Type: application/json\r\nContent-Length: 84\r\n\r\n{\"metadata\":{\"b\":[1,-2],\"a\":\"x\"},\"status\":\"Success\",\"status_code\":201,\"type\":\"sync\"}",
        Want::Malformed,
    ),
    (
        "HTTP/1.1 200 OK\r\nContent-Type: application/json\r\nContent-Length: 2\r\n\r\n[]",
        Want::Malformed,
    ),
    (
        "HTTP/1.1 200 OK\r\nContent-Type: application/json\r\nContent-Length: 0\r\n\r\n",
        Want::Malformed,
    ),
    (
        "HTTP/1.1 200 OK\r\nContent-Type: application/json\r\nContent-Length: 83\r\n\r\n{\"metadata\":{\"b\":[1,-2],\"a\":\"x\"},\"status\":\"Success\",\"status_code\":200,\"type\":\"sync\"",
        Want::Malformed,
    ),
    (
        "HTTP/1.1 200 OK\r\nContent-Type: application/json\r\nContent-Length: 84\r\nTransfer-Encoding: identity\r\n\r\n{\"metadata\":{\"b\":[1,-2],\"a\":\"x\"},\"status\":\"Success\",\"status_code\":200,\"type\":\"sync\"}",
        Want::Malformed,
    ),
    (
        "HTTP/1.1 200 OK\r\nContent-Type: application/json\r\nContent-Length: 84\r\nContent-Length: 84\r\n\r\n{\"metadata\":{\"b\":[1,-2],\"a\":\"x\"},\"status\":\"Success\",\"status_code\":200,\"type\":\"sync\"}",
        Want::Malformed,
    ),
    (
        "HTTP/1.1 200 OK\r\nContent-Type: application/json\r\n\r\n{\"metadata\":{\"b\":[1,-2],\"a\":\"x\"},\"status\":\"Success\",\"status_code\":200,\"type\":\"sync\"}",
        Want::Malformed,
    ),
    (
        "HTTP/1.1 200 OK\r\nContent-Length: +2\r\n\r\n{}",
        Want::Malformed,
    ),
    (
        "HTTP/1.1 200 OK\r\nContent-Length: 67108865\r\n\r\n",
        Want::Malformed,
    ),
    (
        "HTTP/1.0 200 OK\r\nContent-Length: 67108864\r\n\r\n",
        Want::Malformed,
    ),
    ("HTTP/2 200 OK\r\n", Want::Malformed),
    ("GET / HTTP/1.1\r\n", Want::Malformed),
    ("", Want::Incomplete),
    ("HTTP/1.", Want::Incomplete),
    (
        "HTTP/1.1 200 OK\r\nContent-Length: 67108864\r\n\r\n",
        Want::Incomplete,
    ),
    (
        "HTTP/1.1 200 OK\r\nContent-Length: 2\r\n\r\n{",
        Want::Incomplete,
    ),
    (
        "HTTP/1.1 200 OK\r\nContent-Length: 2\r\n\r",
        Want::Incomplete,
    ),
];

fn is_metadata(alloc: Global, metadata: &Metadata, wanted: &str) -> bool {
    match metadata.text(alloc) {
        Ok(text) => text.view() == wanted,
        Err(_) => false,
    }
}

fn is_kept(alloc: Global, metadata: &Option<Metadata>, wanted: Option<&str>) -> bool {
    match (metadata, wanted) {
        (Some(metadata), Some(wanted)) => is_metadata(alloc, metadata, wanted),
        (None, None) => true,
        _ => false,
    }
}

fn is_answer(alloc: Global, answer: &Answer, want: Want) -> bool {
    match (answer, want) {
        (Answer::Sync { metadata }, Want::Sync(wanted)) => is_metadata(alloc, metadata, wanted),
        (
            Answer::Async {
                operation,
                metadata,
            },
            Want::Async(path, wanted),
        ) => { operation.view() == path && is_metadata(alloc, metadata, wanted) }
        (
            Answer::Error {
                text,
                code,
                metadata,
            },
            Want::Error(wanted, number, kept),
        ) => text.view() == wanted && *code == number && is_kept(alloc, metadata, kept),
        _ => false,
    }
}

/// Whether this is read of the text, which has so many bytes before what follows the reply.
fn reads(alloc: Global, text: &[u8], len: usize, want: Want) -> bool {
    match (read_reply(alloc, text), want) {
        (Ok(Reading::Whole { answer, length }), want) => {
            length == len && is_answer(alloc, &answer, want)
        }
        (Ok(Reading::Malformed), Want::Malformed) => true,
        (Ok(Reading::Incomplete), Want::Incomplete) => true,
        _ => false,
    }
}

#[test]
fn reads_replies(rt: HostRuntime) {
    for (text, want) in ROWS {
        assert!(rt;
            reads(rt.alloc(), text.as_bytes(), text.len(), *want),
            "of {text}"
        );
    }
}

/// Whether the first bytes of a reply are read as a reply that has begun, however many they are.
fn begins(alloc: Global, text: &[u8]) -> bool {
    for len in 0..text.len() {
        if !reads(alloc, &text[..len], 0, Want::Incomplete) {
            return false;
        }
    }
    true
}

#[test]
fn goes_on_until_a_reply_is_whole(rt: HostRuntime) {
    for (text, _) in &ROWS[..6] {
        assert!(rt; begins(rt.alloc(), text.as_bytes()), "of {text}");
    }
}

/// The text with bytes behind it.
fn with_more(alloc: Global, text: &str) -> Option<Vec<u8>> {
    let mut bytes = Vec::new(alloc);
    bytes.extend_from_slice(text.as_bytes()).ok()?;
    bytes.extend_from_slice(b"HTTP/1.1 500").ok()?;
    Some(bytes)
}

#[test]
fn leaves_what_follows_a_reply(rt: HostRuntime) {
    for (text, want) in &ROWS[..6] {
        let is = match with_more(rt.alloc(), text) {
            Some(bytes) => reads(rt.alloc(), &bytes, text.len(), *want),
            None => false,
        };
        assert!(rt; is, "of {text}");
    }
}

/// The text of a member of what a reply tells.
fn member_is(alloc: Global, text: &[u8], key: &str, wanted: &str) -> bool {
    match read_reply(alloc, text) {
        Ok(
            Reading::Whole {
                answer: Answer::Sync { metadata },
                ..
            },
        ) => match metadata.value().get(key) {
            Some(member) => member.as_str() == Some(wanted),
            None => false,
        },
        _ => false,
    }
}

#[test]
fn gives_members(rt: HostRuntime) {
    let (text, _) = ROWS[0];
    assert!(rt; member_is(rt.alloc(), text.as_bytes(), "a", "x"));
}

#[test]
fn tells_ids(rt: HostRuntime) {
    assert!(rt; is_id("0f0e0d0c-0b0a-8908-8706-050403020100"));
    assert!(rt; !is_id("0F0E0D0C-0B0A-8908-8706-050403020100"));
    assert!(rt; !is_id("0f0e0d0c0b0a89088706050403020100"));
}
