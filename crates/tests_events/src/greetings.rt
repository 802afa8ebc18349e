//! The handshake and what answers it. The key and what accepts it are those of RFC 6455, section 1.3.
use client_events::{Greeting, handshake_for, read_greeting};
use std::alloc::Global;

const HANDSHAKE: &str =
    "GET /1.0/events?project=lab HTTP/1.1\r\nHost: localhost\r\nConnection: Upgrade\r\nUpgrade: websocket\r\nSec-WebSocket-Version: 13\r\nSec-WebSocket-Key: dGhlIHNhbXBsZSBub25jZQ==\r\n\r\n";

const ACCEPTED: &str =
    "HTTP/1.1 101 Switching Protocols\r\nUpgrade: websocket\r\nConnection: Upgrade\r\nSec-WebSocket-Accept: s3pPLMBiTxaQ9kYGzzhZRbK+xOo=\r\n\r\n";

const OTHER_KEY: &str =
    "HTTP/1.1 101 Switching Protocols\r\nUpgrade: websocket\r\nConnection: Upgrade\r\nSec-WebSocket-Accept: s3pPLMBiTxaQ9kYGzzhZRbK+xOp=\r\n\r\n";

const REFUSED: &str = "HTTP/1.1 400 Bad Request\r\nContent-Length: 0\r\n\r\n";

fn asks(alloc: Global) -> bool {
    match handshake_for(alloc, "lab") {
        Ok(text) => {
            let is = text.view() == HANDSHAKE;
            drop(text);
            is
        }
        Err(_) => false,
    }
}

#[test]
fn asks_for_events(rt: HostRuntime) {
    assert!(rt; asks(rt.alloc()));
}

#[test]
fn reads_what_answers(rt: HostRuntime) {
    let alloc = rt.alloc();
    let accepted = Ok(Greeting::Accepted {
        len: ACCEPTED.len(),
    });
    assert!(rt; read_greeting(alloc, ACCEPTED.as_bytes()) == accepted);
    assert!(rt; read_greeting(alloc, &ACCEPTED.as_bytes()[..60]) == Ok(Greeting::Begun));
    assert!(rt; read_greeting(alloc, OTHER_KEY.as_bytes()) == Ok(Greeting::Other));
    assert!(rt; read_greeting(alloc, REFUSED.as_bytes()) == Ok(Greeting::Other));
    assert!(rt; read_greeting(alloc, b"HTTP/2\r\n") == Ok(Greeting::Other));
}
