//! Heads, and the key of the WebSocket handshake that each of them asks for.

use crate::answers::{Want, is_text, reads_as};
use http_heads::{HeaderSpans, SpareTexts, read_head};
use size_values::Text;
use std::alloc::Global;

/// The key in the example of RFC 6455, section 1.3.
const NONCE: Option<&str> = Some("dGhlIHNhbXBsZSBub25jZQ==");

/// Heads, and the keys that they ask by.
const HEADS: &[(&[u8], Option<&str>)] = &[
    (
        b"GET /1.0/events HTTP/1.1\nUpgrade: websocket\nConnection: Upgrade\n\
        Sec-WebSocket-Version: 13\nSec-WebSocket-Key: dGhlIHNhbXBsZSBub25jZQ==\n\n",
        NONCE,
    ),
    // The order of the headers counts for nothing, nor do others.
    (
        b"GET /1.0/events HTTP/1.1\nSec-WebSocket-Key: dGhlIHNhbXBsZSBub25jZQ==\n\
        Sec-WebSocket-Version: 13\nConnection: Upgrade\nUpgrade: websocket\n\n",
        NONCE,
    ),
    (
        b"GET / HTTP/1.1\nHost: x\nUpgrade: websocket\nConnection: Upgrade\n\
        Sec-WebSocket-Version: 13\nSec-WebSocket-Key: dGhlIHNhbXBsZSBub25jZQ==\n\n",
        NONCE,
    ),
    // Each part missing once.
    (
        b"GET /1.0/events HTTP/1.1\nConnection: Upgrade\nSec-WebSocket-Version: 13\n\
        Sec-WebSocket-Key: dGhlIHNhbXBsZSBub25jZQ==\n\n",
        None,
    ),
    (
        b"GET /1.0/events HTTP/1.1\nUpgrade: websocket\nSec-WebSocket-Version: 13\n\
        Sec-WebSocket-Key: dGhlIHNhbXBsZSBub25jZQ==\n\n",
        None,
    ),
    (
        b"GET /1.0/events HTTP/1.1\nUpgrade: websocket\nConnection: Upgrade\n\
        Sec-WebSocket-Key: dGhlIHNhbXBsZSBub25jZQ==\n\n",
        None,
    ),
    (
        b"GET /1.0/events HTTP/1.1\nUpgrade: websocket\nConnection: Upgrade\n\
        Sec-WebSocket-Version: 13\n\n",
        None,
    ),
    // Another method, and HTTP/1.0.
    (
        b"POST / HTTP/1.1\nUpgrade: websocket\nConnection: Upgrade\n\
        Sec-WebSocket-Version: 13\nSec-WebSocket-Key: dGhlIHNhbXBsZSBub25jZQ==\n\n",
        None,
    ),
    (
        b"get / HTTP/1.1\nUpgrade: websocket\nConnection: Upgrade\nSec-WebSocket-Version: 13\n\
        Sec-WebSocket-Key: dGhlIHNhbXBsZSBub25jZQ==\n\n",
        None,
    ),
    (
        b"GETS / HTTP/1.1\nUpgrade: websocket\nConnection: Upgrade\n\
        Sec-WebSocket-Version: 13\nSec-WebSocket-Key: dGhlIHNhbXBsZSBub25jZQ==\n\n",
        None,
    ),
    (
        b"GET / HTTP/1.0\nUpgrade: websocket\nConnection: Upgrade\nSec-WebSocket-Version: 13\n\
        Sec-WebSocket-Key: dGhlIHNhbXBsZSBub25jZQ==\n\n",
        None,
    ),
    // Words in any case, and in lists.
    (
        b"GET /1.0/events HTTP/1.1\nUPGRADE:WebSocket\nconnection: UPGRADE\n\
        Sec-WebSocket-Version: 13\nSec-WebSocket-Key: dGhlIHNhbXBsZSBub25jZQ==\n\n",
        NONCE,
    ),
    (
        b"GET /1.0/events HTTP/1.1\nUpgrade: h2c,\t websocket \nConnection: Upgrade\n\
        Sec-WebSocket-Version: 13\nSec-WebSocket-Key: dGhlIHNhbXBsZSBub25jZQ==\n\n",
        NONCE,
    ),
    (
        b"GET /1.0/events HTTP/1.1\nUpgrade: h2c\nUpgrade: websocket\nConnection: Upgrade\n\
        Sec-WebSocket-Version: 13\nSec-WebSocket-Key: dGhlIHNhbXBsZSBub25jZQ==\n\n",
        NONCE,
    ),
    (
        b"GET /1.0/events HTTP/1.1\nUpgrade: websocket\nConnection: keep-alive, Upgrade\n\
        Sec-WebSocket-Version: 13\nSec-WebSocket-Key: dGhlIHNhbXBsZSBub25jZQ==\n\n",
        NONCE,
    ),
    (
        b"GET /1.0/events HTTP/1.1\nUpgrade: websocket\nConnection: a\nConnection: upgrade,b\n\
        Sec-WebSocket-Version: 13\nSec-WebSocket-Key: dGhlIHNhbXBsZSBub25jZQ==\n\n",
        NONCE,
    ),
    (
        b"GET /1.0/events HTTP/1.1\nUpgrade: websockets\nConnection: Upgrade\n\
        Sec-WebSocket-Version: 13\nSec-WebSocket-Key: dGhlIHNhbXBsZSBub25jZQ==\n\n",
        None,
    ),
    (
        b"GET /1.0/events HTTP/1.1\nUpgrade: websocket/13\nConnection: Upgrade\n\
        Sec-WebSocket-Version: 13\nSec-WebSocket-Key: dGhlIHNhbXBsZSBub25jZQ==\n\n",
        None,
    ),
    (
        b"GET /1.0/events HTTP/1.1\nUpgrade: \"websocket\"\nConnection: Upgrade\n\
        Sec-WebSocket-Version: 13\nSec-WebSocket-Key: dGhlIHNhbXBsZSBub25jZQ==\n\n",
        None,
    ),
    (
        b"GET /1.0/events HTTP/1.1\nUpgrade: web socket\nConnection: Upgrade\n\
        Sec-WebSocket-Version: 13\nSec-WebSocket-Key: dGhlIHNhbXBsZSBub25jZQ==\n\n",
        None,
    ),
    (
        b"GET /1.0/events HTTP/1.1\nUpgrade: websocket\nConnection: upgrades\n\
        Sec-WebSocket-Version: 13\nSec-WebSocket-Key: dGhlIHNhbXBsZSBub25jZQ==\n\n",
        None,
    ),
    (
        b"GET /1.0/events HTTP/1.1\nUpgrade: websocket\nConnection: websocket\n\
        Sec-WebSocket-Version: 13\nSec-WebSocket-Key: dGhlIHNhbXBsZSBub25jZQ==\n\n",
        None,
    ),
    (
        b"GET /1.0/events HTTP/1.1\nConnection: websocket\nUpgrade: upgrade\n\
        Sec-WebSocket-Version: 13\nSec-WebSocket-Key: dGhlIHNhbXBsZSBub25jZQ==\n\n",
        None,
    ),
    // One version, and it is 13.
    (
        b"GET /1.0/events HTTP/1.1\nUpgrade: websocket\nConnection: Upgrade\n\
        sec-websocket-VERSION:\t13 \nSec-WebSocket-Key: dGhlIHNhbXBsZSBub25jZQ==\n\n",
        NONCE,
    ),
    (
        b"GET /1.0/events HTTP/1.1\nUpgrade: websocket\nConnection: Upgrade\n\
        Sec-WebSocket-Version: 8\nSec-WebSocket-Key: dGhlIHNhbXBsZSBub25jZQ==\n\n",
        None,
    ),
    (
        b"GET /1.0/events HTTP/1.1\nUpgrade: websocket\nConnection: Upgrade\n\
        Sec-WebSocket-Version: 013\nSec-WebSocket-Key: dGhlIHNhbXBsZSBub25jZQ==\n\n",
        None,
    ),
    (
        b"GET /1.0/events HTTP/1.1\nUpgrade: websocket\nConnection: Upgrade\n\
        Sec-WebSocket-Version: 13, 8\nSec-WebSocket-Key: dGhlIHNhbXBsZSBub25jZQ==\n\n",
        None,
    ),
    (
        b"GET /1.0/events HTTP/1.1\nSec-WebSocket-Version: 13\nUpgrade: websocket\n\
        Connection: Upgrade\nSec-WebSocket-Version: 13\n\
        Sec-WebSocket-Key: dGhlIHNhbXBsZSBub25jZQ==\n\n",
        None,
    ),
    // One key, and it spells 16 bytes.
    (
        b"GET /1.0/events HTTP/1.1\nUpgrade: websocket\nConnection: Upgrade\n\
        Sec-WebSocket-Version: 13\nSEC-WEBSOCKET-KEY: AB+/xyz0189AAAAAAAAAAA==\n\n",
        Some("AB+/xyz0189AAAAAAAAAAA=="),
    ),
    (
        b"GET /1.0/events HTTP/1.1\nSec-WebSocket-Key: dGhlIHNhbXBsZSBub25jZQ==\n\
        Upgrade: websocket\nConnection: Upgrade\nSec-WebSocket-Version: 13\n\
        Sec-WebSocket-Key: dGhlIHNhbXBsZSBub25jZQ==\n\n",
        None,
    ),
    (
        b"GET /1.0/events HTTP/1.1\nUpgrade: websocket\nConnection: Upgrade\n\
        Sec-WebSocket-Version: 13\nSec-WebSocket-Key: dGhlIHNhbXBsZSBub25jZ==\n\n",
        None,
    ),
    (
        b"GET /1.0/events HTTP/1.1\nUpgrade: websocket\nConnection: Upgrade\n\
        Sec-WebSocket-Version: 13\nSec-WebSocket-Key: dGhlIHNhbXBsZSBub25jZQAA==\n\n",
        None,
    ),
    (
        b"GET /1.0/events HTTP/1.1\nUpgrade: websocket\nConnection: Upgrade\n\
        Sec-WebSocket-Version: 13\nSec-WebSocket-Key: dGhlIHNhbXBsZSBub25jZQ\n\n",
        None,
    ),
    (
        b"GET /1.0/events HTTP/1.1\nUpgrade: websocket\nConnection: Upgrade\n\
        Sec-WebSocket-Version: 13\nSec-WebSocket-Key: dGhlIHNhbXBsZSBub25jZQ=A\n\n",
        None,
    ),
    (
        b"GET /1.0/events HTTP/1.1\nUpgrade: websocket\nConnection: Upgrade\n\
        Sec-WebSocket-Version: 13\nSec-WebSocket-Key: dGhlIHNhbXBsZSBub25jZQA=\n\n",
        None,
    ),
    (
        b"GET /1.0/events HTTP/1.1\nUpgrade: websocket\nConnection: Upgrade\n\
        Sec-WebSocket-Version: 13\nSec-WebSocket-Key: dGhlIHNhbXBs-SBub25jZQ==\n\n",
        None,
    ),
    (
        b"GET /1.0/events HTTP/1.1\nUpgrade: websocket\nConnection: Upgrade\n\
        Sec-WebSocket-Version: 13\nSec-WebSocket-Key: dGhlIHNhbXBs SBub25jZQ==\n\n",
        None,
    ),
    (
        b"GET /1.0/events HTTP/1.1\nUpgrade: websocket\nConnection: Upgrade\n\
        Sec-WebSocket-Version: 13\nSec-WebSocket-Key:\n\n",
        None,
    ),
    (
        b"GET /1.0/events HTTP/1.1\nUpgrade: websocket\nConnection: Upgrade\n\
        Sec-WebSocket-Version: 13\nSec-WebSocket-Key: dGhlIHNhbXBsZSBub25jZ\xc3\xa9==\n\n",
        None,
    ),
];

/// Whether what is read of the head tells this key.
fn head_tells(alloc: Global, text: &[u8], wanted: Option<&str>) -> bool {
    let Ok(mut places) = HeaderSpans::new(alloc) else {
        return false;
    };
    let mut spare = SpareTexts {
        method: Text::new(alloc),
        target: Text::new(alloc),
    };
    let head = read_head(alloc, text, &mut places, &mut spare);
    let tells = match &head {
        Ok(head) => is_text(&head.upgrade, wanted),
        Err(_) => false,
    };
    drop(head);
    tells
}

/// Whether what is read of the head tells this key, and the request with the head has it.
fn asks_by(alloc: Global, text: &[u8], wanted: Option<&'static str>) -> bool {
    head_tells(alloc, text, wanted) & reads_as(alloc, text, 7, &[], &[Want::Key(wanted)], 0)
}

#[test]
fn heads_ask_for_the_websocket_protocol(rt: HostRuntime) {
    for (number, (text, wanted)) in HEADS.iter().enumerate() {
        assert!(rt; asks_by(rt.alloc(), text, *wanted), "head {number}");
    }
}
