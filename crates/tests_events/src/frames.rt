//! Frames of a server, some of them those of RFC 6455, section 5.7.
use client_events::{EventForm, Heard, next_heard};
use std::alloc::Global;

const STARTED: &str =
    "{\"metadata\":{\"action\":\"instance-started\",\"source\":\"/1.0/instances/a\"},\"project\":\"lab\",\"timestamp\":\"T\",\"type\":\"lifecycle\"}";

const CREATING: &str =
    "{\"metadata\":{\"description\":\"Creating\",\"id\":\"7\",\"status\":\"Running\"},\"timestamp\":\"T\",\"type\":\"operation\"}";

const LOGGED: &str = "{\"metadata\":{\"message\":\"x\"},\"timestamp\":\"T\",\"type\":\"logging\"}";

/// A frame of text of up to 125 bytes, not masked, with the first byte of another one behind it.
fn text_frame(alloc: Global, text: &str) -> Option<Vec<u8>> {
    let mut bytes = Vec::new(alloc);
    bytes.push(129).ok()?;
    if text.len() < 126 {
        bytes.push(text.len() as u8).ok()?;
    } else {
        return None;
    }
    bytes.extend_from_slice(text.as_bytes()).ok()?;
    bytes.push(129).ok()?;
    Some(bytes)
}

/// Whether bytes begin with a frame of which this is printed, to which this is answered, and that has this length.
fn heard(
    alloc: Global,
    form: EventForm,
    bytes: &[u8],
    wanted: (&[u8], &[u8], bool, usize),
) -> bool {
    match next_heard(alloc, form, bytes) {
        Ok(
            Heard::Whole {
                line,
                answer,
                is_last,
                length,
            },
        ) => {
            let is = line.view() == wanted.0
                && answer.view() == wanted.1
                && is_last == wanted.2
                && length == wanted.3;
            drop(line);
            drop(answer);
            is
        }
        _ => false,
    }
}

/// Whether an event is printed so.
fn prints(alloc: Global, form: EventForm, text: &str, line: &str) -> bool {
    match text_frame(alloc, text) {
        Some(bytes) => {
            let len = text.len().saturating_add(2);
            heard(alloc, form, &bytes, (line.as_bytes(), &[], false, len))
        }
        None => false,
    }
}

#[test]
fn prints_events(rt: HostRuntime) {
    let alloc = rt.alloc();
    let form = EventForm::Columns;
    assert!(rt;
        prints(
            alloc,
            form,
            STARTED,
            "T lifecycle lab instance-started /1.0/instances/a\n"
        )
    );
    assert!(rt; prints(alloc, form, CREATING, "T operation - 7 Running Creating\n"));
    assert!(rt; prints(alloc, form, LOGGED, "T logging - -\n"));
    assert!(rt; !prints(alloc, form, "{\"type\":\"operation\"}", ""));
}

#[test]
fn answers_frames(rt: HostRuntime) {
    let alloc = rt.alloc();
    let form = EventForm::AsSent;
    // A ping with `Hello`, and a pong with the mask and the payload of RFC 6455, section 5.7.
    let pong = b"\x8a\x85\x37\xfa\x21\x3d\x7f\x9f\x4d\x51\x58";
    assert!(rt; heard(alloc, form, b"\x89\x05Hello", (b"", pong, false, 7)));
    assert!(rt; heard(alloc, form, b"\x8a\x00more", (b"", b"", false, 2)));
    // The code 1001, under the mask.
    let close = b"\x88\x82\x37\xfa\x21\x3d\x34\x13";
    assert!(rt; heard(alloc, form, b"\x88\x02\x03\xe9", (b"", close, true, 4)));
}

fn is_begun(alloc: Global, bytes: &[u8]) -> bool {
    matches!(
        next_heard(alloc, EventForm::AsSent, bytes),
        Ok(Heard::Begun)
    )
}

fn is_malformed(alloc: Global, bytes: &[u8]) -> bool {
    matches!(
        next_heard(alloc, EventForm::AsSent, bytes),
        Ok(Heard::Malformed)
    )
}

#[test]
fn waits_for_whole_frames(rt: HostRuntime) {
    let alloc = rt.alloc();
    assert!(rt; is_begun(alloc, b""));
    assert!(rt; is_begun(alloc, b"\x89"));
    assert!(rt; is_begun(alloc, b"\x89\x05Hell"));
    // A masked ping, a ping in two fragments, one with an extension, bytes, and a text that is no event.
    assert!(rt; is_malformed(alloc, b"\x89\x80\x00\x00\x00\x00"));
    assert!(rt; is_malformed(alloc, b"\x09\x00"));
    assert!(rt; is_malformed(alloc, b"\xc9\x00"));
    assert!(rt; is_malformed(alloc, b"\x82\x01x"));
    assert!(rt; is_malformed(alloc, b"\x81\x02{}"));
}
