//! The frames of a client in an event session.
ghost use Rattle.std.specs.Prelude.{◌≡◌, ◌≤◌, ◌+◌, ℕ, [], drop, vec_len};
ghost use Rattle.gates.specs.Gates.{Seen};
ghost use Rattle.gates.specs.rest_answers.specs.Links.{outlet};
ghost use Rattle.records.specs.declared.notices.Filter.{Filter as FilterValue};
ghost use Rattle.std.specs.Prelude.{List, Some};
ghost use Rattle.httparse.specs.Spans.{span_bytes};
ghost use Rattle.websocket.specs.Frame.{IsInside};
ghost use Rattle.websocket.specs.Mask.{apply_mask_if};
ghost use Rattle.rest_json.specs.declared.terms.Terms.{Terms as TermsValue};
ghost use Rattle.serve_loop.specs.ClientFrames.{Next, answer_at, refusal, rest_at, whole};
ghost use Rattle.serve_loop.specs.Listening.{Answered, GoesOn, event_world, post_after};
ghost use Rattle.serve_loop.specs.Sessions.{hearing};
ghost use Rattle.serve_loop.specs.Sources.{Feed};
ghost use Rattle.serve_loop.specs.declared.answering.FrameAnswer.TheVariants as reply;

use crate::answering::{
    FrameAnswer, MOST_PAYLOAD, PROTOCOL_ERROR, TOO_LONG, answer_to, payload_of, send_answer,
};
use crate::listening::{ListenState, SessionPost, after_sending, end_after_sending};
use crate::session::SessionEnd;
use gates::Written;
use http_front::Sink;
use std::alloc::Global;
use websocket::error::Error;
use websocket::protocol::frame::{FrameStatus, RawFrame, read_frame};

/// Lets go of the bytes before `start`.
fn keep_from(bytes: &mut Vec<u8>, start: usize)
    requires { start ≤ vec_len bytes.old }
    ensures { bytes.new.items ≡ drop start bytes.old.items }
{
    let len = bytes.len() - start;
    bytes.copy_within(start.., 0);
    bytes.truncate(len);
}

/// What a session has to do next once an answer was written so.
fn post_after(written: Written, answer: FrameAnswer, cursor: u64) -> ListenState
    ensures { result ≡ post_after written answer cursor }
{
    match answer {
        FrameAnswer::Close(code) => {
            ListenState::Over(end_after_sending(written, SessionEnd::Closed(code)))
        }
        FrameAnswer::Nothing | FrameAnswer::Pong => {
            after_sending(written, SessionPost::Hearing(cursor))
        }
    }
}

/// Answers a whole frame at the front of the bytes that came, and lets go of it.
fn hear_frame<K: Sink>(
    alloc: Global,
    sink: &mut K,
    held: &mut Vec<u8>,
    frame: RawFrame,
    cursor: u64,
) -> ListenState
    requires inside { IsInside held.old.items frame.payload }
    ensures { Answered (whole frame.header
        (apply_mask_if frame.header.mask (span_bytes held.old.items frame.payload))
        (drop frame.payload.end held.old.items)) cursor result held.old.items held.new.items
        (outlet K.held K.failures sink.old) (outlet K.held K.failures sink.new) }
{
    let Ok(payload) = payload_of(alloc, held.as_slice(), &frame) else {
        return ListenState::Over(SessionEnd::NoMemory);
    };
    let answer = answer_to(&frame.header, payload.as_slice());
    let written = send_answer(alloc, sink, answer, payload.as_slice());
    drop(payload);
    keep_from(held, frame.payload.end);
    post_after(written, answer, cursor)
}

/// The code that tells of a place where no frame begins.
fn code_of(error: Error) -> u16
    ensures { answer_at (refusal error) ≡ reply.Close (Some result) }
{
    match error {
        Error::Capacity(_) => TOO_LONG,
        Error::ConnectionClosed
        | Error::AlreadyClosed
        | Error::Protocol(_)
        | Error::Utf8
        | Error::OutOfMemory => PROTOCOL_ERROR,
    }
}

/// Closes a session at a place where no frame begins that it takes.
fn refuse<K: Sink>(alloc: Global, sink: &mut K, code: u16, cursor: u64) -> ListenState
    ensures { (next : Next) (held : List ℕ) → answer_at next ≡ reply.Close (Some code) → rest_at next held ≡ held
        → Answered next cursor result held held (outlet K.held K.failures sink.old)
        (outlet K.held K.failures sink.new) }
{
    let answer = FrameAnswer::Close(Some(code));
    let written = send_answer(alloc, sink, answer, &[]);
    post_after(written, answer, cursor)
}

/// Hears what stands next among the bytes that came: a frame is answered, and where none is whole yet, the session goes
/// on to ask for events.
pub(crate) fn hear<K: Sink>(
    alloc: Global,
    sink: &mut K,
    held: &mut Vec<u8>,
    cursor: u64,
) -> ListenState
    ensures { (terms : TermsValue) (filter : FilterValue) (source : Feed) (gate : Seen) → GoesOn terms filter []
        (event_world (hearing cursor held.old.items) source gate (outlet K.held K.failures sink.old)) result
        held.new.items source gate (outlet K.held K.failures sink.new) }
{
    match read_frame(held.as_slice(), Some(MOST_PAYLOAD)) {
        Ok(FrameStatus::Partial(_)) => ListenState::At(SessionPost::Asking(cursor)),
        Ok(FrameStatus::Complete(frame)) => hear_frame(alloc, sink, held, frame, cursor),
        Err(error) => refuse(alloc, sink, code_of(error), cursor),
    }
}
