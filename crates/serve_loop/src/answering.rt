//! What a session answers to the frames of its client (RFC 6455, sections 5 and 7).
ghost use Rattle.std.specs.Prelude.{◌≡◌, IfOk, length};
ghost use Rattle.httparse.specs.Spans.{span_bytes};
ghost use Rattle.websocket.specs.Frame.{IsInside};
ghost use Rattle.websocket.specs.Mask.{apply_mask_if};
ghost use Rattle.gates.specs.rest_answers.specs.Links.{outlet};
ghost use Rattle.serve_loop.specs.ClientFrames.{answer_by, answer_text, answer_to, code_for, is_sound};
ghost use Rattle.serve_loop.specs.ClientFrames.{is_whole_control, may_be_sent, most_payload};
ghost use Rattle.serve_loop.specs.Sending.{Sends};

use crate::frames::{send_close, send_pong};
use gates::Written;
use http_front::Sink;
use size_values::NoMemory;
use std::alloc::Global;
use websocket::protocol::CloseCode;
use websocket::protocol::frame::coding::{Control, OpCode};
use websocket::protocol::frame::{FrameHeader, RawFrame, apply_mask};

/// The most bytes of payload that a frame of a client may have.
pub const MOST_PAYLOAD: usize = 4_096;

/// The constant is the number that definitions speak of.
pub fn frames_have_4_kib()
    ensures { MOST_PAYLOAD ≡ most_payload }
{}

/// The code of a close that tells of a frame that breaks the rules (RFC 6455, section 7.4.1).
pub(crate) const PROTOCOL_ERROR: u16 = 1002;

/// The code of a close that tells of a frame that is too long.
pub(crate) const TOO_LONG: u16 = 1009;

/// What a session answers to a frame.
#[derive(Clone, Copy, Debug, PartialEq, Eq)]
pub enum FrameAnswer {
    /// Nothing.
    Nothing,
    /// A pong with the payload of the frame.
    Pong,
    /// A close with this code, or without one, and then the session ends.
    Close(Option<u16>),
}

/// Whether a control frame is not cut into fragments and has at most 125 bytes of payload (RFC 6455, section 5.5).
fn is_whole_control(opcode: OpCode, is_final: bool, count: usize) -> bool
    ensures { result ≡ is_whole_control opcode is_final count }
{
    match opcode {
        OpCode::Control(_) => is_final && count <= 125,
        OpCode::Data(_) => true,
    }
}

/// Whether a frame with so many bytes of payload keeps the rules for frames of a client: it is masked (RFC 6455, section
/// 5.1), and no extension is in use (section 5.2).
fn is_sound(header: &FrameHeader, count: usize) -> bool
    ensures { result ≡ is_sound header.now count }
{
    header.mask.is_some()
        && !header.rsv1
        && !header.rsv2
        && !header.rsv3
        && is_whole_control(header.opcode, header.is_final, count)
}

/// Whether an endpoint may send this code (RFC 6455, section 7.4).
fn may_be_sent(code: u16) -> bool
    ensures { result ≡ may_be_sent code }
{
    CloseCode::from(code).is_allowed()
}

/// The code that answers a close frame with this payload: its own, if it has one and that may be sent.
fn code_for(payload: &[u8]) -> Option<u16>
    ensures { result ≡ code_for payload.now }
{
    match payload {
        [] => None,
        [_] => Some(PROTOCOL_ERROR),
        [high, low, ..] => {
            let code = u16::from_be_bytes([*high, *low]);
            if may_be_sent(code) {
                Some(code)
            } else {
                Some(PROTOCOL_ERROR)
            }
        }
    }
}

/// What is answered to a frame that keeps the rules.
fn answer_by(opcode: OpCode, payload: &[u8]) -> FrameAnswer
    ensures { result ≡ answer_by opcode payload.now }
{
    match opcode {
        OpCode::Control(Control::Ping) => FrameAnswer::Pong,
        OpCode::Control(Control::Close) => FrameAnswer::Close(code_for(payload)),
        OpCode::Control(Control::Pong) => FrameAnswer::Nothing,
        OpCode::Data(_) => FrameAnswer::Nothing,
    }
}

/// What is answered to a frame with this header and this payload, without the mask.
pub fn answer_to(header: &FrameHeader, payload: &[u8]) -> FrameAnswer
    ensures { result ≡ answer_to header.now payload.now }
{
    if is_sound(header, payload.len()) {
        answer_by(header.opcode, payload)
    } else {
        FrameAnswer::Close(Some(PROTOCOL_ERROR))
    }
}

/// The payload of a frame among these bytes, without the mask.
pub(crate) fn payload_of(alloc: Global, bytes: &[u8], frame: &RawFrame) -> Result<Vec<u8>, NoMemory>
    requires { IsInside bytes.now frame.now.payload }
    ensures { IfOk result (λ p. p.items ≡ apply_mask_if frame.now.header.mask (span_bytes bytes.now frame.now.payload)) }
{
    let mut payload = Vec::new(alloc);
    payload.extend_from_slice(frame.payload.of(bytes))?;
    if let Some(key) = frame.header.mask {
        apply_mask(payload.as_mut_slice(), key);
    }
    Ok(payload)
}

/// Writes an answer to a frame with this payload.
pub(crate) fn send_answer<K: Sink>(
    alloc: Global,
    sink: &mut K,
    answer: FrameAnswer,
    payload: &[u8],
) -> Written
    ensures { Sends result (answer_text answer payload.now) (outlet K.held K.failures sink.old)
        (outlet K.held K.failures sink.new) }
{
    match answer {
        FrameAnswer::Nothing => Written::Whole,
        FrameAnswer::Pong => send_pong(alloc, sink, payload),
        FrameAnswer::Close(code) => send_close(alloc, sink, code, ""),
    }
}
