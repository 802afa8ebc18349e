//! What a client answers to the frames of a server (RFC 6455, section 5.5).
ghost use Rattle.std.specs.Prelude.{◌≡◌, IfOk};
ghost use Rattle.websocket.specs.declared.protocol.frame.coding.Control.TheVariants as control;
ghost use Rattle.client_events.specs.Frames.{answer_frame, code_bytes, code_for, may_be_sent};

use size_values::{NoMemory, Seq};
use std::alloc::Global;
use websocket::protocol::CloseCode;
use websocket::protocol::frame::coding::{Control, OpCode};
use websocket::protocol::frame::{FrameHeader, write_frame};

/// The key of the mask of each answer. A mask keeps what a page says through a browser from being taken for a request by a
/// proxy (RFC 6455, section 10.3). This client repeats nothing but what its own server said, so one key serves for all.
const MASK: [u8; 4] = [55, 250, 33, 61];

/// The code of a close that tells of a close that breaks the rules (RFC 6455, section 7.4.1).
const PROTOCOL_ERROR: u16 = 1002;

/// A masked control frame with this payload.
#[tactic(auto, unfolding(crate::specs::Frames::answer_frame))]
fn answer_frame(alloc: Global, kind: Control, payload: &[u8]) -> Result<Seq<u8>, NoMemory>
    ensures { IfOk result (λ frame. frame ≡ answer_frame kind payload.now) }
{
    let header = FrameHeader::new(OpCode::Control(kind), Some(MASK));
    let mut frame = Vec::new(alloc);
    match write_frame(&header, payload, &mut frame) {
        Ok(()) => Ok(Seq::from_vec(frame)),
        Err(_) => {
            drop(frame);
            Err(NoMemory)
        }
    }
}

/// The pong that answers a ping with this payload.
pub(crate) fn pong_to(alloc: Global, payload: &[u8]) -> Result<Seq<u8>, NoMemory>
    ensures { IfOk result (λ frame. frame ≡ answer_frame control.Pong payload.now) }
{
    answer_frame(alloc, Control::Pong, payload)
}

/// Whether an endpoint may send this code (RFC 6455, section 7.4).
fn may_be_sent(code: u16) -> bool
    ensures { result ≡ may_be_sent code }
{
    CloseCode::from(code).is_allowed()
}

/// The code that answers a close with this payload: its own, if it has one and that may be sent.
fn code_for(payload: &[u8]) -> Option<u16>
    ensures { result ≡ code_for payload.now }
{
    match payload {
        [] => None,
        [_] => Some(PROTOCOL_ERROR),
        [high, low, ..] => {
            let code = u16::from_be_bytes([*high, *low]);
            if may_be_sent(code) {
                Some(code)
            } else {
                Some(PROTOCOL_ERROR)
            }
        }
    }
}

/// A code as the payload of a close (RFC 6455, section 5.5.1).
fn code_bytes(alloc: Global, code: Option<u16>) -> Result<Seq<u8>, NoMemory>
    ensures { IfOk result (λ payload. payload ≡ code_bytes code) }
{
    match code {
        Some(code) => Seq::of_bytes(alloc, &code.to_be_bytes()),
        None => Ok(Seq::new(alloc)),
    }
}

/// The close that answers a close with this payload.
pub(crate) fn close_to(alloc: Global, payload: &[u8]) -> Result<Seq<u8>, NoMemory>
    ensures { IfOk result (λ frame. frame ≡ answer_frame control.Close (code_bytes (code_for payload.now))) }
{
    let code = code_bytes(alloc, code_for(payload))?;
    answer_frame(alloc, Control::Close, code.view())
}
