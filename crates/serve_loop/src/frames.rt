//! What an event session writes.
ghost use Rattle.std.specs.Prelude.{◌≡◌, IfOk, None, string_bytes};
ghost use Rattle.websocket.specs.Frame.{encode_frame};
ghost use Rattle.gates.specs.rest_answers.specs.Links.{outlet};
ghost use Rattle.websocket.specs.Connection.{whole_header};
ghost use Rattle.serve_loop.specs.ClientFrames.{close_frame, close_payload, pong_frame};
ghost use Rattle.serve_loop.specs.Frames.{accepting_head, text_frame};
ghost use Rattle.serve_loop.specs.Sending.{Sends, SendsFront};
ghost use Rattle.serve_loop.specs.Sessions.{frames_of};
ghost use Rattle.rest_replies.specs.Notices.{notice_text};

use crate::accepting::accept_text;
use gates::Written;
use http_front::{Sink, SinkFailed};
use records::Notice;
use rest_json::Terms;
use rest_replies::print_notice;
use size_values::NoMemory;
use std::alloc::Global;
use websocket::protocol::frame::coding::{Control, Data, OpCode};
use websocket::protocol::frame::{FrameHeader, write_frame};

/// Writes these bytes.
fn send<K: Sink>(sink: &mut K, bytes: &[u8]) -> Written
    ensures { Sends result bytes.now (outlet K.held K.failures sink.old)
        (outlet K.held K.failures sink.new) }
{
    match sink.write(bytes) {
        Ok(()) => Written::Whole,
        Err(SinkFailed) => Written::WriteFault,
    }
}

/// A frame that is not masked.
fn frame_of(alloc: Global, header: FrameHeader, payload: &[u8]) -> Result<Vec<u8>, NoMemory>
    ensures { IfOk result (λ frame. frame.items ≡ encode_frame header payload.now) }
{
    let mut frame = Vec::new(alloc);
    match write_frame(&header, payload, &mut frame) {
        Ok(()) => Ok(frame),
        Err(_) => {
            drop(frame);
            Err(NoMemory)
        }
    }
}

/// Writes one frame with this payload, which is not masked (RFC 6455, section 5.2).
fn send_frame<K: Sink>(alloc: Global, sink: &mut K, opcode: OpCode, payload: &[u8]) -> Written
    ensures { Sends result (encode_frame (whole_header opcode None) payload.now)
        (outlet K.held K.failures sink.old) (outlet K.held K.failures sink.new) }
{
    match frame_of(alloc, FrameHeader::new(opcode, None), payload) {
        Ok(frame) => {
            let written = send(sink, &frame);
            drop(frame);
            written
        }
        Err(NoMemory) => Written::NoMemory,
    }
}

/// Writes a text message in one frame, which is not masked (RFC 6455, section 5.6).
#[tactic(auto, unfolding(crate::specs::Frames::text_frame))]
pub fn send_text<K: Sink>(alloc: Global, sink: &mut K, text: &str) -> Written
    ensures { Sends result (text_frame text.now) (outlet K.held K.failures sink.old)
        (outlet K.held K.failures sink.new) }
{
    send_frame(alloc, sink, OpCode::Data(Data::Text), text.as_bytes())
}

/// Writes a pong with this payload, which is not masked (RFC 6455, section 5.5.3).
#[tactic(auto, unfolding(crate::specs::ClientFrames::pong_frame))]
pub fn send_pong<K: Sink>(alloc: Global, sink: &mut K, payload: &[u8]) -> Written
    ensures { Sends result (pong_frame payload.now) (outlet K.held K.failures sink.old)
        (outlet K.held K.failures sink.new) }
{
    send_frame(alloc, sink, OpCode::Control(Control::Pong), payload)
}

/// What a close frame says: its code, if it has one, and a reason after it (RFC 6455, section 5.5.1).
fn close_payload(alloc: Global, code: Option<u16>, reason: &str) -> Result<Vec<u8>, NoMemory>
    ensures { IfOk result (λ payload. payload.items ≡ close_payload code reason.now) }
{
    let mut payload = Vec::new(alloc);
    if let Some(code) = code {
        payload.extend_from_slice(&code.to_be_bytes())?;
        payload.extend_from_slice(reason.as_bytes())?;
    }
    Ok(payload)
}

/// Writes a close frame with this code and this reason, or with neither, which is not masked (RFC 6455, section 5.5.1).
/// A code has at most 123 bytes of reason after it.
#[tactic(auto, unfolding(crate::specs::ClientFrames::close_frame))]
pub fn send_close<K: Sink>(alloc: Global, sink: &mut K, code: Option<u16>, reason: &str) -> Written
    ensures { Sends result (close_frame code reason.now) (outlet K.held K.failures sink.old)
        (outlet K.held K.failures sink.new) }
{
    match close_payload(alloc, code, reason) {
        Ok(payload) => {
            let written = send_frame(alloc, sink, OpCode::Control(Control::Close), &payload);
            drop(payload);
            written
        }
        Err(NoMemory) => Written::NoMemory,
    }
}

/// The head that accepts a handshake of this key.
#[tactic(auto, unfolding(crate::specs::Frames::accepting_head))]
fn accepting_head(alloc: Global, key: &str) -> Result<String, NoMemory>
    ensures { IfOk result (λ head. string_bytes head ≡ accepting_head key.now) }
{
    let accepting = accept_text(alloc, key)?;
    let head = format!(in alloc;
        "HTTP/1.1 101 Switching Protocols\r\nUpgrade: websocket\r\nConnection: Upgrade\r\nSec-WebSocket-Accept: {}\r\n\r\n",
        accepting.view()
    );
    drop(accepting);
    Ok(head?)
}

/// Writes the head that accepts a handshake of this key (RFC 6455, section 4.2.2).
pub(crate) fn send_head<K: Sink>(alloc: Global, sink: &mut K, key: &str) -> Written
    ensures { Sends result (accepting_head key.now) (outlet K.held K.failures sink.old)
        (outlet K.held K.failures sink.new) }
{
    match accepting_head(alloc, key) {
        Ok(head) => {
            let written = send(sink, head.as_bytes());
            drop(head);
            written
        }
        Err(NoMemory) => Written::NoMemory,
    }
}

/// Sends an event.
fn send_notice<K: Sink>(alloc: Global, sink: &mut K, notice: &Notice, terms: Terms) -> Written
    ensures { Sends result (text_frame (notice_text notice.now terms))
        (outlet K.held K.failures sink.old) (outlet K.held K.failures sink.new) }
{
    match print_notice(alloc, notice, terms) {
        Ok(text) => {
            let written = send_text(alloc, sink, text.view());
            drop(text);
            written
        }
        Err(NoMemory) => Written::NoMemory,
    }
}

/// Sends these events one after the other, until one can't be sent.
pub(crate) fn send_notices<K: Sink>(
    alloc: Global,
    sink: &mut K,
    notices: &[Notice],
    terms: Terms,
) -> Written
    ensures { SendsFront result (frames_of terms notices.now) (outlet K.held K.failures sink.old)
        (outlet K.held K.failures sink.new) }
{
    'notices: for notice in notices {
        match send_notice(alloc, sink, notice, terms) {
            Written::Whole => {}
            Written::WriteFault => return Written::WriteFault,
            Written::NoMemory => return Written::NoMemory,
        }
    }
    Written::Whole
}
