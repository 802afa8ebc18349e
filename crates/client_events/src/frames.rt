//! The frames that a server sends behind the head of a handshake.
ghost use Rattle.std.specs.Prelude.{◌≡◌, [], false, true, length, IfOk};
ghost use Rattle.client_events.specs.Columns.{event_line};
ghost use Rattle.client_events.specs.Frames.{EndsWithin, heard_by, heard_control, heard_event, heard_in, heard_of};
ghost use Rattle.client_events.specs.Frames.{is_short, is_sound};

use crate::answers::{close_to, pong_to};
use crate::columns::{EventForm, event_line};
use size_values::{NoMemory, Seq};
use std::alloc::Global;
use websocket::protocol::frame::coding::{Control, Data, OpCode};
use websocket::protocol::frame::{FrameHeader, FrameStatus, read_frame};

/// The most bytes of payload that a frame may have.
const MOST_PAYLOAD: usize = 67_108_864;

/// The most bytes of payload that a control frame may have (RFC 6455, section 5.5).
const MOST_CONTROL: usize = 125;

/// What stands at the front of the bytes that came behind the head of a handshake.
#[derive(Drop)]
pub enum Heard {
    /// A frame has begun, or nothing stands here: more bytes may make it whole.
    Begun,
    /// No frame begins here that tells an event or that controls the link, whatever follows.
    Malformed,
    /// A whole frame: what is printed of it, what is answered to it, whether it is the last one, and how many bytes it has.
    Whole {
        line: Seq<u8>,
        answer: Seq<u8>,
        is_last: bool,
        length: usize,
    },
}

/// Whether a control frame is short enough.
fn is_short(opcode: OpCode, count: usize) -> bool
    ensures { result ≡ is_short opcode count }
{
    match opcode {
        OpCode::Control(_) => count <= MOST_CONTROL,
        OpCode::Data(_) => true,
    }
}

/// Whether a frame with so many bytes of payload keeps the rules for those of a server that sends each message whole: it is
/// not masked (RFC 6455, section 5.1), and no extension is in use (section 5.2).
fn is_sound(header: &FrameHeader, count: usize) -> bool
    ensures { result ≡ is_sound header.now count }
{
    header.is_final
        && !header.mask.is_some()
        && !header.rsv1
        && !header.rsv2
        && !header.rsv3
        && is_short(header.opcode, count)
}

/// A frame of which this is printed and to which this is answered.
fn whole(line: Seq<u8>, answer: Seq<u8>, is_last: bool, length: usize) -> Heard
    ensures { result ≡ Heard.Whole line answer is_last length }
{
    Heard::Whole {
        line,
        answer,
        is_last,
        length,
    }
}

/// A text, which tells an event.
fn heard_event(
    alloc: Global,
    form: EventForm,
    payload: &[u8],
    length: usize,
) -> Result<Heard, NoMemory>
    ensures { IfOk result (λ heard. heard ≡ heard_event (event_line form payload.now) length) }
{
    match event_line(alloc, form, payload)? {
        Some(line) => Ok(whole(line, Seq::new(alloc), false, length)),
        None => Ok(Heard::Malformed),
    }
}

/// A control frame: a ping, which is answered by a pong; a pong; or a close, which is answered by a close.
fn heard_control(
    alloc: Global,
    kind: Control,
    payload: &[u8],
    length: usize,
) -> Result<Heard, NoMemory>
    ensures { IfOk result (λ heard. heard ≡ heard_control kind payload.now length) }
{
    match kind {
        Control::Ping => {
            let answer = pong_to(alloc, payload)?;
            Ok(whole(Seq::new(alloc), answer, false, length))
        }
        Control::Pong => Ok(whole(Seq::new(alloc), Seq::new(alloc), false, length)),
        Control::Close => {
            let answer = close_to(alloc, payload)?;
            Ok(whole(Seq::new(alloc), answer, true, length))
        }
    }
}

/// A frame of this kind.
fn heard_by(
    alloc: Global,
    form: EventForm,
    opcode: OpCode,
    payload: &[u8],
    length: usize,
) -> Result<Heard, NoMemory>
    ensures { IfOk result (λ heard. heard ≡ heard_by form opcode payload.now length) }
{
    match opcode {
        OpCode::Data(Data::Text) => heard_event(alloc, form, payload, length),
        OpCode::Data(Data::Binary) => Ok(Heard::Malformed),
        OpCode::Data(Data::Continue) => Ok(Heard::Malformed),
        OpCode::Control(kind) => heard_control(alloc, kind, payload, length),
    }
}

/// A frame with this header and this payload.
fn heard_of(
    alloc: Global,
    form: EventForm,
    header: &FrameHeader,
    payload: &[u8],
    length: usize,
) -> Result<Heard, NoMemory>
    ensures { IfOk result (λ heard. heard ≡ heard_of form header.now payload.now length) }
{
    if is_sound(header, payload.len()) {
        heard_by(alloc, form, header.opcode, payload, length)
    } else {
        Ok(Heard::Malformed)
    }
}

/// What stands at the front of the bytes that came behind the head of a handshake (RFC 6455, section 5). A frame of text is
/// an event: a JSON object of the form that the Incus documentation, "Events", gives, by its time and its type; it comes in
/// one frame of at most 67,108,864 bytes. A ping is answered by a pong with its payload, a pong by nothing, and a close,
/// the last frame, by a close with the same code, or with 1002 where that may not be sent. Other frames are malformed.
pub fn next_heard(alloc: Global, form: EventForm, bytes: &[u8]) -> Result<Heard, NoMemory>
    ensures heard { IfOk result (λ heard. heard ≡ heard_in form bytes.now) }
    ensures within { IfOk result (EndsWithin (length bytes.now)) }
{
    match read_frame(bytes, Some(MOST_PAYLOAD)) {
        Ok(FrameStatus::Partial(_)) => Ok(Heard::Begun),
        Ok(FrameStatus::Complete(frame)) => {
            let payload = frame.payload.of(bytes);
            heard_of(alloc, form, &frame.header, payload, frame.payload.end)
        }
        Err(_) => Ok(Heard::Malformed),
    }
}
