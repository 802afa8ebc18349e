//! Leave to send a body.
ghost use Rattle.std.specs.Prelude.{◌≡◌, true, IfOk, OnErr, OnOk};
ghost use Rattle.gates.specs.rest_answers.specs.Links.{BreaksOff, inlet, outlet};
ghost use Rattle.serve_loop.specs.Leave.{AsksNext, BreaksLeave, GivesLeave, leave_text};

use http_front::{Buffer, Got, Sink, SinkFailed, Source, awaits_leave, read_request};
use std::alloc::Global;

/// The text that gives leave to send a body (RFC 9110, section 15.2.1).
fn leave() -> &'static [u8]
    ensures { result.now ≡ leave_text }
{
    b"HTTP/1.1 100 Continue\r\n\r\n"
}

/// Gives leave where it is awaited.
fn give_leave<K: Sink>(sink: &mut K, awaited: bool) -> Result<(), SinkFailed>
    ensures ok { OnOk result (GivesLeave awaited (outlet K.held K.failures sink.old)
        (outlet K.held K.failures sink.new)) }
    ensures awaited { OnErr result (awaited ≡ true) }
    ensures err { OnErr result (BreaksOff (outlet K.held K.failures sink.old)
        (outlet K.held K.failures sink.new) leave_text) }
{
    if awaited { sink.write(leave()) } else { Ok(()) }
}

/// Takes the next message. Where its client waits for leave to send the body, leave is given once the head was read, and
/// before the body is; but not to a request that is to be refused for its `Origin`.
pub(crate) fn next_message<S: Source, K: Sink>(
    alloc: Global,
    buffer: &mut Buffer,
    source: &mut S,
    sink: &mut K,
    refuses_origin: bool,
) -> Result<Got, SinkFailed>
    ensures ok { IfOk result (λ got. AsksNext refuses_origin buffer.old (inlet S.left S.ended S.failures source.old)
        (outlet K.held K.failures sink.old) got buffer.new (inlet S.left S.ended S.failures source.new)
        (outlet K.held K.failures sink.new)) }
    ensures err { OnErr result (BreaksLeave refuses_origin buffer.old (inlet S.left S.ended S.failures source.old)
        (outlet K.held K.failures sink.old) buffer.new (inlet S.left S.ended S.failures source.new)
        (outlet K.held K.failures sink.new)) }
{
    match awaits_leave(buffer, source, refuses_origin) {
        Ok(awaited) => match give_leave(sink, awaited) {
            Ok(()) => Ok(read_request(alloc, buffer, source)),
            Err(failed) => Err(failed),
        },
        Err(stop) => Ok(Got::from(stop)),
    }
}
