ghost use Rattle.std.specs.Prelude.{◌≡◌};
ghost use Rattle.serial_steps.specs.Steps.{hosted, serial_world};
ghost use Rattle.serial_run.specs.Sessions.{GoesOn, RefusesPlace, Turns, WritesAnswer, turn_after};
ghost use Rattle.serial_run.specs.Worlds.{inlet, outlet, outside, session_world};

use crate::service::Service;
use crate::session::{SessionEnd, Turn};
use command_words::Pace;
use host_model::Host;
use http_front::{Buffer, Clock, Got, HeadFault, Request, Sink, SinkFailed, Source, read_request};
use record_keeper::Keeper;
use rest_answers::{PrintedReply, no_memory_text, print_malformed};
use rest_json::Terms;
use size_values::NoMemory;
use std::alloc::Global;

/// How a turn goes on after a reply, from whether it was written and whether its request is the
/// last on its connection.
fn turn_after(written: Result<(), SinkFailed>, last: bool) -> Turn
    ensures { result ≡ turn_after written last }
{
    match written {
        Ok(()) => { if last { Turn::Final } else { Turn::GoOn } }
        Err(SinkFailed) => Turn::Stop(SessionEnd::WriteFault),
    }
}

/// Writes what a request is answered. Where memory for its reply was refused, nothing is written
/// and the session stops.
fn write_answer<K: Sink>(sink: &mut K, answered: &PrintedReply, request: &Request) -> Turn
    ensures { WritesAnswer result answered.now request.now (outlet K.held K.failures sink.old)
        (outlet K.held K.failures sink.new) }
{
    match answered {
        PrintedReply::Printed(bytes) => turn_after(sink.write(bytes.view()), request.last),
        PrintedReply::NoMemory => turn_after(sink.write(no_memory_text(request)), request.last),
        PrintedReply::Unprinted => Turn::Stop(SessionEnd::NoMemory),
    }
}

/// Answers a malformed place by its rule. The connection closes after it.
fn refuse<K: Sink>(alloc: Global, sink: &mut K, fault: HeadFault) -> SessionEnd
    ensures { RefusesPlace fault result (outlet K.held K.failures sink.old)
        (outlet K.held K.failures sink.new) }
{
    match print_malformed(alloc, fault) {
        Ok(bytes) => match sink.write(bytes.view()) {
            Ok(()) => SessionEnd::Malformed(fault),
            Err(SinkFailed) => SessionEnd::WriteFault,
        },
        Err(NoMemory) => SessionEnd::NoMemory,
    }
}

/// The steps of the worker after an answer: those of the pace where it was written whole.
fn go_on<R: Keeper, H: Host, C: Clock>(
    alloc: Global,
    keeper: &mut R,
    host: &mut H,
    clock: &mut C,
    service: &mut Service,
    pace: Pace,
    turn: Turn,
)
    ensures { GoesOn pace turn
        (serial_world service.old (R.store keeper.old) (hosted H.contents H.failures host.old)
        (C.readings clock.old))
        (serial_world service.new (R.store keeper.new) (hosted H.contents H.failures host.new)
        (C.readings clock.new)) }
{
    match turn {
        Turn::GoOn => service.go_on(alloc, keeper, host, clock, pace),
        Turn::Final => service.go_on(alloc, keeper, host, clock, pace),
        Turn::Stop(_) => {}
    }
}

/// One turn of a session: takes the next message and answers it, and then the worker makes the
/// steps of the pace.
pub(crate) fn turn<S: Source, K: Sink, R: Keeper, H: Host, C: Clock>(
    alloc: Global,
    buffer: &mut Buffer,
    source: &mut S,
    sink: &mut K,
    keeper: &mut R,
    host: &mut H,
    clock: &mut C,
    service: &mut Service,
    terms: Terms,
    pace: Pace,
) -> Turn
    ensures { Turns terms pace result
        (session_world buffer.old
        (outside (inlet S.left S.ended S.failures source.old) (outlet K.held K.failures sink.old)
        (R.store keeper.old) (hosted H.contents H.failures host.old) (C.readings clock.old))
        service.old)
        (session_world buffer.new
        (outside (inlet S.left S.ended S.failures source.new) (outlet K.held K.failures sink.new)
        (R.store keeper.new) (hosted H.contents H.failures host.new) (C.readings clock.new))
        service.new) }
{
    match read_request(alloc, buffer, source) {
        Got::Request(request) => {
            let answered = service.answer(alloc, keeper, host, clock, &request, terms);
            let comes = write_answer(sink, &answered, &request);
            drop(answered);
            buffer.reuse(request);
            go_on(alloc, keeper, host, clock, service, pace, comes);
            comes
        }
        Got::End => Turn::Stop(SessionEnd::Ended),
        Got::Cut(_) => Turn::Stop(SessionEnd::Cut),
        Got::Malformed(fault) => Turn::Stop(refuse(alloc, sink, fault)),
        Got::ReadFault => Turn::Stop(SessionEnd::ReadFault),
        Got::NoMemory => Turn::Stop(SessionEnd::NoMemory),
    }
}
