ghost use Rattle.std.specs.Prelude.{◌≡◌, ◌<◌};
ghost use Rattle.serial_steps.specs.Steps.{hosted};
ghost use Rattle.serial_run.specs.Most.{most_requests};
ghost use Rattle.serial_run.specs.Sessions.{Session, end_after_final};
ghost use Rattle.serial_run.specs.Worlds.{inlet, outlet, outside, session_world};

use crate::service::Service;
use crate::session::{MOST_REQUESTS, SessionEnd, Turn};
use crate::turn::turn;
use command_words::Pace;
use host_model::Host;
use http_front::{Buffer, Clock, Sink, Source};
use record_keeper::Keeper;
use rest_json::Terms;
use std::alloc::Global;

/// Where a session stops after the final request, with this many requests answered before it.
fn end_after_final(done: u32) -> SessionEnd
    requires { done < most_requests }
    ensures { result ≡ end_after_final done }
{
    if done + 1 == MOST_REQUESTS {
        SessionEnd::Spent
    } else {
        SessionEnd::Ended
    }
}

/// Answers requests one after the other until the session stops.
pub fn serve<S: Source, K: Sink, R: Keeper, H: Host, C: Clock>(
    alloc: Global,
    buffer: &mut Buffer,
    source: &mut S,
    sink: &mut K,
    keeper: &mut R,
    host: &mut H,
    clock: &mut C,
    service: &mut Service,
    terms: Terms,
    pace: Pace,
) -> SessionEnd
    ensures { Session terms pace
        (session_world buffer.old
        (outside (inlet S.left S.ended S.failures source.old) (outlet K.held K.failures sink.old)
        (R.store keeper.old) (hosted H.contents H.failures host.old) (C.readings clock.old))
        service.old)
        (session_world buffer.new
        (outside (inlet S.left S.ended S.failures source.new) (outlet K.held K.failures sink.new)
        (R.store keeper.new) (hosted H.contents H.failures host.new) (C.readings clock.new))
        service.new)
        result }
{
    for done in 0..MOST_REQUESTS {
        match turn(
            alloc, buffer, source, sink, keeper, host, clock, service, terms, pace,
        ) {
            Turn::GoOn => {}
            Turn::Final => return end_after_final(done),
            Turn::Stop(ends) => return ends,
        }
    }
    SessionEnd::Spent
}
