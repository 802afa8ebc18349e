//! A worker, and what it has to do next.
ghost use Rattle.std.specs.Prelude.{◌≡◌};
ghost use Rattle.http_front.specs.Clocks.{Readings};
ghost use Rattle.gates.specs.serial_steps.specs.Steps.{Hosted, hosted};
ghost use Rattle.gates.specs.Gates.{Walk, seen};
ghost use Rattle.gates.specs.Answers.{IsForReporter, IsForTaker};
ghost use Rattle.serve_loop.specs.Work.{Gets, GoesOn, WorkBy, worker_world};
ghost use Rattle.serve_loop.specs.declared.worker.WorkerState.TheVariants as post_of;

use crate::log::{Log, tell_end};
use gates::{Bell, Gate};
use host_model::{Host, HostCall, perform};
use http_front::Clock;
use row_machine::{Answer, Event};
use std::sync::Wait;

/// What a worker has to do next.
#[derive(Drop)]
pub enum WorkerState {
    /// To ask for a call.
    Asking,
    /// To make this call of the operation of this number.
    Busy(u64, HostCall),
    /// To idle, since no call waits.
    Idling,
    /// Nothing any more, since the server was closed.
    Over,
}

/// What is to be done after a call was asked for.
fn post_after_take(answer: Answer) -> WorkerState
    requires { IsForTaker answer }
    ensures { Gets answer result }
{
    match answer {
        Answer::Job(number, call) => WorkerState::Busy(number, call),
        Answer::NoJob => WorkerState::Idling,
        Answer::Closed => WorkerState::Over,
        _ => unreachable!(),
    }
}

/// What is to be done after a report.
fn post_after_report(answer: Answer) -> WorkerState
    requires { IsForReporter answer }
    ensures { GoesOn answer result }
{
    match answer {
        Answer::Job(number, call) => WorkerState::Busy(number, call),
        Answer::Ended(_) | Answer::Stray(_) => WorkerState::Asking,
        _ => unreachable!(),
    }
}

/// Asks for a call.
fn take_call<G: Gate, C: Clock>(gate: &mut G, clock: &mut C) -> WorkerState
    ensures { (host : Hosted) → Walk WorkBy
        (seen G.contents G.turned G.idled gate.old) (seen G.contents G.turned G.idled gate.new)
        (worker_world post_of.Asking host (C.readings clock.old))
        (worker_world result host (C.readings clock.new)) }
{
    let moment = clock.now();
    let answer = gate.turn(Event::Take(moment));
    post_after_take(answer)
}

/// Makes a call on the host and reports of it.
fn make_call<G: Gate, H: Host, C: Clock, O: Log>(
    gate: &mut G,
    host: &mut H,
    clock: &mut C,
    log: &mut O,
    number: u64,
    call: HostCall,
) -> WorkerState
    ensures { Walk WorkBy
        (seen G.contents G.turned G.idled gate.old) (seen G.contents G.turned G.idled gate.new)
        (worker_world (post_of.Busy number call) (hosted H.contents H.failures host.old)
        (C.readings clock.old))
        (worker_world result (hosted H.contents H.failures host.new) (C.readings clock.new)) }
{
    let report = perform(host, &call);
    drop(call);
    let moment = clock.now();
    let answer = gate.turn(Event::Done(number, report, moment));
    tell_end(log, &answer, report);
    post_after_report(answer)
}

/// Idles once, until a call may wait or a while is over.
fn idle<G: Gate>(gate: &mut G)
    ensures { (host : Hosted) (clock : Readings) → Walk WorkBy
        (seen G.contents G.turned G.idled gate.old) (seen G.contents G.turned G.idled gate.new)
        (worker_world post_of.Idling host clock) (worker_world post_of.Asking host clock) }
{
    let _ = gate.idle(Bell::Calls);
}

/// What a worker does at its post. It gives what it has to do then.
fn go_on<G: Gate, H: Host, C: Clock, O: Log>(
    gate: &mut G,
    host: &mut H,
    clock: &mut C,
    log: &mut O,
    post: WorkerState,
) -> WorkerState
    ensures { Walk WorkBy
        (seen G.contents G.turned G.idled gate.old) (seen G.contents G.turned G.idled gate.new)
        (worker_world post (hosted H.contents H.failures host.old) (C.readings clock.old))
        (worker_world result (hosted H.contents H.failures host.new) (C.readings clock.new)) }
{
    match post {
        WorkerState::Asking => take_call(gate, clock),
        WorkerState::Busy(number, call) => make_call(gate, host, clock, log, number, call),
        WorkerState::Idling => {
            idle(gate);
            WorkerState::Asking
        }
        WorkerState::Over => WorkerState::Over,
    }
}

/// Works until the server is closed and nothing waits: it asks for calls, makes them on the host,
/// and reports what became of each. It idles after each answer that no call waits. The clock is
/// read once for each call that is asked for and for each report. The log is told of each operation that ends.
pub fn work<T: Wait, G: Gate, H: Host, C: Clock, O: Log>(
    rt: &T,
    gate: &mut G,
    host: &mut H,
    clock: &mut C,
    log: &mut O,
)
    // It begins with no call in hand, and returns only after a call that it asked for was answered
    // by the close.
    ensures { Walk WorkBy
        (seen G.contents G.turned G.idled gate.old) (seen G.contents G.turned G.idled gate.new)
        (worker_world post_of.Asking (hosted H.contents H.failures host.old) (C.readings clock.old))
        (worker_world post_of.Over (hosted H.contents H.failures host.new) (C.readings clock.new)) }
{
    let mut post = WorkerState::Asking;
    for _ in rt.forever() {
        match post {
            WorkerState::Over => return,
            now => post = go_on(gate, host, clock, log, now),
        }
    }
    unreachable!()
}
