//! The worker of a serial server: the call that it has in hand, and what it does with it.
ghost use Rattle.std.specs.Prelude.{◌≡◌, None, Some};
ghost use Rattle.host_model.specs.declared.call.HostCall.{HostCall as HostCallValue};
ghost use Rattle.record_keeper.specs.Store.{Store};
ghost use Rattle.row_machine.specs.facts.Whole.{IsWhole};
ghost use Rattle.serial_steps.specs.Steps.{Hosted, Step, Steps, hosted, job_of, serial, serial_world};

use core_turns::Daemon;
use host_model::{Host, HostCall, perform};
use http_front::Clock;
use record_keeper::Keeper;
use row_machine::Answer;
use std::alloc::Global;

/// The facts of the rows hold at all times: this does nothing.
pub fn facts_hold(daemon: &Daemon)
    ensures { IsWhole daemon.now }
{
    let _rows = daemon.view();
}

/// The call that an answer gives to make, with the number of its operation.
fn job_of(answer: Answer) -> Option<(u64, HostCall)>
    ensures { result ≡ job_of answer }
{
    match answer {
        Answer::Job(number, call) => Some((number, call)),
        other => {
            drop(other);
            None
        }
    }
}

/// Asks for a call to make.
fn take_call<C: Clock>(daemon: &mut Daemon, clock: &mut C) -> Option<(u64, HostCall)>
    ensures { (store : Store) (host : Hosted)
        → (s : Step) × Steps (serial_world (serial daemon.old None) store host (C.readings clock.old)) s
        (serial_world (serial daemon.new result) store host (C.readings clock.new)) }
{
    let moment = clock.now();
    let answer = daemon.take(moment);
    job_of(answer)
}

/// Makes a call on the host and reports of it. What it gets is the next call of the operation, if
/// there is one.
fn make_call<R: Keeper, H: Host, C: Clock>(
    alloc: Global,
    daemon: &mut Daemon,
    keeper: &mut R,
    host: &mut H,
    clock: &mut C,
    number: u64,
    call: HostCall,
) -> Option<(u64, HostCall)>
    ensures { (s : Step) × Steps
        (serial_world (serial daemon.old (Some (number, call))) (R.store keeper.old)
        (hosted H.contents H.failures host.old) (C.readings clock.old))
        s
        (serial_world (serial daemon.new result) (R.store keeper.new) (hosted H.contents H.failures host.new)
        (C.readings clock.new)) }
{
    let report = perform(host, &call);
    drop(call);
    let moment = clock.now();
    let answer = daemon.report(alloc, keeper, number, report, moment);
    job_of(answer)
}

/// One step of a worker with this call in hand, or with none: it asks for a call, or makes the one that it has on the
/// host and reports of it. What it gives is the call that is in hand after it, with the number of its operation.
pub fn go_on<R: Keeper, H: Host, C: Clock>(
    alloc: Global,
    daemon: &mut Daemon,
    keeper: &mut R,
    host: &mut H,
    clock: &mut C,
    hand: Option<(u64, HostCall)>,
) -> Option<(u64, HostCall)>
    ensures { (s : Step) × Steps
        (serial_world (serial daemon.old hand) (R.store keeper.old) (hosted H.contents H.failures host.old)
        (C.readings clock.old))
        s
        (serial_world (serial daemon.new result) (R.store keeper.new) (hosted H.contents H.failures host.new)
        (C.readings clock.new)) }
{
    match hand {
        None => take_call(daemon, clock),
        Some((number, call)) => make_call(alloc, daemon, keeper, host, clock, number, call),
    }
}
