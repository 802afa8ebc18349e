//! What a subscription asks for at the gate before its session begins.
ghost use Rattle.std.specs.Prelude.{◌≡◌, true, IfOk, Ok};
ghost use Rattle.http_front.specs.Clocks.{Readings};
ghost use Rattle.records.specs.Forms.{is_formed};
ghost use Rattle.gates.specs.Gates.{seen};
ghost use Rattle.serve_loop.specs.Replying.{Reaches};
ghost use Rattle.serve_loop.specs.Subscriptions.{is_refusal, looked_for};

use crate::reply::carry_out;
use crate::subscriptions::Subscription;
use gates::Gate;
use http_front::Clock;
use records::{Command, Reply, Target, What};
use size_values::{NoMemory, ObjectKind, Text};
use std::alloc::Global;
use std::sync::Wait;

/// The command that asks for the project of a subscription: that for its operations.
fn looked_for(alloc: Global, wanted: &Subscription) -> Result<Command, NoMemory>
    ensures is { IfOk result (λ c. c ≡ looked_for wanted.now) }
    ensures formed { IfOk result (λ c. is_formed c ≡ true) }
{
    let project = wanted.filter.project.copy(alloc)?;
    let of = Target {
        kind: ObjectKind::Operation,
        pool: Text::new(alloc),
        instance: Text::new(alloc),
        name: Text::new(alloc),
    };
    Ok(Command {
        project,
        what: What::List {
            of,
            recursion: false,
        },
        expects: None,
    })
}

/// Asks for the project of a subscription, at the next moment of the clock.
pub(crate) fn look_for<T: Wait, G: Gate, C: Clock>(
    rt: &T,
    alloc: Global,
    gate: &mut G,
    clock: &mut C,
    wanted: &Subscription,
) -> Reply
    ensures { Reaches (Ok (looked_for wanted.now)) (seen G.contents G.turned G.idled gate.old)
        (seen G.contents G.turned G.idled gate.new) (C.readings clock.old) (C.readings clock.new)
        result }
{
    match looked_for(alloc, wanted) {
        Ok(command) => carry_out(rt, alloc, gate, clock, command),
        Err(NoMemory) => Reply::NoMemory,
    }
}

/// Whether a reply refuses what was asked for.
pub(crate) fn is_refusal(reply: &Reply) -> bool
    ensures { result ≡ is_refusal reply.now }
{
    matches!(reply, Reply::Refused(_) | Reply::NoMemory)
}
