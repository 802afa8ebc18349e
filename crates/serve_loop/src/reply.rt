//! How a request comes to its reply at a gate.
ghost use Rattle.std.specs.Prelude.{◌≡◌, true, Ok};
ghost use Rattle.records.specs.Forms.{is_formed};
ghost use Rattle.rest_routes.specs.Commands.{command_of};
ghost use Rattle.gates.specs.Gates.{seen};
ghost use Rattle.serve_loop.specs.Replying.{Reaches};

use crate::wait::{ask, wait_of};
use gates::Gate;
use http_front::{Clock, Request};
use records::{Command, Reply};
use rest_json::Terms;
use rest_routes::Router;
use size_values::NoMemory;
use std::alloc::Global;
use std::sync::Wait;

/// Asks for a command. What a wait needs later is taken beforehand.
pub(crate) fn carry_out<T: Wait, G: Gate, C: Clock>(
    rt: &T,
    alloc: Global,
    gate: &mut G,
    clock: &mut C,
    command: Command,
) -> Reply
    requires formed { is_formed command ≡ true }
    ensures { Reaches (Ok command) (seen G.contents G.turned G.idled gate.old)
        (seen G.contents G.turned G.idled gate.new) (C.readings clock.old) (C.readings clock.new)
        result }
{
    match wait_of(alloc, &command) {
        Ok(kept) => ask(rt, gate, clock, command, kept),
        Err(NoMemory) => {
            drop(command);
            Reply::NoMemory
        }
    }
}

/// Routes a request and asks for its command, at the next moment of the clock.
pub fn reply_to<T: Wait, G: Gate, C: Clock>(
    rt: &T,
    alloc: Global,
    router: &Router,
    gate: &mut G,
    clock: &mut C,
    request: &Request,
    terms: Terms,
) -> Reply
    ensures { Reaches (command_of request.now terms) (seen G.contents G.turned G.idled gate.old)
        (seen G.contents G.turned G.idled gate.new) (C.readings clock.old) (C.readings clock.new)
        result }
{
    match router.route(alloc, request, terms) {
        Ok(command) => carry_out(rt, alloc, gate, clock, command),
        Err(reply) => reply,
    }
}
