//! How a command comes to its reply.
ghost use Rattle.std.specs.Prelude.{◌≡◌, true, false, Ok, ℕ};
ghost use Rattle.records.specs.Forms.{is_formed};
ghost use Rattle.rest_routes.specs.Commands.{command_of};
ghost use Rattle.rest_routes.specs.Known.{server_asked};
ghost use Rattle.rest_answers.specs.Texts.{asks_head};
ghost use Rattle.record_keeper.specs.Store.{Store};
ghost use Rattle.serial_steps.specs.Steps.{Hosted, hosted, serial_world};
ghost use Rattle.serial_run.specs.Answers.{Answers, Reaches, Shows};

use host_model::Host;
use http_front::{Clock, Request};
use record_keeper::Keeper;
use records::{Command, Reply, What};
use rest_answers::{PrintedReply, ReplyOrWait, reply_of, reply_or_wait_of, server_answer};
use rest_json::Terms;
use rest_routes::Router;
use serial_steps::{SerialDaemon, server_is_told};
use size_values::Text;
use std::alloc::Global;

/// Asks for an operation in a project.
fn show_operation<R: Keeper, C: Clock>(
    alloc: Global,
    daemon: &mut SerialDaemon,
    keeper: &mut R,
    clock: &mut C,
    project: Text,
    number: u64,
) -> Reply
    ensures { Shows project number daemon.old (R.store keeper.old)
        (C.readings clock.old) result daemon.new
        (R.store keeper.new) (C.readings clock.new) }
{
    let command = Command {
        project,
        what: What::GetOp { op: number },
        expects: None,
    };
    let told = daemon.ask(alloc, keeper, &command, clock.now());
    drop(command);
    reply_of(told)
}

/// Asks for a command. The answer of a wait is held back until its operation has ended, and is then
/// what is told of that operation.
fn carry_out<R: Keeper, H: Host, C: Clock>(
    alloc: Global,
    daemon: &mut SerialDaemon,
    keeper: &mut R,
    host: &mut H,
    clock: &mut C,
    command: Command,
) -> Reply
    requires formed { is_formed command ≡ true }
    ensures { Reaches (serial_world daemon.old (R.store keeper.old) (hosted H.contents H.failures host.old)
        (C.readings clock.old))
        (Ok command) result
        (serial_world daemon.new (R.store keeper.new) (hosted H.contents H.failures host.new)
        (C.readings clock.new)) }
{
    let answer = daemon.ask(alloc, keeper, &command, clock.now());
    let Command {
        project,
        what,
        expects,
    } = command;
    drop((what, expects));
    match reply_or_wait_of(answer) {
        ReplyOrWait::Reply(reply) => reply,
        ReplyOrWait::Hold(number) => {
            daemon.wait_for(alloc, keeper, host, clock, number);
            show_operation(alloc, daemon, keeper, clock, project, number)
        }
    }
}

/// Tells of the server, at the next moment of the clock. What is told depends on no row, so the daemon isn't asked.
pub(crate) fn tell_of_server<C: Clock>(
    daemon: &SerialDaemon,
    clock: &mut C,
    request: &Request,
    terms: Terms,
) -> PrintedReply
    requires asked { command_of request.now terms ≡ Ok server_asked }
    requires stays { request.now.last ≡ false }
    requires by_get { asks_head request.now ≡ false }
    ensures { (store : Store) (host : Hosted) → Answers terms
        (serial_world daemon.now store host (C.readings clock.old))
        (serial_world daemon.now store host (C.readings clock.new))
        request.now result }
{
    server_is_told();
    let _moment = clock.now();
    server_answer(terms)
}

/// Routes a request and asks for its command, at the next moment of the clock.
pub(crate) fn reply_to<R: Keeper, H: Host, C: Clock>(
    alloc: Global,
    router: &Router,
    daemon: &mut SerialDaemon,
    keeper: &mut R,
    host: &mut H,
    clock: &mut C,
    request: &Request,
    terms: Terms,
) -> Reply
    ensures { Reaches (serial_world daemon.old (R.store keeper.old) (hosted H.contents H.failures host.old)
        (C.readings clock.old))
        (command_of request.now terms) result
        (serial_world daemon.new (R.store keeper.new) (hosted H.contents H.failures host.new)
        (C.readings clock.new)) }
{
    match router.route(alloc, request, terms) {
        Ok(command) => carry_out(alloc, daemon, keeper, host, clock, command),
        Err(reply) => reply,
    }
}
