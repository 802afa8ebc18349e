ghost use Rattle.std.specs.Prelude.{◌≡◌, List};
ghost use Rattle.row_machine.specs.facts.Whole.{IsWhole};
ghost use Rattle.serial_steps.specs.core_turns.specs.Turns.{without_notices};
ghost use Rattle.serial_steps.specs.Steps.{hosted, serial_world, Step};
ghost use Rattle.serial_run.specs.Answers.{Answers, OpensService};
ghost use Rattle.serial_run.specs.Exchanges.{IsPaced};

use crate::asking::{reply_to, tell_of_server};
use crate::pacing::make_up_to;
use command_words::Pace;
use host_model::Host;
use http_front::{Clock, Request};
use record_keeper::Keeper;
use rest_answers::{PrintedReply, answer_for};
use rest_json::Terms;
use rest_routes::{Router, asks_for_server};
use row_readings::StateRef;
use serial_steps::{Daemon, SerialDaemon};
use start_faults::OpenFault;
use std::alloc::Global;
use std::marker::Model;

/// Takes one request after the other, and has one worker for its background operations. Contracts
/// see the state of the row machine that its rows are, and the call that the worker has in hand.
#[derive(Drop)]
pub struct Service {
    router: Router,
    daemon: SerialDaemon,
}

impl Model for Service {
    ghost use Rattle.serial_steps.specs.Steps.{Serial};

    ghost Value = { Serial };

    ghost view = { λ s. s.daemon };
}

impl Service {
    /// A service over the rows that the entries of a keeper open to; one without entries gets the
    /// project `default` and its profile `default`, in one commit. No operation is live.
    pub fn new<R: Keeper>(alloc: Global, keeper: &mut R) -> Result<Service, OpenFault>
        ensures { OpensService result (R.store keeper.old) (R.store keeper.new) }
    {
        let Ok(router) = Router::new(alloc) else {
            return Err(OpenFault::NoMemory);
        };
        let daemon = Daemon::begin(alloc, keeper)?;
        Ok(Service {
            router,
            daemon: SerialDaemon::of(daemon),
        })
    }

    /// Answers one request: routes it, asks for its command, and prints the reply. Where the
    /// command waits for an operation, the worker makes its steps until that has ended. The clock
    /// is read once for each command that is asked, each call that is asked for and each report. Who
    /// asks for the server is told of it by a text that stands ready.
    /// The terms say how the request is read and its reply is printed.
    #[tactic(auto, using(crate::proofs::Answering::asked_by_get))]
    pub fn answer<R: Keeper, H: Host, C: Clock>(
        &mut self,
        alloc: Global,
        keeper: &mut R,
        host: &mut H,
        clock: &mut C,
        request: &Request,
        terms: Terms,
    ) -> PrintedReply
        ensures { Answers terms
            (serial_world self.old (R.store keeper.old) (hosted H.contents H.failures host.old)
            (C.readings clock.old))
            (serial_world self.new (R.store keeper.new) (hosted H.contents H.failures host.new)
            (C.readings clock.new))
            request.now result }
    {
        if asks_for_server(request) && !request.last {
            return tell_of_server(&self.daemon, clock, request, terms);
        }
        let reply = reply_to(
            alloc,
            &self.router,
            &mut self.daemon,
            keeper,
            host,
            clock,
            request,
            terms,
        );
        let answered = answer_for(alloc, &reply, terms, request);
        drop(reply);
        answered
    }

    /// The rows and operations, to be read, without the notices.
    pub fn view(&self) -> StateRef<'_>
        ensures rows { result ≡ without_notices self.now.state }
        ensures whole { IsWhole self.now.state }
    {
        self.daemon.view()
    }

    /// The steps of the worker that follow a reply: no more are made once no operation is live.
    pub fn go_on<R: Keeper, H: Host, C: Clock>(
        &mut self,
        alloc: Global,
        keeper: &mut R,
        host: &mut H,
        clock: &mut C,
        pace: Pace,
    )
        ensures { (steps : List Step) × IsPaced pace
            (serial_world self.old (R.store keeper.old) (hosted H.contents H.failures host.old)
            (C.readings clock.old)) steps
            (serial_world self.new (R.store keeper.new) (hosted H.contents H.failures host.new)
            (C.readings clock.new)) }
    {
        match pace {
            Pace::Steps(count) => {
                make_up_to(alloc, &mut self.daemon, keeper, host, clock, count)
            }
            Pace::All => self.daemon.finish(alloc, keeper, host, clock),
        }
    }
}
