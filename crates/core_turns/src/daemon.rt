ghost use Rattle.std.specs.Prelude.{◌≡◌, ◌<◌, is_some};
ghost use Rattle.operations.specs.OperationTable.{live_at};
ghost use Rattle.record_keeper.specs.Store.{Store};
ghost use Rattle.row_machine.specs.declared.events.Event.TheVariants as event_of;
ghost use Rattle.row_machine.specs.facts.Whole.{IsWhole};
ghost use Rattle.size_values.specs.Moments.{moment_limit};
ghost use Rattle.core_turns.specs.Opens.{Opens};
ghost use Rattle.core_turns.specs.Turns.{IsServed, IsTurn, without_notices};

use crate::hearing::collect_events;
use crate::{asking, working};
use core_instances::{Estate, OpenFault, load_rows};
use event_hub::Hub;
use host_model::Report;
use record_keeper::Keeper;
use records::{Command, Filter};
use row_machine::{Answer, Event};
use row_readings::StateRef;
use std::alloc::Global;
use std::marker::Model;

/// The server as one value: its rows, its background operations, and the last notices of what it
/// did, for those who listen (<https://linuxcontainers.org/incus/docs/main/events/>). It takes one
/// turn after the other, and each is one step of the row machine. Memory is taken by a request, by a
/// listener, and at the end of an operation; no other turn takes any.
#[derive(Drop)]
pub struct Daemon {
    estate: Estate,
    hub: Hub,
}

impl Model for Daemon {
    ghost use Rattle.row_machine.specs.machine.State.{State};

    ghost Value = { State };

    ghost use Rattle.core_turns.specs.View.{state_in, IsDaemon};

    ghost view = { state_in };

    ghost invariant = { IsDaemon };
}

/// The facts of the rows hold at all times: this does nothing.
fn facts_hold(estate: &Estate)
    ensures { IsWhole estate.now.state }
{
    let _rows = estate.view();
}

impl Daemon {
    /// The server over the rows that the entries of a keeper open to; one without entries gets the
    /// project `default` and its profile `default`, in one commit. No operation is live.
    pub fn begin<R: Keeper>(alloc: Global, keeper: &mut R) -> Result<Daemon, OpenFault>
        ensures { Opens result (R.store keeper.old) (R.store keeper.new) }
    {
        let Ok(hub) = Hub::new(alloc) else {
            return Err(OpenFault::NoMemory);
        };
        let estate = load_rows(alloc, keeper)?;
        facts_hold(&estate);
        Ok(Daemon { estate, hub })
    }

    /// The rows and operations, to be read, without the notices.
    pub fn view(&self) -> StateRef<'_>
        ensures rows { result ≡ without_notices self.now }
        ensures whole { IsWhole self.now }
    {
        self.estate.view()
    }

    /// Whether an operation is live.
    pub fn is_live(&self, number: u64) -> bool
        ensures { result ≡ is_some (live_at self.now.operations number) }
    {
        asking::is_live(&self.estate.view(), number)
    }

    /// A client asks for a command. What the keeper did not commit is not done. The moment is in
    /// seconds since 1970.
    pub fn ask<R: Keeper>(
        &mut self,
        alloc: Global,
        keeper: &mut R,
        command: &Command,
        moment: u64,
    ) -> Answer
        requires served { IsServed (event_of.Ask command.now moment) }
        ensures { IsTurn self.old (R.store keeper.old) (event_of.Ask command.now moment) result
            self.new (R.store keeper.new) }
    {
        let answer = asking::ask(alloc, &mut self.estate, keeper, command, moment);
        collect_events(&mut self.estate, &mut self.hub);
        answer
    }

    /// A client that waits for an operation looks at it.
    pub fn look(&self, number: u64) -> Answer
        ensures { (store : Store) → IsTurn self.now store (event_of.Look number) result self.now
            store }
    {
        asking::look(&self.estate, number)
    }

    /// A worker asks for a call to make on the host.
    pub fn take(&mut self, moment: u64) -> Answer
        requires early { moment < moment_limit }
        ensures { (store : Store) → IsTurn self.old store (event_of.Take moment) result self.new
            store }
    {
        let answer = working::take(&mut self.estate, moment);
        collect_events(&mut self.estate, &mut self.hub);
        answer
    }

    /// A worker reports of the call that it made for an operation.
    pub fn report<R: Keeper>(
        &mut self,
        alloc: Global,
        keeper: &mut R,
        number: u64,
        report: Report,
        moment: u64,
    ) -> Answer
        requires early { moment < moment_limit }
        ensures { IsTurn self.old (R.store keeper.old) (event_of.Done number report moment)
            result self.new (R.store keeper.new) }
    {
        let answer = working::report(alloc, &mut self.estate, keeper, number, report, moment);
        collect_events(&mut self.estate, &mut self.hub);
        answer
    }

    /// A listener asks for the notices from a number on that it takes; 0 asks for the next number
    /// alone.
    pub fn fetch(&self, alloc: Global, cursor: u64, filter: &Filter) -> Answer
        ensures { (store : Store) → IsTurn self.now store (event_of.Fetch cursor filter.now) result
            self.now store }
    {
        match self.hub.since(alloc, cursor, filter) {
            Ok(fetched) => Answer::Fetched(fetched),
            Err(_) => Answer::NoMemory,
        }
    }

    /// No more work is handed out once nothing is pending.
    pub fn close(&mut self) -> Answer
        ensures { (store : Store) → IsTurn self.old store event_of.Close result self.new store }
    {
        let answer = working::close(&mut self.estate);
        collect_events(&mut self.estate, &mut self.hub);
        answer
    }

    /// One event of any kind.
    pub fn turn<R: Keeper>(&mut self, alloc: Global, keeper: &mut R, event: Event) -> Answer
        requires served { IsServed event }
        ensures { IsTurn self.old (R.store keeper.old) event result self.new (R.store keeper.new) }
    {
        match event {
            Event::Ask(command, moment) => {
                let answer = self.ask(alloc, keeper, &command, moment);
                drop(command);
                answer
            }
            Event::Look(number) => self.look(number),
            Event::Take(moment) => self.take(moment),
            Event::Done(number, report, moment) => {
                self.report(alloc, keeper, number, report, moment)
            }
            Event::Fetch(cursor, filter) => {
                let answer = self.fetch(alloc, cursor, &filter);
                drop(filter);
                answer
            }
            Event::Close => self.close(),
        }
    }
}
