ghost use Rattle.std.specs.Prelude.{◌≡◌, ◌≤◌, ◌↔◌, IsTrue, List, [], None, Option, is_some, length};
ghost use Rattle.machine_laws.specs.Waits.{IsAlone};
ghost use Rattle.operations.specs.OperationTable.{live_at};
ghost use Rattle.row_machine.specs.declared.events.Event.TheVariants as event;
ghost use Rattle.row_machine.specs.facts.Whole.{IsWhole};
ghost use Rattle.core_turns.specs.Turns.{IsServed, IsTurn, without_notices};
ghost use Rattle.serial_steps.specs.Steps.{Finishes, Step, Steps, StepsTo, WaitsFor, most_steps};
ghost use Rattle.serial_steps.specs.Steps.{hosted, number_in, serial, serial_world};

use crate::worker::{facts_hold, go_on};
use core_turns::Daemon;
use host_model::{Host, HostCall};
use http_front::Clock;
use record_keeper::Keeper;
use records::Command;
use row_machine::Answer;
use row_readings::StateRef;
use std::alloc::Global;
use std::marker::Model;
use std::mem;

/// So many steps end all operations that can be live at once: at most 1,024, of at most four steps
/// each.
pub const MOST_STEPS: u32 = 4096;

/// A server on one thread, with one worker of its own. The worker asks for a call where it has none
/// in hand, and else makes the call that it has on the host and reports of it. Contracts see the
/// state of the row machine, and the call in hand.
#[derive(Drop)]
pub struct SerialDaemon {
    daemon: Daemon,
    hand: Option<(u64, HostCall)>,
}

impl Model for SerialDaemon {
    ghost use Rattle.serial_steps.specs.Steps.{Serial};

    ghost Value = { Serial };

    ghost use Rattle.serial_steps.specs.View.{serial_of, IsAtWork};

    ghost view = { serial_of };

    ghost invariant = { IsAtWork };
}

impl SerialDaemon {
    /// A server of which nothing is live, with a worker that has no call in hand.
    pub fn of(daemon: Daemon) -> SerialDaemon
        requires idle { daemon.operations.live ≡ [] }
        ensures { result ≡ serial daemon None }
    {
        SerialDaemon { daemon, hand: None }
    }

    /// Between two calls the facts of the rows hold, and all live operations wait but for the one
    /// whose call is in hand: this does nothing.
    pub fn works_alone(&self)
        ensures whole { IsWhole self.now.state }
        ensures alone { IsAlone self.now.state (number_in self.now.hand) }
    {
        facts_hold(&self.daemon);
    }

    /// Answers a command at this moment. The worker keeps the call that it has in hand.
    pub fn ask<R: Keeper>(
        &mut self,
        alloc: Global,
        keeper: &mut R,
        command: &Command,
        moment: u64,
    ) -> Answer
        requires served { IsServed (event.Ask command.now moment) }
        ensures turn { IsTurn self.old.state (R.store keeper.old)
            (event.Ask command.now moment) result self.new.state (R.store keeper.new) }
        ensures hand { self.new.hand ≡ self.old.hand }
    {
        facts_hold(&self.daemon);
        self.daemon.ask(alloc, keeper, command, moment)
    }

    /// The rows and operations, to be read, without the notices.
    pub fn view(&self) -> StateRef<'_>
        ensures rows { result ≡ without_notices self.now.state }
        ensures whole { IsWhole self.now.state }
    {
        self.daemon.view()
    }

    /// Whether the operation of this number is live.
    pub fn is_live(&self, number: u64) -> bool
        ensures { result ≡ is_some (live_at self.now.state.operations number) }
    {
        self.daemon.is_live(number)
    }

    /// Whether no operation is live.
    pub fn is_idle(&self) -> bool
        ensures { IsTrue result ↔ (self.now.state.operations.live ≡ []) }
    {
        self.daemon.view().live.is_empty()
    }

    /// One step of the worker.
    pub fn step<R: Keeper, H: Host, C: Clock>(
        &mut self,
        alloc: Global,
        keeper: &mut R,
        host: &mut H,
        clock: &mut C,
    )
        ensures { (s : Step) × Steps
            (serial_world self.old (R.store keeper.old) (hosted H.contents H.failures host.old)
            (C.readings clock.old))
            s
            (serial_world self.new (R.store keeper.new) (hosted H.contents H.failures host.new)
            (C.readings clock.new)) }
    {
        facts_hold(&self.daemon);
        let hand = self.hand.take();
        let next = go_on(alloc, &mut self.daemon, keeper, host, clock, hand);
        // One call lets the empty hand go; an assignment would do so for each kind of call.
        drop(mem::replace(&mut self.hand, next));
    }

    /// So many steps of the worker.
    pub fn make_steps<R: Keeper, H: Host, C: Clock>(
        &mut self,
        alloc: Global,
        keeper: &mut R,
        host: &mut H,
        clock: &mut C,
        count: u32,
    )
        ensures { (steps : List Step) × (length steps ≡ count) × StepsTo
            (serial_world self.old (R.store keeper.old) (hosted H.contents H.failures host.old)
            (C.readings clock.old))
            steps
            (serial_world self.new (R.store keeper.new) (hosted H.contents H.failures host.new)
            (C.readings clock.new)) }
    {
        for made in 0..count {
            self.step(alloc, keeper, host, clock);
        }
    }

    /// Steps of the worker until no operation is live.
    pub fn finish<R: Keeper, H: Host, C: Clock>(
        &mut self,
        alloc: Global,
        keeper: &mut R,
        host: &mut H,
        clock: &mut C,
    )
        ensures { (steps : List Step) × Finishes
            (serial_world self.old (R.store keeper.old) (hosted H.contents H.failures host.old)
            (C.readings clock.old))
            steps
            (serial_world self.new (R.store keeper.new) (hosted H.contents H.failures host.new)
            (C.readings clock.new))
            × (length steps ≤ most_steps) }
    {
        self.works_alone();
        for made in 0..MOST_STEPS {
            if self.is_idle() {
                return;
            }
            self.works_alone();
            self.step(alloc, keeper, host, clock);
        }
    }

    /// Steps of the worker until the operation of this number has ended.
    pub fn wait_for<R: Keeper, H: Host, C: Clock>(
        &mut self,
        alloc: Global,
        keeper: &mut R,
        host: &mut H,
        clock: &mut C,
        number: u64,
    )
        ensures { (steps : List Step) × WaitsFor number
            (serial_world self.old (R.store keeper.old) (hosted H.contents H.failures host.old)
            (C.readings clock.old))
            steps
            (serial_world self.new (R.store keeper.new) (hosted H.contents H.failures host.new)
            (C.readings clock.new))
            × (length steps ≤ most_steps) }
    {
        self.works_alone();
        for made in 0..MOST_STEPS {
            if !self.is_live(number) {
                return;
            }
            self.works_alone();
            self.step(alloc, keeper, host, clock);
        }
    }
}
