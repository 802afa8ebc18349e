ghost use Rattle.std.specs.Prelude.{◌≡◌, ◌≤◌, ◌<◌};
ghost use Rattle.size_values.specs.Moments.{moment_limit};
ghost use Rattle.serial_steps.specs.core_turns.specs.Turns.{IsServed, IsTurn};
ghost use Rattle.gates.specs.Bells.{rings_at};
ghost use Rattle.gates.specs.History.{MayAnswer};
ghost use Rattle.gates.specs.Times.{latest_after, no_earlier};

use crate::bells::{purpose_of, rings_of};
use crate::times::{at_moment, latest_after};
use record_keeper::Keeper;
use row_machine::{Answer, Event};
use serial_steps::{Daemon, facts_hold};
use std::alloc::Global;
use turnstile::{Machine, Rings};

/// The server with its keeper, as the one machine under the lock that links and workers share. It
/// is lent no host, no source and no sink, so none of their calls is made under the lock. Clocks are
/// read before the lock is had, so an event may come with an earlier moment than the one before it:
/// its turn is then made at the latest moment of those before.
#[derive(Drop)]
pub struct DaemonMachine<R: Keeper> {
    alloc: Global,
    daemon: Daemon,
    keeper: R,
    /// The latest moment at which a turn was made, in seconds since 1970; 0 before the first.
    latest: u64,
    ghost early: { latest < moment_limit },
}

impl<R: Keeper> DaemonMachine<R> {
    pub fn new(alloc: Global, daemon: Daemon, keeper: R) -> DaemonMachine<R> {
        DaemonMachine {
            alloc,
            daemon,
            keeper,
            latest: 0,
        }
    }
}

impl<R: Keeper> Machine for DaemonMachine<R> {
    type Event = Event;

    type Answer = Answer;

    ghost takes = { IsServed };

    ghost may_answer = { MayAnswer };

    ghost rung = { rings_at };

    fn turn(&mut self, event: Event) -> (Answer, Rings)
        requires { IsServed event }
        ensures answer { MayAnswer event result.0 }
        ensures rings { result.1 ≡ rings_at event result.0 }

        // One turn of the server, at the moment of the event, or at the latest one before where that is later.
        ensures turned { IsTurn self.old.daemon (R.store self.old.keeper)
            (no_earlier self.old.latest event) result.0 self.new.daemon (R.store self.new.keeper) }
        ensures latest { self.new.latest ≡ latest_after self.old.latest event }

        // The moments of turns never fall.
        ensures rises { self.old.latest ≤ self.new.latest }
    {
        facts_hold(&self.daemon);
        let purpose = purpose_of(&event);
        let latest = latest_after(self.latest, &event);
        let taken = at_moment(latest, event);
        let answer = self.daemon.turn(self.alloc, &mut self.keeper, taken);
        self.latest = latest;
        let rings = rings_of(purpose, &answer);
        (answer, rings)
    }
}
