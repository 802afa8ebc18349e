ghost use Rattle.std.specs.Prelude.{◌≡◌, ◌+◌, None, Some, true};
ghost use Rattle.serial_steps.specs.core_turns.specs.Turns.{IsServed};
ghost use Rattle.gates.specs.History.{GateIdle, idled_after};
ghost use Rattle.serial_steps.specs.Steps.{Step, Steps, hosted, serial, serial_world};
ghost use Rattle.gates.specs.Alone.{serial_world_of, contents_at};

use crate::gate::Gate;
use host_model::{Host, HostCall};
use http_front::Clock;
use record_keeper::Keeper;
use row_machine::{Answer, Event};
use serial_steps::{Daemon, facts_hold, go_on};
use std::alloc::Global;
use std::mem;
use turnstile::Bell;

/// A gate that owns its server and all that it works on: the keeper, the host and a clock. Nobody
/// else has turns at it. Each time that it idles, its one worker makes a step: it asks for a call
/// where it has none in hand, and else makes the call that it has on the host and reports of it.
/// Whatever bell it waits for, that is the whole time of the idle.
#[derive(Drop)]
pub struct AloneGate<R: Keeper, H: Host, C: Clock> {
    alloc: Global,
    daemon: Daemon,
    keeper: R,
    host: H,
    clock: C,
    hand: Option<(u64, HostCall)>,
    made: u64,
    idles: u64,
}

impl<R: Keeper, H: Host, C: Clock> AloneGate<R, H, C> {
    /// The gate of this server, whose worker has no call in hand. It made no turn and did not
    /// idle yet.
    pub fn new(alloc: Global, daemon: Daemon, keeper: R, host: H, clock: C) -> AloneGate<R, H, C>
        ensures serial_world { serial_world_of R.store H.contents H.failures C.readings result
            ≡ serial_world (serial daemon None) (R.store keeper) (hosted H.contents H.failures host)
            (C.readings clock) }
        ensures made { result.made ≡ 0 }
        ensures idles { result.idles ≡ 0 }
    {
        AloneGate {
            alloc,
            daemon,
            keeper,
            host,
            clock,
            hand: None,
            made: 0,
            idles: 0,
        }
    }
}

impl<R: Keeper, H: Host, C: Clock> Gate for AloneGate<R, H, C> {
    ghost contents = { λ g. Some (contents_at (serial_world_of R.store H.contents H.failures C.readings g)) };

    ghost turned = { λ g. g.made };

    ghost idled = { λ g. g.idles };

    fn turn(&mut self, event: Event) -> Answer {
        facts_hold(&self.daemon);
        let answer = self.daemon.turn(self.alloc, &mut self.keeper, event);
        self.made = self.made.saturating_add(1);
        answer
    }

    fn idle(&mut self, _bell: Bell) -> bool
        ensures contents { GateIdle result
            (Some (contents_at (serial_world_of R.store H.contents H.failures C.readings self.old)))
            (Some (contents_at (serial_world_of R.store H.contents H.failures C.readings self.new))) }
        ensures turned { self.new.made ≡ self.old.made }
        ensures idled { self.new.idles ≡ idled_after result self.old.idles }
        ensures is_up { result ≡ true }

        // One step of its worker.
        ensures step { (s : Step) × Steps (serial_world_of R.store H.contents H.failures C.readings self.old) s
            (serial_world_of R.store H.contents H.failures C.readings self.new) }
    {
        let hand = self.hand.take();
        let next = go_on(
            self.alloc,
            &mut self.daemon,
            &mut self.keeper,
            &mut self.host,
            &mut self.clock,
            hand,
        );
        // One call lets the empty hand go; an assignment would do so for each kind of call.
        drop(mem::replace(&mut self.hand, next));
        self.idles = self.idles.saturating_add(1);
        true
    }

    fn made(&self) -> u64 {
        self.made
    }

    fn idles(&self) -> u64 {
        self.idles
    }
}
