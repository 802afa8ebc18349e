//! Bells, by which those who idle at a turnstile are woken.
ghost use Rattle.std.specs.Prelude.{◌≡◌};
ghost use Rattle.turnstile.specs.Bells.{rung_after, rung_last};

use std::sync::Condvar;

/// What one who idles waits for.
#[derive(Clone, Copy, PartialEq, Eq)]
pub enum Bell {
    /// Something of which listeners may be told.
    Events,
    /// The end of an operation.
    Ends,
    /// A call that waits for a worker, or the end of all work.
    Calls,
}

/// Which bells ring.
#[derive(Clone, Copy, PartialEq, Eq)]
pub struct Rings {
    pub events: bool,
    pub ends: bool,
    pub calls: bool,
}

/// The number of the turn after which each bell rang last; 0 before it rang at all.
#[derive(Clone, Copy)]
pub(crate) struct LastRung {
    pub(crate) events: u64,
    pub(crate) ends: u64,
    pub(crate) calls: u64,
}

impl LastRung {
    /// The turn after which this bell rang last.
    pub(crate) fn at(&self, bell: Bell) -> u64
        ensures { result ≡ rung_last self.now bell }
    {
        match bell {
            Bell::Events => self.events,
            Bell::Ends => self.ends,
            Bell::Calls => self.calls,
        }
    }

    /// Notes the bells that ring after this turn.
    pub(crate) fn note(&mut self, rings: Rings, turn: u64)
        ensures { self.new ≡ rung_after self.old rings turn }
    {
        if rings.events {
            self.events = turn;
        }
        if rings.ends {
            self.ends = turn;
        }
        if rings.calls {
            self.calls = turn;
        }
    }
}

/// The bells themselves.
#[derive(Drop)]
pub(crate) struct Bells {
    events: Condvar,
    ends: Condvar,
    calls: Condvar,
}

impl Bells {
    pub(crate) fn new() -> Bells {
        Bells {
            events: Condvar::new(),
            ends: Condvar::new(),
            calls: Condvar::new(),
        }
    }

    pub(crate) fn of(&self, bell: Bell) -> &Condvar {
        match bell {
            Bell::Events => &self.events,
            Bell::Ends => &self.ends,
            Bell::Calls => &self.calls,
        }
    }

    /// Wakes all who wait for one of these.
    pub(crate) fn ring(&self, rings: Rings) {
        if rings.events {
            self.events.notify_all();
        }
        if rings.ends {
            self.ends.notify_all();
        }
        if rings.calls {
            self.calls.notify_all();
        }
    }
}
