ghost use Rattle.std.specs.Prelude.{◌≡◌};

use crate::progress::Progress;
use http_front::Clock;
use std::marker::Model;

/// A clock that is watched. Contracts see it as the clock in it, whose readings it gives.
#[derive(Drop)]
pub struct WatchedClock<'a, T, C> {
    progress: &'a Progress<'a, T>,
    clock: C,
}

impl<'a, T, C> Model for WatchedClock<'a, T, C> {
    ghost Value = { C };

    ghost view = { λ w. w.clock };
}

impl<'a, T: Eprint, C: Clock> WatchedClock<'a, T, C> {
    /// This clock, watched for the progress.
    pub fn new(progress: &'a Progress<'a, T>, clock: C) -> WatchedClock<'a, T, C>
        ensures { result ≡ clock }
    {
        WatchedClock { progress, clock }
    }
}

impl<T: Eprint, C: Clock> Clock for WatchedClock<'_, T, C> {
    ghost readings = { λ c. C.readings c };

    fn now(&mut self) -> u64 {
        self.progress.see_reading();
        self.clock.now()
    }

    fn twin(&self) -> Self {
        WatchedClock {
            progress: self.progress,
            clock: self.clock.twin(),
        }
    }
}
