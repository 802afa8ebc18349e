ghost use Rattle.std.specs.Prelude.{◌≡◌, ◌<◌, ℕ, [], ◌∷◌, Option};
ghost use Rattle.size_values.specs.Moments.{moment_limit};
ghost use Rattle.http_front.specs.Clocks.{Reads, Readings, moment_of, standing_still};

use size_values::MOMENT_LIMIT;
use std::marker::Model;
use std::time;
use std::time::{SystemTime, UNIX_EPOCH};

/// Where moments come from, in seconds since 1970. A clock does not fail.
pub trait Clock {
    // The readings to come, where the clock tells them.
    ghost readings: { Self → Readings };

    /// The next reading.
    fn now(&mut self) -> u64
        ensures early { result < moment_limit }
        ensures reading { Reads (readings self.old) (result ∷ []) (readings self.new) };

    /// A clock like this one, for another owner: it tells the same readings.
    fn twin(&self) -> Self
        ensures { readings result ≡ readings self.now };
}

/// A clock that stands still: it always gives the same moment, and tells so.
#[derive(Drop)]
pub struct StillClock {
    moment: u64,
}

impl Model for StillClock {
    ghost use Rattle.std.specs.Prelude.{ℕ, ◌<◌};
    ghost use Rattle.size_values.specs.Moments.{moment_limit};

    ghost Value = { ℕ };

    ghost view = { λ s. s.moment };

    ghost invariant = { λ s. s.moment < moment_limit };
}

impl StillClock {
    /// A clock that stands still at this moment.
    pub fn new(moment: u64) -> StillClock
        requires { moment < moment_limit }
        ensures { result ≡ moment }
    {
        StillClock { moment }
    }
}

impl Clock for StillClock {
    ghost readings = { standing_still };

    fn now(&mut self) -> u64 {
        self.moment
    }

    fn twin(&self) -> StillClock {
        StillClock {
            moment: self.moment,
        }
    }
}

/// The clock of the system. It tells no readings. Contracts see the last moment that it gave, at first 0.
#[derive(Drop)]
pub struct SystemClock<T: time::Clock + Copy> {
    system: T,
    last: u64,
}

impl<T: time::Clock + Copy> Model for SystemClock<T> {
    ghost use Rattle.std.specs.Prelude.{ℕ, ◌<◌};
    ghost use Rattle.size_values.specs.Moments.{moment_limit};

    ghost Value = { ℕ };

    ghost view = { λ s. s.last };

    ghost invariant = { λ s. s.last < moment_limit };
}

impl<T: time::Clock + Copy> SystemClock<T> {
    /// The clock of this system, which was not read yet.
    pub fn new(system: T) -> SystemClock<T>
        ensures { result ≡ 0 }
    {
        SystemClock { system, last: 0 }
    }
}

impl<T: time::Clock + Copy> Clock for SystemClock<T> {
    ghost use Rattle.std.specs.Prelude.{None};

    ghost readings = { λ _. None };

    /// What the system gives, or the last moment again where it gives none.
    fn now(&mut self) -> u64
        ensures early { result < moment_limit }
        ensures reading { Reads None (result ∷ []) None }
        ensures last { self.new ≡ result }
    {
        self.last = moment_of(seconds_of(&self.system), self.last);
        self.last
    }

    fn twin(&self) -> SystemClock<T> {
        SystemClock {
            system: self.system,
            last: self.last,
        }
    }
}

/// The seconds since 1970 that a system gives, if it gives any.
fn seconds_of<T: time::Clock>(system: &T) -> Option<u64> {
    let Ok(now) = SystemTime::now(system) else {
        return None;
    };
    match now.duration_since(UNIX_EPOCH) {
        Ok(since) => Some(since.as_secs()),
        Err(_) => None,
    }
}

/// The moment that is given for these seconds, where `last` is the one that was given last.
fn moment_of(seconds: Option<u64>, last: u64) -> u64
    requires { last < moment_limit }
    ensures moment { result ≡ moment_of seconds last }
    ensures early { result < moment_limit }
{
    match seconds {
        Some(seconds) => seconds.min(MOMENT_LIMIT - 1),
        None => last,
    }
}
