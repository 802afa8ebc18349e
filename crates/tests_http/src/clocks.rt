//! Clocks.

use http_front::{Clock, StillClock, SystemClock};
use size_values::MOMENT_LIMIT;
use std::time::Duration;
use std::{io, time};

/// A system that gives always the same, or nothing.
#[derive(Clone, Copy)]
struct System {
    since_1970: Option<Duration>,
}

impl time::Clock for System {
    fn monotonic(&self) -> io::Result<Duration> {
        self.since_1970()
    }

    fn since_1970(&self) -> io::Result<Duration> {
        match self.since_1970 {
            Some(time) => Ok(time),
            None => Err(io::Error::from(io::ErrorKind::Unsupported)),
        }
    }
}

/// Whether a clock gives this moment twice, and its twin too.
fn gives<C: Clock + Drop>(mut clock: C, moment: u64) -> bool {
    let mut twin = clock.twin();
    (clock.now() == moment) & (clock.now() == moment) & (twin.now() == moment)
}

/// Moments, the last one before the year 10000.
const MOMENTS: &[u64] = &[0, 1, 1_700_000_000, 253_402_300_799];

fn still_clock_gives(moment: u64) -> bool {
    gives(StillClock::new(moment.min(MOMENT_LIMIT - 1)), moment)
}

/// The seconds that a system gives, and the moment that its clock gives.
const SYSTEMS: &[(Option<u64>, u64)] = &[
    (Some(0), 0),
    (Some(1_700_000_000), 1_700_000_000),
    (Some(253_402_300_799), 253_402_300_799),
    (Some(253_402_300_800), 253_402_300_799),
    (Some(18_446_744_073_709_551_615), 0),
    (None, 0),
];

fn clock_of_system_gives(seconds: Option<u64>, moment: u64) -> bool {
    let since_1970 = seconds.map(Duration::from_secs);
    gives(SystemClock::new(System { since_1970 }), moment)
}

#[test]
fn clocks_give_their_moments(rt: HostRuntime) {
    for moment in MOMENTS {
        assert!(rt; still_clock_gives(*moment), "{moment}");
    }
    for (seconds, moment) in SYSTEMS {
        assert!(rt; clock_of_system_gives(*seconds, *moment), "{moment}");
    }
}

#[test]
fn the_clock_of_this_system_is_set(rt: HostRuntime) {
    let moment = SystemClock::new(rt).now();
    assert!(rt; 0 < moment && moment < MOMENT_LIMIT);
}
