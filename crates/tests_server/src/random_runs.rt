//! Random runs, each named by its seed.

use crate::chance::Chance;
use crate::events::{SETUP, happens};
use crate::judging::all_stands;
use crate::server::{Server, new_server};
use std::alloc::Global;

/// The seed after the last one.
const RUNS: u64 = 9;

/// How many events a run has.
const EVENTS: u64 = 250;

/// Calls of the keeper that fail. The first two are the load and the first commit, and the next
/// thirteen those before the first event.
const FAILS: [u64; 12] = [17, 18, 23, 31, 32, 33, 41, 50, 55, 63, 71, 90];

/// The first event after which something does not stand.
fn wrong_event(server: &mut Server, seed: u64) -> Option<u64> {
    let mut chance = Chance::of(seed);
    for event in 0..EVENTS {
        if !happens(server, &mut chance) || !all_stands(server) {
            return Some(event);
        }
    }
    None
}

/// The first event of the run of a seed that goes wrong, on a server with three projects more than its own.
fn wrong_in_run(alloc: Global, seed: u64) -> Option<u64> {
    let Some(mut server) = new_server(alloc, &FAILS) else {
        return Some(0);
    };
    let wrong = if server.does_all(SETUP) {
        wrong_event(&mut server, seed)
    } else {
        Some(0)
    };
    drop(server);
    wrong
}

#[test]
fn random_runs_keep_to_the_limits(rt: HostRuntime) {
    for seed in 1..RUNS {
        let wrong = wrong_in_run(rt.alloc(), seed);
        assert!(rt; wrong == None, "seed {seed}: {wrong:?}");
    }
}
