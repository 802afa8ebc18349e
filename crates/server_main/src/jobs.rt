ghost use Rattle.server_main.specs.Jobs.{is_link};

use crate::busy::BUSY;
use host_model::Host;
use http_front::{Clock, Sink, Source};
use record_keeper::Keeper;
use rest_json::Terms;
use serve_loop::{ConnectionEnd, LockedGate, Log, serve_connection, work};
use serving::{Job, LockedHost};
use std::alloc::Global;
use std::sync::Wait;
use std::sync::ledger::Ledger;
use std::time;

/// What a server begins beside its other work.
#[derive(Drop)]
pub enum ServerJob<S, K, R: Keeper, H: Host, C, L: Ledger, T: Wait + time::Clock, O> {
    /// A connection, whose requests are answered on these terms.
    Link {
        rt: T,
        alloc: Global,
        gate: LockedGate<R, L, T>,
        source: S,
        sink: K,
        clock: C,
        terms: Terms,
        log: O,
    },
    /// Calls of background operations, which are made on the host until the server is closed.
    Worker {
        rt: T,
        gate: LockedGate<R, L, T>,
        host: LockedHost<H, T>,
        clock: C,
        log: O,
    },
}

/// What is left of a job: its gate, which another job may have, and why a connection ended.
#[derive(Drop)]
pub enum JobEnd<R: Keeper, L: Ledger, T: Wait + time::Clock> {
    Link(ConnectionEnd, LockedGate<R, L, T>),
    Declined(LockedGate<R, L, T>),
    Worker(LockedGate<R, L, T>),
}

impl<
    S: Source + Drop,
    K: Sink + Drop,
    R: Keeper + Drop,
    H: Host + Drop,
    C: Clock + Drop,
    L: Ledger,
    T: Wait + time::Clock + Copy + Drop,
    O: Log + Drop,
> Job for ServerJob<S, K, R, H, C, L, T, O> {
    type Out = JobEnd<R, L, T>;

    ghost link = { is_link };

    fn is_link(&self) -> bool {
        match self {
            ServerJob::Link { .. } => true,
            ServerJob::Worker { .. } => false,
        }
    }

    fn run(self) -> JobEnd<R, L, T> {
        match self {
            ServerJob::Link {
                rt,
                alloc,
                mut gate,
                mut source,
                mut sink,
                mut clock,
                terms,
                mut log,
            } => {
                let ends = serve_connection(
                    &rt,
                    alloc,
                    &mut gate,
                    &mut source,
                    &mut sink,
                    &mut clock,
                    terms,
                    &mut log,
                );
                JobEnd::Link(ends, gate)
            }
            ServerJob::Worker {
                rt,
                mut gate,
                mut host,
                mut clock,
                mut log,
            } => {
                work(&rt, &mut gate, &mut host, &mut clock, &mut log);
                JobEnd::Worker(gate)
            }
        }
    }

    fn decline(self) -> JobEnd<R, L, T> {
        match self {
            ServerJob::Link { gate, mut sink, .. } => {
                let _told = sink.write(BUSY);
                JobEnd::Declined(gate)
            }
            ServerJob::Worker { gate, .. } => JobEnd::Worker(gate),
        }
    }
}
