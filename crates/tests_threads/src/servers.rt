//! Servers over links in memory, without threads and with them.
ghost use Rattle.std.specs.Prelude.{◌≡◌};

use crate::jobs::{Bench, Board, TestJob};
use crate::links::{doors, numbers};
use http_front::{ByteSink, ByteSource};
use serving::{
    Doors, Job, RefusingSpawner, Spawner, ThreadSpawner, ThreadTask, serve, start_thread,
    start_thread_or_decline, status_of,
};
use size_values::NoMemory;
use std::alloc::Global;
use std::sync::atomic::Ordering;
use std::sync::{Arc, Wait};
use std::thread::Threads;

/// The links that there are, how many are asked for, how many are served at once, how many workers, which accepts and
/// which starts fail.
struct Case {
    links: usize,
    connections: u32,
    at_once: u16,
    workers: u8,
    accepts: &'static [u64],
    starts: &'static [u64],
}

/// What became of it: the status, the links given, the link jobs and workers begun, the links served, their bytes, the
/// workers that have ended, and the links turned away.
type Told = (u8, u64, u64, u64, u64, u64, u64, u64);

const PLAIN: Case = Case {
    links: 3,
    connections: 3,
    at_once: 5,
    workers: 2,
    accepts: &[],
    starts: &[],
};

/// Cases without threads.
const CASES: &[(Case, Told)] = &[
    (PLAIN, (0, 3, 3, 2, 3, 6, 2, 0)),
    (
        Case {
            connections: 5,
            ..PLAIN
        },
        (0, 3, 3, 2, 3, 6, 2, 0),
    ),
    (
        Case {
            connections: 2,
            ..PLAIN
        },
        (0, 2, 2, 2, 2, 3, 2, 0),
    ),
    (
        Case {
            workers: 0,
            ..PLAIN
        },
        (0, 3, 3, 0, 3, 6, 0, 0),
    ),
    (
        Case {
            accepts: &[1],
            ..PLAIN
        },
        (11, 0, 0, 2, 0, 0, 2, 0),
    ),
    (
        Case {
            accepts: &[3],
            ..PLAIN
        },
        (11, 2, 2, 2, 2, 3, 2, 0),
    ),
    (
        Case {
            starts: &[1],
            ..PLAIN
        },
        (12, 0, 0, 0, 0, 0, 0, 0),
    ),
    (
        Case {
            starts: &[2],
            ..PLAIN
        },
        (12, 0, 0, 1, 0, 0, 1, 0),
    ),
    (
        Case {
            starts: &[3, 5],
            ..PLAIN
        },
        (0, 3, 1, 2, 1, 2, 2, 2),
    ),
    (
        Case {
            at_once: 2,
            ..PLAIN
        },
        (0, 3, 2, 2, 2, 3, 2, 1),
    ),
    (
        Case {
            at_once: 0,
            ..PLAIN
        },
        (0, 3, 0, 2, 0, 0, 2, 3),
    ),
];

/// Serves the links of a case, each when it is taken in.
fn alone<R: Wait + Copy + Drop>(rt: R, alloc: Global, case: &Case) -> Result<Told, NoMemory> {
    let board = Arc::new(alloc, Board::new())?;
    let mut doors = doors(alloc, case.links, case.accepts)?;
    let mut spawner = RefusingSpawner::new(numbers(alloc, case.starts)?);
    let slots = usize::from(case.at_once) + usize::from(case.workers) + 1;
    let mut jobs: InMemory<R> = Bench::new(rt, alloc, &board, 0, slots)?;
    let status = status_of(serve::<InMemoryJob<R>, _, _, _>(
        alloc,
        &mut jobs,
        &mut doors,
        &mut spawner,
        u64::from(case.connections),
        usize::from(case.at_once),
        u32::from(case.workers),
    ));
    let links = begun::<InMemoryJob<R>, _>(&spawner, true);
    let workers = begun::<InMemoryJob<R>, _>(&spawner, false);
    Ok(end_of_server(status, doors.given(), links, workers, &board))
}

type InMemory<R> = Bench<ByteSource, ByteSink, R>;

type InMemoryJob<R> = TestJob<ByteSource, ByteSink, R>;

fn begun<J: Job, P: Spawner<J>>(spawner: &P, links: bool) -> u64 {
    spawner.begun(links)
}

fn end_of_server(status: u8, given: u64, links: u64, workers: u64, board: &Board) -> Told {
    let served = board.served.load(Ordering::SeqCst);
    let bytes = board.bytes.load(Ordering::SeqCst);
    let ended = board.ended.load(Ordering::SeqCst);
    let away = board.away.load(Ordering::SeqCst);
    (status, given, links, workers, served, bytes, ended, away)
}

/// Serves three links on threads, which all wait until the last was begun.
fn on_threads<R: Threads + Wait + Copy + Drop + Send + Sync + 'static>(
    rt: R,
    alloc: Global,
) -> Result<Told, NoMemory> {
    let board = Arc::new(alloc, Board::new())?;
    let mut doors = doors(alloc, 3, &[])?;
    let start = move |job: InMemoryJob<R>| -> Option<ThreadTask<Arc<Board, Global>>> {
        start_thread(&rt, alloc, job)
    };
    let start_or_decline = move |job: InMemoryJob<R>| -> Result<
        ThreadTask<Arc<Board, Global>>,
        Arc<Board, Global>,
    > { start_thread_or_decline(&rt, alloc, job) };
    let mut spawner = ThreadSpawner::new(rt, start, start_or_decline);
    let mut jobs: InMemory<R> = Bench::new(rt, alloc, &board, 3, 6)?;
    let status = status_of(serve::<InMemoryJob<R>, _, _, _>(
        alloc,
        &mut jobs,
        &mut doors,
        &mut spawner,
        3,
        3,
        2,
    ));
    let links = begun::<InMemoryJob<R>, _>(&spawner, true);
    let workers = begun::<InMemoryJob<R>, _>(&spawner, false);
    Ok(end_of_server(status, doors.given(), links, workers, &board))
}

#[test]
fn servers_end_as_listed(rt: HostRuntime) {
    let alloc = rt.alloc();
    for (number, (case, want)) in CASES.iter().enumerate() {
        assert!(rt; alone(rt, alloc, case) == Ok(*want), "case {number}");
    }
}

#[test]
fn three_links_at_once(rt: HostRuntime) {
    let told = on_threads(rt, rt.alloc());
    assert!(rt;
        told == Ok((0, 3, 3, 2, 3, 6, 2, 0)),
        "three links that wait for each other"
    );
}
