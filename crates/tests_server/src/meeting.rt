//! Links and workers that meet at one server under a lock, each at a gate of its own and on a thread of its own.
ghost use Rattle.std.specs.Prelude.{◌≡◌};

use crate::held::{HeldHost, HoldingGate};
use crate::links::{
    INSTANCES, POOL, TWICE, TWICE_REPLIES, count_in_replies, is_served, new_machine, requests,
};
use host_model::ModelHost;
use http_front::StillClock;
use record_keeper::MapKeeper;
use row_machine::Event;
use serve_loop::{Bell, DaemonMachine, Gate, LockedGate, NoLog, work};
use serving::LockedHost;
use size_values::Seq;
use std::alloc::Global;
use std::marker::Brand;
use std::sync::atomic::{AtomicBool, AtomicU64, Ordering};
use std::sync::ledger::{Blank, Ledger};
use std::sync::{Arc, Wait};
use std::thread;
use std::thread::Threads;
use std::time::{Clock, Duration};
use turnstile::{Ticket, Turnstile};

/// How many instances a part creates.
const CREATIONS: u32 = 10;

/// What a part does at its gate.
#[derive(Clone, Copy)]
enum Part {
    /// A link of this text ends with it.
    Sends(&'static str),
    /// A link of this text ends with it and gets these replies, by so many turns.
    Gets(&'static str, &'static str, u64),
    /// A link of this text ends with it, and in its replies this stands so often.
    Counts(&'static str, &'static str, usize),
    /// Looks at the first operation until it is Running, cancels it, and lets the calls of the host go.
    Cancels,
    /// Creates instances, one request after the other, with this number in their names.
    Creates(u64),
    /// Makes the calls of a worker.
    Works,
    /// Closes the server.
    Closes,
}

/// What happens at a server.
#[derive(Clone, Copy)]
struct Scene {
    name: &'static str,
    /// How often a link looks at the operation, and how many hundredths of a second a call is held, at the most.
    looks: u32,
    /// Whether a further lock is held during the calls of the host.
    holds: bool,
    /// What the parts do at once, each once so many others have ended.
    parts: &'static [(u64, Part)],
    /// Whether all parts come out as they say.
    is_well: bool,
}

const SCENES: &[Scene] = &[
    Scene {
        name: "two links meet in one server",
        looks: 0,
        holds: false,
        parts: &[
            (0, Part::Gets(TWICE, TWICE_REPLIES, 2)),
            (1, Part::Gets(CREATION, TAKEN, 1)),
        ],
        is_well: true,
    },
    Scene {
        name: "two links meet in an operation whose call of the host is held",
        looks: 1000,
        holds: false,
        parts: CANCELLED_MEETING,
        is_well: true,
    },
    Scene {
        name: "where a lock is held during the calls of the host, no link sees the operation run",
        looks: 20,
        holds: true,
        parts: CANCELLED_MEETING,
        is_well: false,
    },
    Scene {
        name: "four links that create instances beside four workers that make them",
        looks: 0,
        holds: false,
        parts: &[
            (0, Part::Sends(POOL)),
            (1, Part::Creates(0)),
            (1, Part::Creates(1)),
            (1, Part::Creates(2)),
            (1, Part::Creates(3)),
            (1, Part::Works),
            (1, Part::Works),
            (1, Part::Works),
            (1, Part::Works),
            (5, Part::Closes),
            (10, Part::Counts(INSTANCES, "/1.0/instances/", 40)),
        ],
        is_well: true,
    },
];

/// A link creates an instance and waits for it, a second one cancels that, and after the close a third one finds that
/// nothing was made.
const CANCELLED_MEETING: &[(u64, Part)] = &[
    (0, Part::Sends(POOL)),
    (1, Part::Counts(CREATED, "\"status\":\"Cancelled\"", 1)),
    (1, Part::Cancels),
    (1, Part::Works),
    (3, Part::Closes),
    (5, Part::Gets(INSTANCES, NO_INSTANCES, 1)),
];

const CREATION: &str =
    "POST /1.0/projects HTTP/1.1\r\nHost: localhost\r\nContent-Length: 14\r\n\r\n{\"name\":\"lab\"}";

const TAKEN: &str =
    "HTTP/1.1 409 Conflict\r\nContent-Type: application/json\r\nContent-Length: 112\r\n\r\n{\"error\":\"name is taken\",\"error_code\":409,\"metadata\":{\"kind\":\"project\",\"name\":\"lab\",\"rule\":\"N4\"},\"type\":\"error\"}";

/// A creation, and a wait for it.
const CREATED: &str =
    "POST /1.0/instances HTTP/1.1\r\nHost: localhost\r\nContent-Length: 37\r\n\r\n{\"name\":\"a\",\"source\":{\"type\":\"none\"}}GET /1.0/operations/00000000-0001-8000-8000-000000000001/wait HTTP/1.1\r\nHost: localhost\r\n\r\n";

const SHOWN: &str =
    "GET /1.0/operations/00000000-0001-8000-8000-000000000001 HTTP/1.1\r\nHost: localhost\r\n\r\n";

const CANCELLED: &str =
    "DELETE /1.0/operations/00000000-0001-8000-8000-000000000001 HTTP/1.1\r\nHost: localhost\r\n\r\n";

const CANCELLED_REPLIES: &str =
    "HTTP/1.1 200 OK\r\nContent-Type: application/json\r\nContent-Length: 66\r\n\r\n{\"metadata\":{},\"status\":\"Success\",\"status_code\":200,\"type\":\"sync\"}";

const NO_INSTANCES: &str =
    "HTTP/1.1 200 OK\r\nContent-Type: application/json\r\nContent-Length: 66\r\n\r\n{\"metadata\":[],\"status\":\"Success\",\"status_code\":200,\"type\":\"sync\"}";

/// What the parts of a scene share beside the server.
#[derive(Drop)]
struct Floor<T: Wait + Clock> {
    rt: T,
    alloc: Global,
    scene: &'static Scene,
    host: LockedHost<ModelHost, T>,
    word: Arc<AtomicBool, Global>,
    let_go: AtomicU64,
    /// How many parts were begun, how many have ended, and how many of them did not come out as they say.
    begun: AtomicU64,
    ended: AtomicU64,
    wrong: AtomicU64,
}

/// Looks at the operation until it is Running, cancels it, and lets the calls of the host go. Whether all that was so.
fn cancels<T: Wait + Clock, G: Gate>(floor: &Floor<T>, gate: &mut G) -> bool {
    let mut is_running = false;
    for _ in 0..floor.scene.looks {
        let seen = count_in_replies(
            &floor.rt,
            floor.alloc,
            gate,
            SHOWN,
            "\"status\":\"Running\"",
        );
        if seen == Some(1) {
            is_running = true;
            break;
        }
        gate.idle(Bell::Events);
    }
    let is_cancelled = is_served(
        &floor.rt,
        floor.alloc,
        gate,
        CANCELLED,
        4096,
        "ended",
        CANCELLED_REPLIES,
    );
    floor.let_go.store(1, Ordering::SeqCst);
    is_running && is_cancelled
}

/// The request that creates an instance.
fn creation(alloc: Global, link: u64, number: u32) -> String {
    let text = format!(in alloc;
        "POST /1.0/instances HTTP/1.1\r\nHost: localhost\r\nContent-Length: 40\r\n\r\n{{\"name\":\"i{link}-{number}\",\"source\":{{\"type\":\"none\"}}}}"
    );
    text.unwrap_or(String::new(alloc))
}

/// Creates the instances of one link. Whether all requests were made.
fn creates<T: Wait + Clock, G: Gate>(floor: &Floor<T>, gate: &mut G, link: u64) -> bool {
    let mut is_so = true;
    for number in 0..CREATIONS {
        let text = creation(floor.alloc, link, number);
        is_so = requests(&floor.rt, floor.alloc, gate, text.as_str()) && is_so;
        drop(text);
    }
    is_so
}

/// Makes the calls of one worker until the server is closed.
fn works<T: Wait + Clock + Copy, G: Gate>(floor: &Floor<T>, gate: &mut G) -> bool {
    match floor.host.share() {
        Ok(host) => {
            let mut held = HeldHost {
                rt: floor.rt,
                looks: floor.scene.looks,
                let_go: &floor.let_go,
                host,
            };
            work(
                &floor.rt,
                gate,
                &mut held,
                &mut StillClock::new(0),
                &mut NoLog,
            );
            drop(held);
            true
        }
        Err(_) => false,
    }
}

/// What a part does. Whether it came out so.
fn does<T: Wait + Clock + Copy, G: Gate>(floor: &Floor<T>, gate: &mut G, part: Part) -> bool {
    match part {
        Part::Sends(text) => requests(&floor.rt, floor.alloc, gate, text),
        Part::Gets(text, replies, turns) => {
            is_served(&floor.rt, floor.alloc, gate, text, 100, "ended", replies)
                && gate.made() == turns
        }
        Part::Counts(text, part, count) => {
            count_in_replies(&floor.rt, floor.alloc, gate, text, part) == Some(count)
        }
        Part::Cancels => cancels(floor, gate),
        Part::Creates(link) => creates(floor, gate, link),
        Part::Works => works(floor, gate),
        Part::Closes => {
            drop(gate.turn(Event::Close));
            true
        }
    }
}

/// Waits until so many parts have ended.
fn wait_for<T: Wait + Clock>(floor: &Floor<T>, ended: u64) {
    for _ in floor.rt.forever() {
        if floor.ended.load(Ordering::SeqCst) >= ended {
            return;
        }
        let _ = thread::sleep(&floor.rt, Duration::from_millis(1));
    }
    unreachable!()
}

/// Plays a part in its time, and counts it.
fn plays<T: Wait + Clock + Copy, G: Gate>(floor: &Floor<T>, gate: &mut G, part: (u64, Part)) {
    wait_for(floor, part.0);
    if !does(floor, gate, part.1) {
        floor.wrong.fetch_add(1, Ordering::SeqCst);
    }
    floor.ended.fetch_add(1, Ordering::SeqCst);
}

type Shared<L> = Arc<Turnstile<DaemonMachine<MapKeeper>, L>, Global>;

/// Plays the next part, if there is one, at a gate by this ticket, and gives the ticket back.
fn plays_next<L: Ledger, T: Wait + Clock + Copy + Drop>(
    floor: &Floor<T>,
    turnstile: &Shared<L>,
    ticket: Ticket<L>,
) -> Ticket<L> {
    let place = usize::try_from(floor.begun.fetch_add(1, Ordering::SeqCst)).unwrap_or(usize::MAX);
    let Some(part) = floor.scene.parts.get(place) else {
        return ticket;
    };
    let turnstile = Arc::try_clone(turnstile).ok();
    let Some((turnstile, word)) = turnstile.zip(Arc::try_clone(&floor.word).ok()) else {
        return ticket;
    };
    let mut gate = HoldingGate {
        rt: floor.rt,
        word,
        holds: floor.scene.holds,
        is_held: false,
        inner: LockedGate::new(floor.rt, turnstile, ticket),
    };
    plays(floor, &mut gate, *part);
    let HoldingGate { inner, .. } = gate;
    inner.into_ticket()
}

/// The floor of a scene.
fn floor_of<T: Wait + Clock + Copy>(
    rt: T,
    alloc: Global,
    scene: &'static Scene,
) -> Option<Floor<T>> {
    let host = LockedHost::new(rt, alloc, ModelHost::new(alloc, Seq::new(alloc))).ok();
    match host.zip(Arc::new(alloc, AtomicBool::new(false)).ok()) {
        Some((host, word)) => Some(Floor {
            rt,
            alloc,
            scene,
            host,
            word,
            let_go: AtomicU64::new(0),
            begun: AtomicU64::new(0),
            ended: AtomicU64::new(0),
            wrong: AtomicU64::new(0),
        }),
        None => None,
    }
}

/// Whether the turns that the tickets counted are those of the server, which is closed with all of them.
fn are_counted<L: Ledger, T: Wait>(rt: &T, turnstile: &Shared<L>, tickets: Vec<Ticket<L>>) -> bool
    requires { L.parts ≡ 11 }
{
    if tickets.len() != 11 {
        drop(tickets);
        return false;
    }
    let mut made = 0u64;
    for ticket in &tickets {
        made = made.wrapping_add(ticket.made());
    }
    made == turnstile.close(rt, tickets)
}

/// Whether all parts of a scene are begun and come out as they say, where they are to.
fn is_as_told<T: Wait + Clock>(floor: &Floor<T>) -> bool {
    let scene = floor.scene;
    let ended = usize::try_from(floor.ended.load(Ordering::SeqCst));
    ended == Ok(scene.parts.len()) && (floor.wrong.load(Ordering::SeqCst) == 0) == scene.is_well
}

/// Plays all parts at once, each by a ticket of its own. Whether they come out as they are to.
fn is_played<L: Ledger + Send + Sync, T: Threads + Wait + Clock + Copy + Send + Sync + Drop>(
    floor: &Floor<T>,
    turnstile: &Shared<L>,
    tickets: Vec<Ticket<L>>,
) -> bool
    requires { L.parts ≡ 11 }
{
    match thread::map_vec(
        &floor.rt,
        tickets,
        &|ticket| plays_next(floor, turnstile, ticket),
    ) {
        Ok(tickets) => are_counted(&floor.rt, turnstile, tickets) && is_as_told(floor),
        Err(_) => false,
    }
}

/// Whether a scene at this server comes out as it is to.
fn is_shown<L: Ledger + Send + Sync, T: Threads + Wait + Clock + Copy + Send + Sync + Drop>(
    rt: T,
    alloc: Global,
    scene: &'static Scene,
    turnstile: Turnstile<DaemonMachine<MapKeeper>, L>,
    tickets: Vec<Ticket<L>>,
) -> bool
    requires { L.parts ≡ 11 }
{
    let turnstile = Arc::new(alloc, turnstile).ok();
    match turnstile.zip(floor_of(rt, alloc, scene)) {
        Some((turnstile, floor)) => {
            let is_so = is_played(&floor, &turnstile, tickets);
            drop(turnstile);
            drop(floor);
            is_so
        }
        None => {
            drop(tickets);
            false
        }
    }
}

/// Whether the scene of a place, at a new server, comes out as it is to.
fn comes_out<L: Ledger + Send + Sync, T: Threads + Wait + Clock + Copy + Send + Sync + Drop>(
    rt: T,
    alloc: Global,
    place: usize,
    blank: Blank,
) -> Option<bool>
    requires name { blank.name ≡ L.name }
    requires parts { (blank.parts ≡ L.parts) × (blank.parts ≡ 11) }
{
    let scene = SCENES.get(place)?;
    let machine = new_machine(alloc)?;
    match Turnstile::<DaemonMachine<MapKeeper>, L>::new(alloc, machine, 11, blank) {
        Ok((turnstile, tickets)) => Some(is_shown(rt, alloc, scene, turnstile, tickets)),
        Err(machine) => {
            drop(machine);
            None
        }
    }
}

#[test]
fn links_and_workers_meet(rt: HostRuntime) {
    for (place, scene) in SCENES.iter().enumerate() {
        let is_so = comes_out::<Brand, _>(rt, rt.alloc(), place, Blank::new(11));
        assert!(rt; is_so == Some(true), "{}", scene.name);
    }
}
