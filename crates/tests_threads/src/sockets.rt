//! Links over TCP on 127.0.0.1.
ghost use Rattle.std.specs.Prelude.{◌≡◌, IfSome};

use http_front::{Sink, Source};
use serving::{DoorEvents, DoorFault, Doors, LinkTimes, NetDoors, Places, Stop};
use std::alloc::Global;
use std::fs::Files;
use std::io::{ErrorKind, Read, Write};
use std::net::{Net, Shutdown, SocketAddr, TcpListener, TcpStream};
use std::thread;
use std::thread::{Threads, join};
use std::time::{Clock, Duration};

/// How long the doors of the tests wait for a client, in milliseconds.
const PATIENCE: u64 = 300;

/// Nothing is told of the doors of the tests.
#[derive(Drop)]
struct Silent;

impl DoorEvents for Silent {
    fn opened(&mut self) {}

    fn refused(&mut self, _fault: DoorFault) {}

    fn failed(&mut self, _kind: ErrorKind) {}
}

/// Doors on a free port, and where they are.
fn open<R: Net + Files + Copy + Drop>(
    rt: &R,
    alloc: Global,
    stop: Stop,
) -> Option<(NetDoors<R, Silent>, SocketAddr)>
    ensures { IfSome result (λ o. o.0.given ≡ 0) }
{
    open_for(rt, alloc, stop, PATIENCE)
}

/// The same, where a request is waited for so many milliseconds.
fn open_for<R: Net + Files + Copy + Drop>(
    rt: &R,
    alloc: Global,
    stop: Stop,
    idle: u64,
) -> Option<(NetDoors<R, Silent>, SocketAddr)>
    ensures { IfSome result (λ o. o.0.given ≡ 0) }
{
    let times = LinkTimes {
        idle: Duration::from_millis(idle),
        patience: Duration::from_millis(PATIENCE),
    };
    let places = Places {
        port: Some(0),
        socket: None,
    };
    let mut doors = NetDoors::at(*rt, alloc, places, times, stop, Silent).ok()?;
    let address = doors.address()?;
    Some((doors, address))
}

/// Accepts one link and writes back the first bytes that come. How many they were, and how many accepts failed.
fn answer_once<R: Net + Files + Clock + Copy + Drop>(mut doors: NetDoors<R, Silent>) -> (usize, u64)
    requires { doors.given ≡ 0 }
{
    let count = match doors.accept() {
        Ok(Some(link)) => echo(link.source, link.sink),
        _ => 0,
    };
    (count, doors.faults())
}

fn echo<S: Source + Drop, K: Sink + Drop>(mut source: S, mut sink: K) -> usize {
    let mut piece = [0u8; 16];
    match source.read(&mut piece) {
        Ok(count) if sink.write(&piece[..count]).is_ok() => count,
        _ => 0,
    }
}

/// Writes five bytes, ends this side, and reads what comes.
fn ask<R: Net<Listener = TcpListener, Stream = TcpStream>>(
    rt: &R,
    address: SocketAddr,
) -> Option<[u8; 5]> {
    let mut stream = rt.connect(address).ok()?;
    stream.write_all(b"hello").ok()?;
    stream.shutdown(Shutdown::Write).ok()?;
    let mut got = [0u8; 5];
    stream.read_exact(&mut got).ok()?;
    Some(got)
}

fn client_and_answer<
    R: Net<Listener = TcpListener, Stream = TcpStream>
        + Files
        + Threads
        + Clock
        + Copy
        + Drop
        + Send
        + Sync,
>(rt: &R, alloc: Global) -> Option<((usize, u64), Option<[u8; 5]>)> {
    let (doors, address) = open(rt, alloc, Stop::new(alloc).ok()?)?;
    let (got, answered) = join(rt, || ask(rt, address), move || answer_once(doors));
    Some((answered, got))
}

/// A client that goes before it is accepted: the links given, the accepts failed, and whether the link gave no byte.
fn gone<R: Net<Listener = TcpListener, Stream = TcpStream> + Files + Clock + Copy + Drop>(
    rt: &R,
    alloc: Global,
) -> Option<(u64, u64, bool)> {
    let (mut doors, address) = open(rt, alloc, Stop::new(alloc).ok()?)?;
    drop(rt.connect(address).ok()?);
    let none = match doors.accept() {
        Ok(Some(link)) => gives_none(link.source),
        _ => false,
    };
    Some((doors.given(), doors.faults(), none))
}

fn gives_none<S: Source + Drop>(mut source: S) -> bool {
    let mut piece = [0u8; 16];
    !matches!(source.read(&mut piece), Ok(1..))
}

/// A client that never reads: the accepts failed, and the writes.
fn asleep<R: Net<Listener = TcpListener, Stream = TcpStream> + Files + Clock + Copy + Drop>(
    rt: &R,
    alloc: Global,
) -> Option<(u64, u64)> {
    let (mut doors, address) = open(rt, alloc, Stop::new(alloc).ok()?)?;
    let client = rt.connect(address).ok()?;
    let failed = match doors.accept() {
        Ok(Some(link)) => writes_failed(alloc, link.sink)?,
        _ => 0,
    };
    drop(client);
    Some((doors.faults(), failed))
}

/// Writes up to 64 MiB, until a write fails.
fn writes_failed<K: Sink + Drop>(alloc: Global, mut sink: K) -> Option<u64> {
    let block = vec![in alloc; 0u8; 1 << 20].ok()?;
    for _ in 0..64u32 {
        if sink.write(&block).is_err() {
            break;
        }
    }
    Some(sink.faults())
}

/// A client that never sends: its link gives no byte once it was idle for long enough.
fn idle<R: Net<Listener = TcpListener, Stream = TcpStream> + Files + Clock + Copy + Drop>(
    rt: &R,
    alloc: Global,
) -> Option<bool> {
    let (mut doors, address) = open(rt, alloc, Stop::new(alloc).ok()?)?;
    let client = rt.connect(address).ok()?;
    let none = match doors.accept() {
        Ok(Some(link)) => gives_none(link.source),
        _ => false,
    };
    drop(client);
    Some(none)
}

/// How many milliseconds a request is waited for of a client that sends a byte at a time.
const WAIT: u64 = 4_000;

/// How many milliseconds such a client lets go by after each byte.
const PAUSE: u64 = 300;

/// How many bytes it sends: they take longer than a request is waited for.
const DROPS: usize = 20;

/// Sends a byte at a time.
fn drip<R: Net<Listener = TcpListener, Stream = TcpStream> + Clock>(rt: &R, address: SocketAddr) {
    let Ok(mut stream) = rt.connect(address) else {
        return;
    };
    for _ in 0..DROPS {
        let _sent = stream.write_all(b"a");
        let _ = thread::sleep(rt, Duration::from_millis(PAUSE));
    }
}

/// Accepts one link and reads what comes until a read gives nothing. Each read is answered or none is. How many bytes came.
fn taken_of<R: Net + Files + Clock + Copy + Drop>(
    mut doors: NetDoors<R, Silent>,
    is_answered: bool,
) -> usize
    requires { doors.given ≡ 0 }
{
    match doors.accept() {
        Ok(Some(link)) => taken(link.source, link.sink, is_answered),
        _ => 0,
    }
}

fn taken<S: Source + Drop, K: Sink + Drop>(mut source: S, mut sink: K, is_answered: bool) -> usize {
    let mut piece = [0u8; 16];
    let mut bytes = 0usize;
    for _ in 0..=DROPS {
        match source.read(&mut piece) {
            Ok(0) | Err(_) => break,
            Ok(count) => bytes = bytes.saturating_add(count),
        }
        if is_answered {
            let _told = sink.write(b"b");
        }
    }
    bytes
}

/// A client that sends a byte at a time: how many of its bytes come, where each read is answered or none is.
fn dripping<
    R: Net<Listener = TcpListener, Stream = TcpStream>
        + Files
        + Threads
        + Clock
        + Copy
        + Drop
        + Send
        + Sync,
>(rt: &R, alloc: Global, is_answered: bool) -> Option<usize> {
    let (doors, address) = open_for(rt, alloc, Stop::new(alloc).ok()?, WAIT)?;
    let ((), count) = join(
        rt,
        || drip(rt, address),
        move || taken_of(doors, is_answered),
    );
    Some(count)
}

/// What the source of a link is, looked at from outside.
#[derive(Clone, Copy, PartialEq, Eq)]
struct Looks {
    is_ready_empty: bool,
    is_ready_sent: bool,
    is_ready_stopped: bool,
    first: Option<usize>,
    last: Option<usize>,
}

/// A client that sends three bytes and stays, and a server that then stops: whether its source is ready before the bytes
/// come, once they have come, and once the server stops; and what its reads give then.
fn stopped<R: Net<Listener = TcpListener, Stream = TcpStream> + Files + Clock + Copy + Drop>(
    rt: &R,
    alloc: Global,
) -> Option<Looks> {
    let stop = Stop::new(alloc).ok()?;
    let (mut doors, address) = open(rt, alloc, stop.share().ok()?)?;
    let mut client = rt.connect(address).ok()?;
    let looks = match doors.accept() {
        Ok(Some(link)) => Some(looked_at(link.source, &mut client, &stop)?),
        _ => None,
    };
    drop(client);
    looks
}

fn looked_at<S: Source + Drop, W: Write>(
    mut source: S,
    client: &mut W,
    stop: &Stop,
) -> Option<Looks> {
    let mut piece = [0u8; 16];
    let is_ready_empty = source.is_ready();
    client.write_all(b"abc").ok()?;
    let is_ready_sent = source.is_ready();
    stop.set();
    let first = source.read(&mut piece).ok();
    let is_ready_stopped = source.is_ready();
    let last = source.read(&mut piece).ok();
    Some(Looks {
        is_ready_empty,
        is_ready_sent,
        is_ready_stopped,
        first,
        last,
    })
}

#[test]
fn a_source_shows_what_a_read_gives(rt: HostRuntime) {
    assert!(rt;
        stopped(&rt, rt.alloc())
            == Some(Looks {
                is_ready_empty: false,
                is_ready_sent: true,
                is_ready_stopped: true,
                first: Some(3),
                last: Some(0),
            }),
        "bytes at once, and then the end"
    );
}

#[test]
fn a_client_that_never_sends_is_let_go(rt: HostRuntime) {
    assert!(rt; idle(&rt, rt.alloc()) == Some(true), "its read ends");
}

/// Its first byte came, and not its last one.
#[test]
fn a_client_that_sends_a_byte_at_a_time_is_let_go(rt: HostRuntime) {
    let count = dripping(&rt, rt.alloc(), false);
    assert!(rt;
        matches!(count, Some(1..DROPS)),
        "a read ends before all bytes came"
    );
}

/// Each reply begins the wait for a request anew, so all bytes come.
#[test]
fn a_client_that_is_answered_stays(rt: HostRuntime) {
    assert!(rt;
        dripping(&rt, rt.alloc(), true) == Some(DROPS),
        "each byte came"
    );
}

#[test]
fn a_client_is_answered(rt: HostRuntime) {
    assert!(rt;
        client_and_answer(&rt, rt.alloc()) == Some(((5, 0), Some(*b"hello"))),
        "five bytes, there and back"
    );
}

#[test]
fn a_client_that_has_gone_is_a_link(rt: HostRuntime) {
    assert!(rt;
        gone(&rt, rt.alloc()) == Some((1, 0, true)),
        "one link, and no failure of the doors"
    );
}

#[test]
fn a_client_that_never_reads_fails_its_link(rt: HostRuntime) {
    assert!(rt;
        asleep(&rt, rt.alloc()) == Some((0, 1)),
        "the link failed, and not the doors"
    );
}
