//! Links in memory over gates.
ghost use Rattle.std.specs.Prelude.{◌≤◌};

use crate::server::opened;
use host_model::ModelHost;
use http_front::{ByteSink, ByteSource, StillClock};
use record_keeper::MapKeeper;
use rest_json::{Dialect, Terms};
use serve_loop::{AloneGate, DaemonMachine, Gate, LinkEnd, NoLog, serve_link};
use size_values::Seq;
use std::alloc::Global;
use std::sync::Wait;

/// A pool, and the root disk of all instances in it.
pub(crate) const POOL: &str =
    "POST /1.0/storage-pools HTTP/1.1\r\nHost: localhost\r\nContent-Length: 28\r\n\r\n{\"driver\":\"dir\",\"name\":\"p0\"}PUT /1.0/profiles/default HTTP/1.1\r\nHost: localhost\r\nContent-Length: 73\r\n\r\n{\"devices\":{\"root\":{\"path\":\"/\",\"pool\":\"p0\",\"size\":\"1GiB\",\"type\":\"disk\"}}}";

/// Which instances there are.
pub(crate) const INSTANCES: &str = "GET /1.0/instances HTTP/1.1\r\nHost: localhost\r\n\r\n";

/// A project that is made twice.
pub(crate) const TWICE: &str =
    "POST /1.0/projects HTTP/1.1\r\nHost: localhost\r\nContent-Length: 14\r\n\r\n{\"name\":\"lab\"}POST /1.0/projects HTTP/1.1\r\nHost: localhost\r\nContent-Length: 14\r\n\r\n{\"name\":\"lab\"}";

pub(crate) const TWICE_REPLIES: &str =
    "HTTP/1.1 200 OK\r\nContent-Type: application/json\r\nContent-Length: 66\r\n\r\n{\"metadata\":{},\"status\":\"Success\",\"status_code\":200,\"type\":\"sync\"}HTTP/1.1 409 Conflict\r\nContent-Type: application/json\r\nContent-Length: 112\r\n\r\n{\"error\":\"name is taken\",\"error_code\":409,\"metadata\":{\"kind\":\"project\",\"name\":\"lab\",\"rule\":\"N4\"},\"type\":\"error\"}";

/// The terms of a door over TCP.
pub(crate) const TCP: Terms = Terms {
    boot: 1,
    dialect: Dialect::Plain,
    refuses_origin: true,
};

/// The terms of a door over a Unix socket.
pub(crate) const SOCKET: Terms = Terms {
    boot: 1,
    dialect: Dialect::Client,
    refuses_origin: false,
};

/// How many bytes a link gives at each read, at the most.
const PIECE: usize = 100;

pub(crate) type OwnGate = AloneGate<MapKeeper, ModelHost, StillClock>;

/// A gate over a new server of its own, whose clock stands still.
pub(crate) fn new_gate(alloc: Global) -> Option<OwnGate> {
    let (daemon, keeper) = opened(alloc, &[])?;
    let host = ModelHost::new(alloc, Seq::new(alloc));
    Some(AloneGate::new(alloc, daemon, keeper, host, StillClock::new(0)))
}

/// The server over a new keeper, as the machine under the lock.
pub(crate) fn new_machine(alloc: Global) -> Option<DaemonMachine<MapKeeper>> {
    let (daemon, keeper) = opened(alloc, &[])?;
    Some(DaemonMachine::new(alloc, daemon, keeper))
}

/// How a link ended, in words.
fn name_of(ends: &LinkEnd) -> &'static str {
    match ends {
        LinkEnd::Ended => "ended",
        LinkEnd::Cut => "cut",
        LinkEnd::Malformed(_) => "malformed",
        LinkEnd::ReadFault => "read fault",
        LinkEnd::WriteFault => "write fault",
        LinkEnd::NoMemory => "no memory",
        LinkEnd::Events(_) => "events",
    }
}

/// A list of one number.
fn only(alloc: Global, number: u64) -> Seq<u64> {
    Seq::from_vec(Vec::from_slice(alloc, &[number]).unwrap_or(Vec::new(alloc)))
}

/// How a link of this text ends, of which at most `piece` bytes come at each read, and what it gets written.
fn served<T: Wait, G: Gate>(
    rt: &T,
    alloc: Global,
    terms: Terms,
    gate: &mut G,
    text: &str,
    piece: usize,
) -> (&'static str, ByteSink)
    requires { 1 ≤ piece }
{
    served_failing(rt, alloc, terms, gate, text, piece, 0, 0)
}

/// The same where the read and the write of these numbers fail; none has the number 0.
pub(crate) fn served_failing<T: Wait, G: Gate>(
    rt: &T,
    alloc: Global,
    terms: Terms,
    gate: &mut G,
    text: &str,
    piece: usize,
    read: u64,
    write: u64,
) -> (&'static str, ByteSink)
    requires { 1 ≤ piece }
{
    let bytes = Seq::of_bytes(alloc, text.as_bytes()).unwrap_or(Seq::new(alloc));
    let mut source = ByteSource::new(bytes, piece, only(alloc, read));
    let mut sink = ByteSink::new(alloc, only(alloc, write));
    let mut clock = StillClock::new(0);
    let ended = serve_link(
        rt,
        alloc,
        gate,
        &mut source,
        &mut sink,
        &mut clock,
        terms,
        &mut NoLog,
    );
    drop(source);
    let ends = name_of(&ended);
    drop(ended);
    (ends, sink)
}

/// Whether a link of this text over TCP ends so and gets these replies.
pub(crate) fn is_served<T: Wait, G: Gate>(
    rt: &T,
    alloc: Global,
    gate: &mut G,
    text: &str,
    piece: usize,
    ends: &str,
    replies: &str,
) -> bool
    requires { 1 ≤ piece }
{
    is_served_on(rt, alloc, TCP, gate, text, piece, ends, replies)
}

/// The same of a link on these terms.
pub(crate) fn is_served_on<T: Wait, G: Gate>(
    rt: &T,
    alloc: Global,
    terms: Terms,
    gate: &mut G,
    text: &str,
    piece: usize,
    ends: &str,
    replies: &str,
) -> bool
    requires { 1 ≤ piece }
{
    let (ended, sink) = served(rt, alloc, terms, gate, text, piece);
    let is_so = ended == ends && sink.bytes() == replies.as_bytes();
    drop(sink);
    is_so
}

/// How often a text stands in what a link of another text gets written, where that ends with its text.
pub(crate) fn count_in_replies<T: Wait, G: Gate>(
    rt: &T,
    alloc: Global,
    gate: &mut G,
    text: &str,
    part: &str,
) -> Option<usize> {
    let (ended, sink) = served(rt, alloc, TCP, gate, text, PIECE);
    let count = count_of(sink.bytes(), part.as_bytes());
    drop(sink);
    if ended == "ended" { Some(count) } else { None }
}

/// Makes the requests of a text by a link. Whether that ended with its text.
pub(crate) fn requests<T: Wait, G: Gate>(rt: &T, alloc: Global, gate: &mut G, text: &str) -> bool {
    let (ended, sink) = served(rt, alloc, TCP, gate, text, PIECE);
    drop(sink);
    ended == "ended"
}

/// How often a text that is not empty stands in another one.
pub(crate) fn count_of(text: &[u8], part: &[u8]) -> usize {
    let mut count = 0usize;
    for place in 0..text.len() {
        if text[place..].starts_with(part) {
            count = count.saturating_add(1);
        }
    }
    count
}
