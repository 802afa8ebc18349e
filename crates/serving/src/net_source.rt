//! What comes from a connection of the net.
ghost use Rattle.std.specs.Prelude.{◌≡◌, ◌<◌, ◌≤◌, false, length, None, IfOk};

use crate::deadline::Deadline;
use crate::replies::Replies;
use crate::stop::Stop;
use http_front::{Source, SourceFailed};
use std::io::{ErrorKind, Read};
use std::marker::Model;
use std::net::OpenStream;
use std::time::{Clock, Duration};

/// The longest that one look at a stream waits, in milliseconds. So a read that waits sees within this time that the
/// server stops.
const LOOK: u64 = 200;

/// A source over a stream of the net. It tells no bytes. A read waits for the other end, and fails once a given time has
/// gone by since the reply before it, or since the first read, also where bytes come: so a request has to come whole
/// within this time. Who looks whether a read would wait, waits for no request, and the time begins anew. Where the server
/// stops, a read that would wait gives the end instead, and each read once it waits for nobody any more.
#[derive(Drop)]
pub struct NetSource<T, N> {
    stream: T,
    stop: Stop,
    deadline: Deadline<N>,
    /// How many looks in a row a read waits, also where the clock can't tell the time.
    looks: u64,
    ended: bool,
    faults: u64,
}

impl<T, N> Model for NetSource<T, N> {
    ghost use Rattle.std.specs.Prelude.{None};
    ghost use Rattle.http_front.specs.Streams.{Reading};

    ghost Value = { Reading };

    ghost view = { λ s. record { left = None; ended = s.ended; faults = s.faults } };
}

impl<T: Read + OpenStream, N: Clock> NetSource<T, N> {
    /// A source over the stream, of which nothing was read yet. A request is waited for as long as `idle`, in steps of
    /// 200 ms, by this clock, and the replies tell when it was answered. It sets the time that a read of this stream waits,
    /// also by other handles of it.
    pub fn new(stream: T, idle: Duration, stop: Stop, clock: N, replies: Replies) -> NetSource<T, N>
        ensures { result ≡ record { left = None; ended = false; faults = 0 } }
    {
        // Where the time can't be had, the other end is waited for longer.
        let _read = stream.set_read_timeout(Some(Duration::from_millis(LOOK)));
        NetSource {
            stream,
            stop,
            deadline: Deadline::new(clock, idle, replies),
            looks: looks_in(idle),
            ended: false,
            faults: 0,
        }
    }
}

impl<T: Read + OpenStream, N: Clock> Source for NetSource<T, N> {
    ghost use Rattle.std.specs.Prelude.{None};

    ghost left = { λ _. None };

    ghost ended = { λ s. s.ended };

    ghost failures = { λ s. s.faults };

    ghost at_once = { λ _. None };

    fn read(&mut self, into: &mut [u8]) -> Result<usize, SourceFailed> {
        self.deadline.wait();
        let read = read_once(
            &mut self.stream,
            &self.stop,
            &self.deadline,
            self.looks,
            into,
        );
        let Ok(count) = read else {
            self.faults = self.faults.saturating_add(1);
            return Err(SourceFailed);
        };
        self.ended = self.ended || count == 0;
        Ok(count)
    }

    /// Also where the server stops, whose reads wait for nothing.
    fn is_ready(&mut self) -> bool {
        self.deadline.begin();
        self.stop.is_set() || gives_at_once(&self.stream)
    }

    fn faults(&self) -> u64 {
        self.faults
    }
}

/// How many looks there are in a time, at least one.
fn looks_in(idle: Duration) -> u64 {
    u64::try_from(idle.as_millis())
        .unwrap_or(u64::MAX)
        .div_ceil(LOOK)
        .max(1)
}

/// One read, which looks so often whether something came, and fails once the deadline is over. Once the server stops, it
/// gives the end in place of waiting; once that waits for nobody any more, it gives it also where something came.
fn read_once<T: Read + OpenStream, N: Clock>(
    stream: &mut T,
    stop: &Stop,
    deadline: &Deadline<N>,
    looks: u64,
    into: &mut [u8],
) -> Result<usize, SourceFailed>
    requires { 0 < length into.old }
    ensures bound { IfOk result (λ n. n ≤ length into.new) }
{
    for _ in 0..looks {
        if stop.is_over() || (stop.is_set() && !gives_at_once(stream)) {
            return Ok(0);
        }
        if deadline.is_over() {
            return Err(SourceFailed);
        }
        match stream.read(into) {
            Ok(count) => return Ok(count),
            Err(error) if is_late(error.kind()) => {}
            Err(_) => return Err(SourceFailed),
        }
    }
    Err(SourceFailed)
}

/// Whether a read of the stream gives bytes, the end or a failure without waiting.
fn gives_at_once<T: OpenStream>(stream: &T) -> bool {
    if stream.set_nonblocking(true).is_err() {
        return true;
    }
    let mut piece = [0u8; 1];
    let seen = stream.peek(&mut piece);
    let waits_again = stream.set_nonblocking(false);
    match seen {
        Ok(_) => true,
        Err(error) => waits_again.is_err() || !is_late(error.kind()),
    }
}

/// Whether a read failed only since nothing came in time, or for the sake of a signal.
fn is_late(kind: ErrorKind) -> bool {
    matches!(
        kind,
        ErrorKind::WouldBlock | ErrorKind::TimedOut | ErrorKind::Interrupted
    )
}
