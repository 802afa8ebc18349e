//! What goes to a connection of the net.
ghost use Rattle.std.specs.Prelude.{◌≡◌, ◌≤◌, length, IfOk, IfSome};

use crate::replies::Replies;
use crate::stop::Stop;
use http_front::{Sink, SinkFailed};
use std::io::{ErrorKind, Write};
use std::marker::Model;
use std::net::OpenStream;
use std::time::Duration;

/// The longest that one try of a write waits, in milliseconds.
const TRY: u64 = 500;

/// A sink over a stream of the net. It tells no bytes, and counts its writes for the other end of its connection. A write
/// fails where that takes nothing for a given time.
/// Once the server waits for nobody any more, it fails where that takes nothing for half a second, and the first write from
/// then on is the last one that is made.
#[derive(Drop)]
pub struct NetSink<T> {
    stream: T,
    stop: Stop,
    replies: Replies,
    /// How many tries in a row may come to nothing.
    tries: u64,
    /// Whether the server waited for nobody any more at the last write.
    was_over: bool,
    faults: u64,
}

impl<T> Model for NetSink<T> {
    ghost use Rattle.std.specs.Prelude.{None};
    ghost use Rattle.http_front.specs.Streams.{Writing};

    ghost Value = { Writing };

    ghost view = { λ s. record { held = None; faults = s.faults } };
}

impl<T: Write + OpenStream> NetSink<T> {
    /// A sink over the stream, which has had no failure yet. A write fails once nothing was taken for as long as
    /// `patience`, in steps of half a second. It sets the time that a write to this stream waits, also by other handles
    /// of it.
    pub fn new(stream: T, patience: Duration, stop: Stop, replies: Replies) -> NetSink<T>
        ensures { result ≡ record { held = None; faults = 0 } }
    {
        // Where the time can't be had, the other end is waited for longer.
        let _write = stream.set_write_timeout(Some(Duration::from_millis(TRY)));
        NetSink {
            stream,
            stop,
            replies,
            tries: tries_in(patience),
            was_over: false,
            faults: 0,
        }
    }
}

impl<T: Write + OpenStream> Sink for NetSink<T> {
    ghost use Rattle.std.specs.Prelude.{None};

    ghost held = { λ _. None };

    ghost failures = { λ s. s.faults };

    fn write(&mut self, bytes: &[u8]) -> Result<(), SinkFailed> {
        let is_over = self.stop.is_over();
        let written = if is_over && self.was_over {
            Err(SinkFailed)
        } else {
            write_through(&mut self.stream, &self.stop, self.tries, bytes)
        };
        self.was_over = is_over;
        self.replies.add();
        if written.is_err() {
            self.faults = self.faults.saturating_add(1);
        }
        written
    }

    fn faults(&self) -> u64 {
        self.faults
    }
}

/// How many tries there are in a time, at least one.
fn tries_in(patience: Duration) -> u64 {
    u64::try_from(patience.as_millis())
        .unwrap_or(u64::MAX)
        .div_ceil(TRY)
        .max(1)
}

/// Writes all of the bytes. It fails where so many tries in a row come to nothing.
fn write_through<T: Write>(
    stream: &mut T,
    stop: &Stop,
    tries: u64,
    bytes: &[u8],
) -> Result<(), SinkFailed> {
    let mut rest = bytes;
    let mut left = tries;
    for _ in 0..u64::MAX {
        if rest.is_empty() {
            return Ok(());
        }
        match write_some(stream, rest)? {
            Some(count) => {
                rest = &rest[count..];
                left = tries;
            }
            None if left > 1 && !stop.is_over() => left -= 1,
            None => return Err(SinkFailed),
        }
    }
    Err(SinkFailed)
}

/// One write, and how many of the bytes it took; None where none was taken in time, or for the sake of a signal.
fn write_some<T: Write>(stream: &mut T, bytes: &[u8]) -> Result<Option<usize>, SinkFailed>
    ensures { IfOk result (λ some. IfSome some (λ n. n ≤ length bytes.now)) }
{
    match stream.write(bytes) {
        Ok(0) => Err(SinkFailed),
        Ok(count) => Ok(Some(count)),
        Err(error) => match error.kind() {
            ErrorKind::WouldBlock | ErrorKind::TimedOut | ErrorKind::Interrupted => Ok(None),
            _ => Err(SinkFailed),
        },
    }
}
