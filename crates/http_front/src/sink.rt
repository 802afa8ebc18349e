ghost use Rattle.std.specs.Prelude.{◌≡◌, ℕ, ◌≤◌, List, [], length, take, Option, IfOk, OnErr};
ghost use Rattle.std.specs.Io.KnownBytes.{Appends, Keeps};
ghost use Rattle.size_values.specs.Causes.{HasCause};
ghost use Rattle.size_values.specs.Calls.{no_calls};
ghost use Rattle.http_front.specs.Streams.{Writes, WritesToPaper};

use size_values::{FailingCalls, Seq};
use std::alloc::Global;
use std::io::{ErrorKind, Write};
use std::marker::Model;
use thiserror::Error;

/// The sink did not take all of the bytes.
#[derive(Clone, Copy, Debug, PartialEq, Eq, Error)]
#[error("the sink failed")]
pub struct SinkFailed;

/// Where replies go: standard output, a connection, or bytes in memory.
pub trait Sink {
    // The bytes written so far, where the sink tells them.
    ghost held: { Self → Option (List ℕ) };

    ghost failures: { Self → ℕ };

    /// Writes all of the bytes. Where it fails, the sink may have taken some of the first.
    fn write(&mut self, bytes: &[u8]) -> Result<(), SinkFailed>
        ensures written { Writes (held self.old) (held self.new) result bytes.now }
        ensures cause { HasCause (failures self.old) (failures self.new) result };

    /// How many writes failed; the count stops at 2^64 - 1.
    fn faults(&self) -> u64
        ensures { result ≡ failures self.now };
}

/// A sink in memory. The writes of the listed numbers fail, counted from 1, and take none of the bytes. A write for
/// which memory is refused fails too, and is counted apart.
#[derive(Drop)]
pub struct ByteSink {
    bytes: Vec<u8>,
    calls: FailingCalls,
    /// How many writes were refused memory; the count stops at 2^64 - 1.
    refused: u64,
}

impl Model for ByteSink {
    ghost use Rattle.http_front.specs.Streams.{Paper};

    ghost Value = { Paper };

    ghost view = { λ s. record { held = s.bytes.items; calls = s.calls; refused = s.refused } };
}

impl ByteSink {
    /// A sink to which nothing was written yet.
    pub fn new(alloc: Global, fails: Seq<u64>) -> ByteSink
        ensures held { result.held ≡ [] }
        ensures calls { result.calls ≡ no_calls fails }
        ensures refused { result.refused ≡ 0 }
    {
        ByteSink {
            bytes: Vec::new(alloc),
            calls: FailingCalls::new(fails),
            refused: 0,
        }
    }

    /// The bytes written so far.
    pub fn bytes(&self) -> &[u8]
        ensures { result.now ≡ self.now.held }
    {
        self.bytes.as_slice()
    }

    /// How many writes were refused memory; the count stops at 2^64 - 1.
    pub fn refused(&self) -> u64
        ensures { result ≡ self.now.refused }
    {
        self.refused
    }
}

impl Sink for ByteSink {
    ghost use Rattle.std.specs.Prelude.{Some};
    ghost use Rattle.http_front.specs.Streams.{faults_of};

    ghost held = { λ s. Some s.held };

    ghost failures = { faults_of };

    fn write(&mut self, bytes: &[u8]) -> Result<(), SinkFailed>
        ensures written { Writes (Some self.old.held) (Some self.new.held) result bytes.now }
        ensures cause { HasCause (faults_of self.old) (faults_of self.new) result }

        // A listed call fails; another one writes all of the bytes, or is refused memory, which is counted apart.
        ensures paper { WritesToPaper self.old self.new result bytes.now }
    {
        if self.calls.next() {
            return Err(SinkFailed);
        }
        match self.bytes.extend_from_slice(bytes) {
            Ok(()) => Ok(()),
            Err(_) => {
                self.refused = self.refused.saturating_add(1);
                Err(SinkFailed)
            }
        }
    }

    fn faults(&self) -> u64 {
        self.calls.failed().saturating_add(self.refused)
    }
}

/// A sink over a writer of std, as standard output. It tells the bytes written where the writer tells them.
#[derive(Drop)]
pub struct WriterSink<W: Write> {
    inner: W,
    faults: u64,
}

impl<W: Write> Model for WriterSink<W> {
    ghost use Rattle.http_front.specs.Streams.{Writing};

    ghost Value = { Writing };

    ghost view = { λ s. record { held = W.contents s.inner; faults = s.faults } };
}

impl<W: Write> WriterSink<W> {
    /// A sink over the writer, which has had no failure yet.
    pub fn new(inner: W) -> WriterSink<W>
        ensures held { result.held ≡ W.contents inner }
        ensures faults { result.faults ≡ 0 }
    {
        WriterSink { inner, faults: 0 }
    }
}

impl<W: Write> Sink for WriterSink<W> {
    ghost held = { λ s. s.held };

    ghost failures = { λ s. s.faults };

    fn write(&mut self, bytes: &[u8]) -> Result<(), SinkFailed> {
        let written = write_through(&mut self.inner, bytes);
        if written.is_err() {
            self.faults = self.faults.saturating_add(1);
        }
        written
    }

    fn faults(&self) -> u64 {
        self.faults
    }
}

/// Writes all of the bytes and flushes. A write is made again where a signal interrupted it.
fn write_through<W: Write>(writer: &mut W, bytes: &[u8]) -> Result<(), SinkFailed>
    ensures { Writes (W.contents writer.old) (W.contents writer.new) result bytes.now }
{
    let mut done = 0;
    for _ in 0..u64::MAX {
        if done == bytes.len() {
            return flush(writer);
        }
        match write_some(writer, &bytes[done..]) {
            Ok(count) => done += count,
            Err(fault) => return Err(fault),
        }
    }
    Err(SinkFailed)
}

/// One write, and how many of the bytes it took: none where a signal interrupted it.
#[tactic(auto, using(crate::proofs::StreamLemmas::keeps_appends))]
fn write_some<W: Write>(writer: &mut W, bytes: &[u8]) -> Result<usize, SinkFailed>
    ensures bound { IfOk result (λ n. n ≤ length bytes.now) }
    ensures ok { IfOk result (λ n. Appends (W.contents writer.old) (W.contents writer.new) (take n bytes.now)) }
    ensures err { OnErr result (Appends (W.contents writer.old) (W.contents writer.new) []) }
{
    match writer.write(bytes) {
        Ok(0) => Err(SinkFailed),
        Ok(count) => Ok(count),
        Err(error) if error.kind() == ErrorKind::Interrupted => Ok(0),
        Err(_) => Err(SinkFailed),
    }
}

fn flush<W: Write>(writer: &mut W) -> Result<(), SinkFailed>
    ensures { Keeps (W.contents writer.old) (W.contents writer.new) }
{
    match writer.flush() {
        Ok(()) => Ok(()),
        Err(_) => Err(SinkFailed),
    }
}
