ghost use Rattle.std.specs.Prelude.{◌≡◌, ℕ, ◌<◌, ◌≤◌, ◌-◌, Bool, true, false, List, ◌++◌, length, take, drop, min, Option};
ghost use Rattle.std.specs.Prelude.{IfOk, IfSome, is_ok, not};
ghost use Rattle.std.specs.Io.KnownBytes.{IsAtEnd};
ghost use Rattle.size_values.specs.Causes.{HasCause};
ghost use Rattle.size_values.specs.Calls.{is_next_failing, after_call, no_calls};
ghost use Rattle.http_front.specs.Streams.{Delivers, Ends};

use size_values::{FailingCalls, Seq};
use std::io::{ErrorKind, Read};
use std::marker::Model;
use thiserror::Error;

/// The source did not give its next bytes.
#[derive(Clone, Copy, Debug, PartialEq, Eq, Error)]
#[error("the source failed")]
pub struct SourceFailed;

/// Where requests come from: standard input, a connection, or bytes in memory.
pub trait Source {
    // The bytes to come, where the source tells them.
    ghost left: { Self → Option (List ℕ) };

    // Whether the source has ended: every source tells it.
    ghost ended: { Self → Bool };

    ghost failures: { Self → ℕ };

    // Whether a read gives something at once, where the source tells it.
    ghost at_once: { Self → Option Bool };

    /// Reads the next bytes into the front of `into` and answers how many they are, 0 only at the end.
    fn read(&mut self, into: &mut [u8]) -> Result<usize, SourceFailed>
        requires { 0 < length into.old }
        ensures bound { IfOk result (λ n. n ≤ length into.new) }
        ensures bytes { Delivers (left self.old) (left self.new) result into.new }
        ensures end { Ends (ended self.old) (ended self.new) result }
        ensures rest { IfOk result (λ n. n ≡ 0 → IsAtEnd (left self.new)) }
        ensures cause { HasCause (failures self.old) (failures self.new) result };

    /// Whether a read gives something at once: bytes, the end, or a failure. Nothing is taken.
    fn is_ready(&mut self) -> bool
        ensures told { IfSome (at_once self.old) (λ told. result ≡ told) }
        ensures bytes { left self.new ≡ left self.old }
        ensures end { ended self.new ≡ ended self.old }
        ensures failures { failures self.new ≡ failures self.old };

    /// How many reads failed; the count stops at 2^64 - 1.
    fn faults(&self) -> u64
        ensures { result ≡ failures self.now };
}

/// A source in memory. It gives its bytes in pieces, and the reads of the listed numbers fail, counted from 1.
#[derive(Drop)]
pub struct ByteSource {
    bytes: Seq<u8>,
    at: usize,
    piece: usize,
    calls: FailingCalls,
    ended: bool,
}

impl Model for ByteSource {
    ghost use Rattle.std.specs.Prelude.{drop, length};
    ghost use Rattle.http_front.specs.Streams.{Tape, IsTape};

    ghost Value = { Tape };

    ghost view = { λ s. record { left = drop s.at s.bytes; piece = s.piece; calls = s.calls; ended = s.ended } };

    ghost invariant = { λ s. IsTape (length s.bytes) s.at s.piece s.calls };
}

impl ByteSource {
    /// A source of these bytes that gives at most `piece` of them at each read.
    pub fn new(bytes: Seq<u8>, piece: usize, fails: Seq<u64>) -> ByteSource
        requires { 1 ≤ piece }
        ensures left { result.left ≡ bytes }
        ensures piece { result.piece ≡ piece }
        ensures calls { result.calls ≡ no_calls fails }
        ensures ended { result.ended ≡ false }
    {
        ByteSource {
            bytes,
            at: 0,
            piece,
            calls: FailingCalls::new(fails),
            ended: false,
        }
    }
}

impl Source for ByteSource {
    ghost use Rattle.std.specs.Prelude.{Some};

    ghost left = { λ s. Some s.left };

    ghost ended = { λ s. s.ended };

    ghost failures = { λ s. s.calls.failed };

    ghost at_once = { λ _. Some true };

    fn read(&mut self, into: &mut [u8]) -> Result<usize, SourceFailed>
        requires { 0 < length into.old }
        ensures bound { IfOk result (λ n. n ≤ length into.new) }
        ensures bytes { Delivers (Some self.old.left) (Some self.new.left) result into.new }
        ensures end { Ends self.old.ended self.new.ended result }
        ensures rest { IfOk result (λ n. n ≡ 0 → IsAtEnd (Some self.new.left)) }
        ensures cause { HasCause self.old.calls.failed self.new.calls.failed result }

        // Which call fails, how many bytes another one gives, and that it leaves the rest of `into`.
        ensures fails { is_ok result ≡ not (is_next_failing self.old.calls) }
        ensures calls { self.new.calls ≡ after_call self.old.calls }
        ensures count { IfOk result (λ n. n ≡ min (min self.old.piece (length into.old)) (length self.old.left)) }
        ensures into { IfOk result (λ n. into.new ≡ take n self.old.left ++ drop n into.old) }
        ensures piece { self.new.piece ≡ self.old.piece }
    {
        if self.calls.next() {
            return Err(SourceFailed);
        }
        let left = &self.bytes.view()[self.at..];
        let count = self.piece.min(into.len()).min(left.len());
        into[..count].copy_from_slice(&left[..count]);
        self.at += count;
        self.ended = self.ended || count == 0;
        Ok(count)
    }

    /// Always: no read in memory waits.
    fn is_ready(&mut self) -> bool
        ensures told { result ≡ true }
        ensures bytes { Some self.new.left ≡ Some self.old.left }
        ensures end { self.new.ended ≡ self.old.ended }
        ensures failures { self.new.calls.failed ≡ self.old.calls.failed }
        ensures same { self.new ≡ self.old }
    {
        true
    }

    fn faults(&self) -> u64 {
        self.calls.failed()
    }
}

/// A source over a reader of std, as standard input. It tells the bytes to come where the reader tells them.
#[derive(Drop)]
pub struct ReaderSource<R: Read> {
    inner: R,
    ended: bool,
    faults: u64,
}

impl<R: Read> Model for ReaderSource<R> {
    ghost use Rattle.http_front.specs.Streams.{Reading};

    ghost Value = { Reading };

    ghost view = { λ s. record { left = R.remaining s.inner; ended = s.ended; faults = s.faults } };
}

impl<R: Read> ReaderSource<R> {
    /// A source over the reader, of which nothing was read yet.
    pub fn new(inner: R) -> ReaderSource<R>
        ensures left { result.left ≡ R.remaining inner }
        ensures ended { result.ended ≡ false }
        ensures faults { result.faults ≡ 0 }
    {
        ReaderSource {
            inner,
            ended: false,
            faults: 0,
        }
    }
}

impl<R: Read> Source for ReaderSource<R> {
    ghost use Rattle.std.specs.Prelude.{None};

    ghost left = { λ s. s.left };

    ghost ended = { λ s. s.ended };

    ghost failures = { λ s. s.faults };

    ghost at_once = { λ _. None };

    fn read(&mut self, into: &mut [u8]) -> Result<usize, SourceFailed> {
        let Ok(count) = read_once(&mut self.inner, into) else {
            self.faults = self.faults.saturating_add(1);
            return Err(SourceFailed);
        };
        self.ended = self.ended || count == 0;
        Ok(count)
    }

    /// Always: a reader of std shows only when it is read whether it waits.
    fn is_ready(&mut self) -> bool
        ensures bytes { self.new.left ≡ self.old.left }
        ensures end { self.new.ended ≡ self.old.ended }
        ensures failures { self.new.faults ≡ self.old.faults }
        ensures always { result ≡ true }
        ensures same { self.new ≡ self.old }
    {
        true
    }

    fn faults(&self) -> u64 {
        self.faults
    }
}

/// One read, made again where a signal interrupted it.
fn read_once<R: Read>(reader: &mut R, into: &mut [u8]) -> Result<usize, SourceFailed>
    requires { 0 < length into.old }
    ensures bound { IfOk result (λ n. n ≤ length into.new) }
    ensures bytes { Delivers (R.remaining reader.old) (R.remaining reader.new) result into.new }
    ensures rest { IfOk result (λ n. n ≡ 0 → IsAtEnd (R.remaining reader.new)) }
{
    for _ in 0..u64::MAX {
        match reader.read(into) {
            Ok(count) => return Ok(count),
            Err(error) if error.kind() == ErrorKind::Interrupted => {}
            Err(_) => return Err(SourceFailed),
        }
    }
    Err(SourceFailed)
}
