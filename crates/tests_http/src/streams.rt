//! Sources over readers, sinks over writers, and the sink in memory.

use crate::answers::Want::{Cut, Next, ReadFault};
use crate::answers::{Want, answers_all};
use http_front::{ByteSink, ReaderSource, Sink, Source, WriterSink};
use size_values::Seq;
use std::alloc::Global;
use std::io;
use std::io::{ErrorKind, Read};

/// Gives one byte at a time, each after an interrupt, and fails at the end.
#[derive(Drop)]
struct Hiccups<'a> {
    bytes: &'a [u8],
    interrupted: bool,
}

impl Read for Hiccups<'_> {
    fn read(&mut self, into: &mut [u8]) -> io::Result<usize> {
        self.interrupted = !self.interrupted;
        if self.interrupted {
            return Err(io::Error::from(ErrorKind::Interrupted));
        }
        if self.bytes.is_empty() || into.is_empty() {
            return Err(io::Error::from(ErrorKind::ConnectionReset));
        }
        into[0] = self.bytes[0];
        self.bytes = &self.bytes[1..];
        Ok(1)
    }
}

const TEXT: &[u8] = b"GET / HTTP/1.1\r\n\r\nGET";

/// Whether the calls over this reader answer what is wanted, and so many reads have failed then.
fn answers_over<R: Read + Drop>(alloc: Global, reader: R, wants: &[Want], faults: u64) -> bool {
    let mut source = ReaderSource::new(reader);
    let are = answers_all(alloc, &mut source, wants) & (source.faults() == faults);
    drop(source);
    are
}

const SLOW: Hiccups<'static> = Hiccups {
    bytes: TEXT,
    interrupted: false,
};

#[test]
fn reads_over_a_reader(rt: HostRuntime) {
    let root = Next("GET", "/", 0);
    let whole = answers_over(rt.alloc(), TEXT, &[root, Cut(3)], 0);
    let slow = answers_over(rt.alloc(), SLOW, &[root, ReadFault], 1);
    assert!(rt; whole & slow, "of bytes, and of a failing reader");
}

/// Takes two bytes at a time, each time after an interrupt, and has room for five.
#[derive(Drop)]
struct Small<'a> {
    bytes: &'a mut Vec<u8>,
    interrupted: bool,
}

impl io::Write for Small<'_> {
    fn write(&mut self, bytes: &[u8]) -> io::Result<usize> {
        self.interrupted = !self.interrupted;
        if self.interrupted {
            return Err(io::Error::from(ErrorKind::Interrupted));
        }
        let room = 5usize.saturating_sub(self.bytes.len());
        let count = bytes.len().min(2).min(room);
        match self.bytes.extend_from_slice(&bytes[..count]) {
            Ok(()) => Ok(count),
            Err(_) => Err(io::Error::from(ErrorKind::OutOfMemory)),
        }
    }

    fn flush(&mut self) -> io::Result<()> {
        Ok(())
    }
}

/// Bytes that are written, whether that succeeds, and how many writes have failed then.
type Write = (&'static [u8], bool, u64);

/// Whether the writes end as they are to, one after the other.
fn writes<K: Sink>(sink: &mut K, all: &[Write]) -> bool {
    let mut are = true;
    for (bytes, succeeds, faults) in all {
        are &= (sink.write(bytes).is_ok() == *succeeds) & (sink.faults() == *faults);
    }
    are
}

/// Two texts, of which the second does not fit into five bytes.
const TOO_MANY: &[Write] = &[(b"abc", true, 0), (b"def", false, 1)];

/// Whether a writer with room for five bytes has the first five of the two texts.
fn fills_small_writer(alloc: Global) -> bool {
    let mut bytes = Vec::new(alloc);
    let small = Small {
        bytes: &mut bytes,
        interrupted: false,
    };
    let written = writes(&mut WriterSink::new(small), TOO_MANY);
    let is = written & (bytes.as_slice() == b"abcde".as_slice());
    drop(bytes);
    is
}

const FITTING: &[Write] = &[(b"abc", true, 0), (b"", true, 0), (b"def", true, 0)];

/// Whether a vector has all bytes that are written to it through a sink.
fn fills_vector(alloc: Global) -> bool {
    let mut bytes: Vec<u8> = Vec::new(alloc);
    let written = writes(&mut WriterSink::new(&mut bytes), FITTING);
    let is = written & (bytes.as_slice() == b"abcdef".as_slice());
    drop(bytes);
    is
}

/// Three texts, of which the second write fails.
const SECOND_FAILS: &[Write] = &[(b"ab", true, 0), (b"cd", false, 1), (b"ef", true, 1)];

/// Whether the write of the listed number fails and takes nothing, and the others take their bytes.
fn fails_at_second_write(alloc: Global) -> bool {
    let Ok(fails) = Vec::from_slice(alloc, [2].as_slice()) else {
        return false;
    };
    let mut sink = ByteSink::new(alloc, Seq::from_vec(fails));
    let is = writes(&mut sink, SECOND_FAILS)
        & (sink.bytes() == b"abef".as_slice())
        & (sink.refused() == 0);
    drop(sink);
    is
}

#[test]
fn writes_over_sinks(rt: HostRuntime) {
    assert!(rt; fills_small_writer(rt.alloc()));
    assert!(rt; fills_vector(rt.alloc()));
    assert!(rt; fails_at_second_write(rt.alloc()));
}
