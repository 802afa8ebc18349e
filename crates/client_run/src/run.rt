//! A run of the client.
ghost use Rattle.std.specs.Prelude.{◌≡◌, ◌≤◌, map, string_bytes, Some};
ghost use Rattle.size_values.specs.Causes.{Rose};
ghost use Rattle.client_words.specs.Words.{client_words_of};
ghost use Rattle.client_run.specs.Sessions.{Ran, Runs, Prints, course_of, outside};

use crate::course::Course;
use crate::receive::Stop;
use crate::talk::{Ending, converse};
use client_words::{ClientWords, read_words};
use http_front::{Sink, Source};
use std::alloc::Global;

/// Runs the command that the words name over a link, of which one part gives the replies and the other takes the requests,
/// and prints what it tells. Each request is sent once the reply to the one before it was read.
///
/// The status is 0 where all requests were answered and what they tell was printed; 1 where a reply is an error, or an
/// operation that was waited for did not succeed; 2 where the words are not read; 3 where what the link gave is no reply, or it
/// has ended before a reply was whole; 4 and 5 where the link and where a print failed; and 9 where memory was refused.
pub fn client_run<S: Source, K: Sink, P: Sink>(
    alloc: Global,
    words: &[String],
    source: &mut S,
    sink: &mut K,
    printed: &mut P,
) -> u8
    ensures runs { Runs (client_words_of (map (λ w. string_bytes w) words.now))
        (outside (S.left source.old) (S.ended source.old) (K.held sink.old) (P.held printed.old)
        (S.failures source.old) (K.failures sink.old) (P.failures printed.old))
        (outside (S.left source.new) (S.ended source.new) (K.held sink.new) (P.held printed.new)
        (S.failures source.new) (K.failures sink.new) (P.failures printed.new))
        result }
{
    match read_words(alloc, words) {
        Ok(Some(words)) => run_command(alloc, &words, source, sink, printed).status(),
        Ok(None) => Course::Unread.status(),
        Err(_) => Course::NoMemory.status(),
    }
}

/// The same for words that were read.
fn run_command<S: Source, K: Sink, P: Sink>(
    alloc: Global,
    words: &ClientWords,
    source: &mut S,
    sink: &mut K,
    printed: &mut P,
) -> Course
    ensures { Ran words.now
        (outside (S.left source.old) (S.ended source.old) (K.held sink.old) (P.held printed.old)
        (S.failures source.old) (K.failures sink.old) (P.failures printed.old))
        (outside (S.left source.new) (S.ended source.new) (K.held sink.new) (P.held printed.new)
        (S.failures source.new) (K.failures sink.new) (P.failures printed.new))
        result }
{
    match converse(alloc, words, source, sink) {
        Ok(ending) => print(&ending, printed),
        Err(stop) => course_of(stop),
    }
}

/// The course that a stop gives.
fn course_of(stop: Stop) -> Course
    ensures { result ≡ course_of stop }
{
    match stop {
        Stop::Malformed => Course::Malformed,
        Stop::LinkFailed => Course::LinkFailed,
        Stop::NoMemory => Course::NoMemory,
    }
}

/// Prints what a command tells at its end.
fn print<P: Sink>(ending: &Ending, printed: &mut P) -> Course
    ensures { Prints ending.now (P.held printed.old) (P.held printed.new) (P.failures printed.old) (P.failures printed.new) result }
{
    if ending.text.is_empty() {
        return Course::Ended(ending.status);
    }
    match printed.write(ending.text.view().as_bytes()) {
        Ok(()) => Course::Ended(ending.status),
        Err(_) => Course::PrintFailed,
    }
}
