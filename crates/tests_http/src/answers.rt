//! What calls of `read_request` are to answer, and whether they do.

use http_front::{Buffer, ByteSource, Got, HeadFault, Request, Source, read_request};
use size_values::{NoMemory, Seq, Text};
use std::alloc::Global;

/// What one call is to answer.
#[derive(Clone, Copy)]
pub(crate) enum Want {
    /// A request with this method, this target and so many bytes of body, after which others may come.
    Next(&'static str, &'static str, usize),
    /// The same, and the last on its connection.
    Last(&'static str, &'static str, usize),
    /// A request with this key of a WebSocket handshake.
    Key(Option<&'static str>),
    End,
    Cut(u64),
    Malformed(HeadFault),
    ReadFault,
}

/// Bytes, and how often they come.
pub(crate) type Part = (&'static [u8], usize);

pub(crate) fn is_text(text: &Option<Text>, wanted: Option<&str>) -> bool {
    match (text, wanted) {
        (Some(text), Some(wanted)) => text.view() == wanted,
        (None, None) => true,
        _ => false,
    }
}

fn is_request(request: &Request, method: &str, target: &str, body: usize, last: bool) -> bool {
    (request.method.view() == method)
        & (request.target.view() == target)
        & (request.body.len() == body)
        & (request.last == last)
}

fn is_wanted(got: &Got, want: Want) -> bool {
    match (got, want) {
        (Got::Request(request), Want::Next(method, target, body)) => {
            is_request(request, method, target, body, false)
        }
        (Got::Request(request), Want::Last(method, target, body)) => {
            is_request(request, method, target, body, true)
        }
        (Got::Request(request), Want::Key(key)) => is_text(&request.upgrade, key),
        (Got::End, Want::End) => true,
        (Got::Cut(held), Want::Cut(wanted)) => *held == wanted,
        (Got::Malformed(fault), Want::Malformed(wanted)) => *fault == wanted,
        (Got::ReadFault, Want::ReadFault) => true,
        _ => false,
    }
}

/// Whether the calls over this source answer what is wanted, one after the other.
pub(crate) fn answers_all<S: Source>(alloc: Global, source: &mut S, wants: &[Want]) -> bool {
    let Ok(mut buffer) = Buffer::new(alloc) else {
        return false;
    };
    let mut all = true;
    for want in wants {
        let got = read_request(alloc, &mut buffer, source);
        all &= is_wanted(&got, *want);
        match got {
            Got::Request(request) => buffer.reuse(request),
            other => drop(other),
        }
    }
    drop(buffer);
    all
}

/// Whether they do over a text that comes in pieces of this many bytes, where the reads of these numbers fail, and
/// whether so many reads have failed then.
pub(crate) fn reads_as(
    alloc: Global,
    text: &[u8],
    piece: usize,
    fails: &[u64],
    wants: &[Want],
    faults: u64,
) -> bool {
    let Ok(fails) = Vec::from_slice(alloc, fails) else {
        return false;
    };
    let fails = Seq::from_vec(fails);
    let Ok(bytes) = Seq::of_bytes(alloc, text) else {
        drop(fails);
        return false;
    };
    let mut source = ByteSource::new(bytes, piece.max(1), fails);
    let is = answers_all(alloc, &mut source, wants) & (source.faults() == faults);
    drop(source);
    is
}

/// The sizes of pieces in which texts come.
const PIECES: &[usize] = &[1, 2, 7, 65_536];

/// Whether they do in pieces of every size.
pub(crate) fn reads_in_any_pieces(alloc: Global, text: &[u8], wants: &[Want]) -> bool {
    let mut all = true;
    for piece in PIECES {
        all &= reads_as(alloc, text, *piece, &[], wants, 0);
    }
    all
}

/// The parts as one text.
pub(crate) fn text_of(alloc: Global, parts: &[Part]) -> Result<Seq<u8>, NoMemory> {
    let mut text = Vec::new(alloc);
    for (bytes, times) in parts {
        for _ in 0..*times {
            text.extend_from_slice(bytes)?;
        }
    }
    Ok(Seq::from_vec(text))
}
