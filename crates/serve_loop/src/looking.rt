//! Looks at the source of a session.
ghost use Rattle.std.specs.Prelude.{◌≡◌, ◌<◌, ◌≤◌, ◌+◌, length, vec_len, vec_capacity, IfOk, OnErr, List, ℕ};
ghost use Rattle.gates.specs.rest_answers.specs.Links.{inlet};
ghost use Rattle.serve_loop.specs.Listening.{Looks, Reads};
ghost use Rattle.serve_loop.specs.Sources.{feed, most_taken};

use http_front::{Source, SourceFailed};
use size_values::NoMemory;

/// The most bytes that one look takes.
const PIECE: usize = 4_096;

/// What one look at a source shows.
#[derive(Clone, Copy, PartialEq, Eq)]
pub enum Looked {
    /// A read would wait, so none was made.
    Quiet,
    /// Some bytes came, and stand behind those that were held.
    Came,
    /// The end.
    Over,
    /// A read failed.
    Broken,
}

/// Reads once, and puts what comes behind the bytes that are held.
fn read_piece<S: Source>(source: &mut S, held: &mut Vec<u8>) -> Looked
    requires room { vec_len held.old + most_taken ≤ vec_capacity held.old }
    ensures { Reads result (inlet S.left S.ended S.failures source.old) held.old.items
        (inlet S.left S.ended S.failures source.new) held.new.items }
{
    let mut piece = [0u8; PIECE];
    match source.read(&mut piece) {
        Ok(0) => Looked::Over,
        Ok(count) => {
            match held.extend_from_slice(&piece[..count]) {
                Ok(()) => Looked::Came,
                Err(_) => unreachable!(),
            }
        }
        Err(SourceFailed) => Looked::Broken,
    }
}

/// Looks once whether something came, and takes it in. Memory is refused before anything is read.
pub(crate) fn look<S: Source>(source: &mut S, held: &mut Vec<u8>) -> Result<Looked, NoMemory>
    ensures ok { IfOk result (λ shown. Looks shown (feed S.left S.ended S.failures S.at_once source.old) held.old.items
        (feed S.left S.ended S.failures S.at_once source.new) held.new.items) }
    ensures err { OnErr result ((source.new ≡ source.old) × (held.new.items ≡ held.old.items)) }
{
    held.reserve(PIECE)?;
    if source.is_ready() {
        Ok(read_piece(source, held))
    } else {
        Ok(Looked::Quiet)
    }
}
