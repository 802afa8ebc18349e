//! The client of a session of events, by a script.
ghost use Rattle.std.specs.Prelude.{◌≡◌, None};

use http_front::{Source, SourceFailed};

/// What comes from a client at one look at it.
#[derive(Clone, Copy)]
pub(crate) enum Piece {
    Quiet,
    Bytes(&'static [u8]),
    End,
    Failure,
}

/// A source that shows these pieces, one at each look, and is quiet from then on. It is never read without a look.
#[derive(Drop)]
pub(crate) struct Client {
    script: &'static [Piece],
    at: usize,
    ended: bool,
    faults: u64,
}

impl Client {
    /// A client of which nothing was seen yet.
    pub(crate) fn new(script: &'static [Piece]) -> Client {
        Client {
            script,
            at: 0,
            ended: false,
            faults: 0,
        }
    }

    /// What comes next.
    fn next(&mut self) -> Piece
        ensures ended { self.new.ended ≡ self.old.ended }
        ensures faults { self.new.faults ≡ self.old.faults }
    {
        match self.script.get(self.at) {
            Some(piece) => {
                self.at = self.at.saturating_add(1);
                *piece
            }
            None => Piece::Quiet,
        }
    }
}

impl Source for Client {
    ghost left = { λ _. None };

    ghost ended = { λ s. s.ended };

    ghost failures = { λ s. s.faults };

    ghost at_once = { λ _. None };

    fn read(&mut self, into: &mut [u8]) -> Result<usize, SourceFailed> {
        let count = match self.next() {
            Piece::Bytes(bytes) => {
                let count = bytes.len().min(into.len());
                into[..count].copy_from_slice(&bytes[..count]);
                count
            }
            Piece::Failure => {
                self.faults = self.faults.saturating_add(1);
                return Err(SourceFailed);
            }
            Piece::Quiet | Piece::End => 0,
        };
        self.ended = self.ended || count == 0;
        Ok(count)
    }

    fn is_ready(&mut self) -> bool {
        match self.script.get(self.at) {
            None => false,
            Some(Piece::Quiet) => {
                self.at = self.at.saturating_add(1);
                false
            }
            Some(_) => true,
        }
    }

    fn faults(&self) -> u64 {
        self.faults
    }
}
