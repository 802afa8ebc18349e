//! The bytes that a link gives.
ghost use Rattle.std.specs.Prelude.{◌≡◌, ◌+◌, ◌≤◌, [], length, drop, vec_len, vec_capacity, IfOk, OnErr};
ghost use Rattle.std.specs.Io.KnownBytes.{IsAtEnd};
ghost use Rattle.size_values.specs.Causes.{HasCauseOrMemory};
ghost use Rattle.http_front.specs.Streams.{Ends};
ghost use Rattle.http_front.specs.Held.{TakesIn, max_piece};

use http_front::{PIECE, Source, SourceFailed};
use size_values::{NoMemory, Or};
use std::alloc::Global;
use std::marker::Model;

/// The bytes that a link gave and that no reply has used yet. Contracts see it as the list of these bytes.
#[derive(Drop)]
pub(crate) struct Inbox {
    /// The bytes from `start` on are held; those before it were used.
    bytes: Vec<u8>,
    start: usize,
    /// Where a read puts its bytes.
    piece: Vec<u8>,
}

impl Model for Inbox {
    ghost use Rattle.std.specs.Prelude.{List, ℕ, drop, vec_len};
    ghost use Rattle.client_run.specs.Receiving.{IsInbox};

    ghost Value = { List ℕ };

    ghost view = { λ b. drop b.start b.bytes.items };

    ghost invariant = { λ b. IsInbox (vec_len b.bytes) b.start (vec_len b.piece) };
}

impl Inbox {
    /// One that holds nothing.
    pub(crate) fn new(alloc: Global) -> Result<Inbox, NoMemory>
        ensures { IfOk result (λ b. b ≡ []) }
    {
        let piece = vec![in alloc; 0u8; PIECE]?;
        Ok(Inbox {
            bytes: Vec::new(alloc),
            start: 0,
            piece,
        })
    }

    /// The bytes held.
    pub(crate) fn view(&self) -> &[u8]
        ensures { result.now ≡ self.now }
    {
        &self.bytes[self.start..]
    }

    /// Lets go of the first bytes, which a reply has used.
    pub(crate) fn consume(&mut self, count: usize)
        requires { count ≤ length self.old }
        ensures { self.new ≡ drop count self.old }
    {
        self.start += count;
    }

    /// Takes in what one read of the link gives, and answers how many bytes it is.
    pub(crate) fn fill<S: Source>(&mut self, source: &mut S) -> Result<usize, Or<SourceFailed>>
        ensures takes { TakesIn self.old self.new (S.left source.old) (S.left source.new) }
        ensures count { IfOk result (λ n. length self.new ≡ length self.old + n) }
        ensures err { OnErr result (self.new ≡ self.old) }
        ensures end { Ends (S.ended source.old) (S.ended source.new) result }
        ensures rest { IfOk result (λ n. n ≡ 0 → IsAtEnd (S.left source.new)) }
        ensures cause { HasCauseOrMemory (S.failures source.old) (S.failures source.new) result }
    {
        self.bytes.reserve(PIECE)?;
        read_piece(&mut self.bytes, &mut self.piece, source)
    }
}

/// Reads once, and appends what comes to the bytes.
fn read_piece<S: Source>(
    bytes: &mut Vec<u8>,
    piece: &mut Vec<u8>,
    source: &mut S,
) -> Result<usize, Or<SourceFailed>>
    requires piece { vec_len piece.old ≡ max_piece }
    requires room { vec_len bytes.old + max_piece ≤ vec_capacity bytes.old }
    ensures takes { TakesIn bytes.old.items bytes.new.items (S.left source.old) (S.left source.new) }
    ensures count { IfOk result (λ n. vec_len bytes.new ≡ vec_len bytes.old + n) }
    ensures err { OnErr result (bytes.new ≡ bytes.old) }
    ensures piece { vec_len piece.new ≡ max_piece }
    ensures end { Ends (S.ended source.old) (S.ended source.new) result }
    ensures rest { IfOk result (λ n. n ≡ 0 → IsAtEnd (S.left source.new)) }
    ensures cause { HasCauseOrMemory (S.failures source.old) (S.failures source.new) result }
{
    let count = match source.read(piece.as_mut_slice()) {
        Ok(count) => count,
        Err(fault) => return Err(Or::Why(fault)),
    };
    match bytes.extend_from_slice(&piece[..count]) {
        Ok(()) => Ok(count),
        Err(_) => unreachable!(),
    }
}
