ghost use Rattle.std.specs.Prelude.{◌≡◌, ◌+◌, ◌<◌, ◌≤◌, [], Some, true, false, length, drop, vec_len, vec_capacity, IfOk, IfErr};
ghost use Rattle.std.specs.Prelude.{Bool, IfSome, IfNone, OnErr};
ghost use Rattle.std.specs.Io.KnownBytes.{IsAtEnd};
ghost use Rattle.size_values.specs.Causes.{HasCauseOrMemory};
ghost use Rattle.http_heads.specs.Heads.{head_bytes, head_len};
ghost use Rattle.http_heads.specs.Limits.{max_head, max_body};
ghost use Rattle.http_heads.specs.Messages.{IsMessage};
ghost use Rattle.http_heads.specs.Readings.{Says, HasReason};
ghost use Rattle.http_front.specs.Streams.{Ends};
ghost use Rattle.http_front.specs.Held.{TakesIn, max_piece, most_held};
ghost use Rattle.http_front.specs.Leave.{ToldLeave};

use crate::known::KnownHead;
use crate::source::{Source, SourceFailed};
use http_heads::{Head, HeadFault, HeaderSpans, Request, SpareTexts, expects_leave, read_head};
use size_values::{NoMemory, Or, Text};
use std::alloc::Global;
use std::marker::Model;

/// The most bytes that one read asks for.
pub const PIECE: usize = 65_536;

/// The constant is the number that definitions speak of.
pub fn pieces_have_64_kib()
    ensures { PIECE ≡ max_piece }
{}

/// The bytes that a source gave and that no message has used yet. Contracts see it as the list of these bytes.
#[derive(Drop)]
pub struct Buffer {
    /// The bytes from `start` on are held; those before it were used.
    bytes: Vec<u8>,
    start: usize,
    /// Where a read puts its bytes.
    piece: Vec<u8>,
    /// Where the headers of a head are, while it is read.
    spans: HeaderSpans,
    /// What a request before left, for the next one.
    spare: SpareTexts,
    /// The head that was read last.
    known: KnownHead,
}

impl Model for Buffer {
    ghost use Rattle.std.specs.Prelude.{List, ℕ, drop, vec_len};
    ghost use Rattle.http_front.specs.Held.{IsBuffer};

    ghost Value = { List ℕ };

    ghost view = { λ b. drop b.start b.bytes.items };

    ghost invariant = { λ b. IsBuffer (vec_len b.bytes) b.start (vec_len b.piece) };
}

impl Buffer {
    /// A buffer that holds nothing.
    pub fn new(alloc: Global) -> Result<Buffer, NoMemory>
        ensures { IfOk result (λ b. b ≡ []) }
    {
        let piece = vec![in alloc; 0u8; PIECE]?;
        let spans = HeaderSpans::new(alloc)?;
        Ok(Buffer {
            bytes: Vec::new(alloc),
            start: 0,
            piece,
            spans,
            spare: SpareTexts {
                method: Text::new(alloc),
                target: Text::new(alloc),
            },
            known: KnownHead::new(alloc),
        })
    }

    /// The bytes held: at most one head, one body and one piece.
    pub fn view(&self) -> &[u8]
        ensures bytes { result.now ≡ self.now }
        ensures few { length self.now ≤ most_held }
    {
        &self.bytes[self.start..]
    }

    /// Reads the head that the first `len` bytes are.
    pub(crate) fn read_head(&mut self, alloc: Global, len: usize) -> Result<Head, Or<HeadFault>>
        requires { len ≤ length self.old }
        ensures ok { IfOk result (Says (head_bytes len self.old)) }
        ensures small { IfOk result (λ head. head.body ≤ max_body) }
        ensures err { IfErr result (HasReason (head_bytes len self.old)) }
        ensures same { self.new ≡ self.old }
    {
        let held = &self.bytes[self.start..];
        read_head(alloc, &held[..len], &mut self.spans, &mut self.spare)
    }

    /// Takes a request that is done with, so that the next one is put into its memory.
    pub fn reuse(&mut self, request: Request)
        ensures { self.new ≡ self.old }
    {
        let Request { method, target, .. } = request;
        self.spare = SpareTexts { method, target };
    }

    /// Notes the head that the first `len` bytes are.
    pub(crate) fn note(&mut self, len: usize, head: &Head) -> Result<(), NoMemory>
        requires within { len ≤ length self.old }
        requires ends { head_len self.old ≡ Some len }
        requires says { Says (head_bytes len self.old) head.now }
        ensures same { self.new ≡ self.old }
        ensures few { length self.new ≤ most_held }
    {
        let held = &self.bytes[self.start..];
        self.known.note(&held[..len], head)
    }

    /// Takes the first request, where its head is the one that was noted.
    pub(crate) fn take_known(&mut self, alloc: Global) -> Result<Option<Request>, NoMemory>
        ensures some { IfOk result (λ found. IfSome found (λ request. IsMessage self.old request self.new)) }
        ensures none { IfOk result (λ found. IfNone found (self.new ≡ self.old)) }
        ensures err { OnErr result (self.new ≡ self.old) }
        ensures few { length self.new ≤ most_held }
    {
        let Some(len) = self.known.begins(&self.bytes[self.start..]) else {
            return Ok(None);
        };
        let request = self.known.request(alloc, &mut self.spare)?;
        self.start += len;
        Ok(Some(request))
    }

    /// Whether the bytes begin with the head that was noted. Its request has no body.
    pub(crate) fn begins_known(&self) -> bool
        ensures told { result ≡ true → ((refuses_origin : Bool) → ToldLeave refuses_origin self.now false) }
        ensures few { length self.now ≤ most_held }
    {
        self.known.begins(&self.bytes[self.start..]).is_some()
    }

    /// Whether the head that the first `len` bytes are has its client wait for leave before it sends the body, and is not
    /// refused for an `Origin`.
    pub(crate) fn expects_leave(&mut self, len: usize, refuses_origin: bool) -> bool
        requires within { len ≤ length self.old }
        requires ends { head_len self.old ≡ Some len }
        ensures told { ToldLeave refuses_origin self.new result }
        ensures same { self.new ≡ self.old }
    {
        let held = &self.bytes[self.start..];
        expects_leave(&held[..len], &mut self.spans, refuses_origin)
    }

    /// Lets go of the first bytes, which a message has used.
    pub(crate) fn consume(&mut self, count: usize)
        requires { count ≤ length self.old }
        ensures { self.new ≡ drop count self.old }
    {
        self.start += count;
    }

    /// Takes in what one read of the source gives, and answers how many bytes it is.
    pub(crate) fn fill<S: Source>(&mut self, source: &mut S) -> Result<usize, Or<SourceFailed>>
        requires { length self.old < max_head + max_body }
        ensures takes { TakesIn self.old self.new (S.left source.old) (S.left source.new) }
        ensures count { IfOk result (λ n. length self.new ≡ length self.old + n) }
        ensures few { length self.new ≤ most_held }
        ensures err { OnErr result (self.new ≡ self.old) }
        ensures end { Ends (S.ended source.old) (S.ended source.new) result }
        ensures rest { IfOk result (λ n. n ≡ 0 → IsAtEnd (S.left source.new)) }
        ensures cause { HasCauseOrMemory (S.failures source.old) (S.failures source.new) result }
    {
        keep_from(&mut self.bytes, self.start);
        self.start = 0;
        self.bytes.reserve(PIECE)?;
        read_piece(&mut self.bytes, &mut self.piece, source)
    }
}

/// Lets go of the bytes before `start`.
fn keep_from(bytes: &mut Vec<u8>, start: usize)
    requires { start ≤ vec_len bytes.old }
    ensures items { bytes.new.items ≡ drop start bytes.old.items }
    ensures len { vec_len bytes.new + start ≡ vec_len bytes.old }
{
    if start > 0 {
        let len = bytes.len() - start;
        bytes.copy_within(start.., 0);
        bytes.truncate(len);
    }
}

/// Reads once, and appends what comes to the bytes.
fn read_piece<S: Source>(
    bytes: &mut Vec<u8>,
    piece: &mut Vec<u8>,
    source: &mut S,
) -> Result<usize, Or<SourceFailed>>
    requires piece { vec_len piece.old ≡ max_piece }
    requires room { vec_len bytes.old + max_piece ≤ vec_capacity bytes.old }
    ensures takes { TakesIn bytes.old.items bytes.new.items (S.left source.old) (S.left source.new) }
    ensures count { IfOk result (λ n. vec_len bytes.new ≡ vec_len bytes.old + n) }
    ensures few { IfOk result (λ n. n ≤ max_piece) }
    ensures err { OnErr result (bytes.new ≡ bytes.old) }
    ensures piece { vec_len piece.new ≡ max_piece }
    ensures end { Ends (S.ended source.old) (S.ended source.new) result }
    ensures rest { IfOk result (λ n. n ≡ 0 → IsAtEnd (S.left source.new)) }
    ensures cause { HasCauseOrMemory (S.failures source.old) (S.failures source.new) result }
{
    let count = match source.read(piece.as_mut_slice()) {
        Ok(count) => count,
        Err(fault) => return Err(Or::Why(fault)),
    };
    match bytes.extend_from_slice(&piece[..count]) {
        Ok(()) => Ok(count),
        Err(_) => unreachable!(),
    }
}
