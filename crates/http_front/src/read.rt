ghost use Rattle.std.specs.Prelude.{◌≡◌, ℕ, ◌+◌, ◌<◌, ◌≤◌, ◌⊎◌, Some, None, true, false, length, take, IfOk, IfErr};
ghost use Rattle.std.specs.Prelude.{OnOk, OnErr, IfSome};
ghost use Rattle.std.specs.Io.KnownBytes.{prepend_known};
ghost use Rattle.size_values.specs.Causes.{Rose};
ghost use Rattle.http_heads.specs.Heads.{head_len, head_bytes};
ghost use Rattle.http_heads.specs.Limits.{max_head, max_body};
ghost use Rattle.http_heads.specs.Messages.{IsMessage};
ghost use Rattle.http_heads.specs.Readings.{Says};
ghost use Rattle.http_heads.specs.Search.{HasSearched};
ghost use Rattle.http_front.specs.Reading.{IsUnfinished, KeepsHeld, ReadsNext, OnReadFault, OnEnd};
ghost use Rattle.http_front.specs.Held.{TakesIn, IsOver, IsHeadAwaited, most_held, Stops, StopsBefore, OnFault, Takes};
ghost use Rattle.http_front.specs.Held.{IsReadStop, read_stop, head_stop, got_of, EndsWith};

use crate::buffer::Buffer;
use crate::source::{Source, SourceFailed};
use http_heads::{Head, HeadFault, MAX_HEAD, Request, Search, end_of_head, leading_line_bytes};
use size_values::{NoMemory, Or, Seq};
use std::alloc::Global;

/// What one call of `read_request` found at the front of the bytes.
#[derive(Drop)]
pub enum Got {
    Request(Request),
    /// The source has ended between two messages.
    End,
    /// The source has ended within a message, of which so many bytes are held.
    Cut(u64),
    /// No message can begin here.
    Malformed(HeadFault),
    /// A read of the source failed.
    ReadFault,
    NoMemory,
}

/// Why there is no request, as `Got` has it.
#[derive(Clone, Copy)]
pub enum Stop {
    End,
    Cut(u64),
    Malformed(HeadFault),
    ReadFault,
    NoMemory,
}

impl From<NoMemory> for Stop {
    ghost use Rattle.http_front.specs.declared.read.Stop.TheVariants.{NoMemory as no_memory};

    ghost from_gives = { λ _ s. s ≡ no_memory };

    fn from(_: NoMemory) -> Self {
        Stop::NoMemory
    }
}

impl From<Or<SourceFailed>> for Stop {
    ghost from_gives = { λ e s. s ≡ read_stop e };

    fn from(fault: Or<SourceFailed>) -> Self {
        match fault {
            Or::NoMemory => Stop::NoMemory,
            Or::Why(SourceFailed) => Stop::ReadFault,
        }
    }
}

impl From<Or<HeadFault>> for Stop {
    ghost from_gives = { λ e s. s ≡ head_stop e };

    fn from(fault: Or<HeadFault>) -> Self {
        match fault {
            Or::NoMemory => Stop::NoMemory,
            Or::Why(fault) => Stop::Malformed(fault),
        }
    }
}

impl From<Stop> for Got {
    ghost from_gives = { λ s g. g ≡ got_of s };

    fn from(stop: Stop) -> Self {
        match stop {
            Stop::End => Got::End,
            Stop::Cut(held) => Got::Cut(held),
            Stop::Malformed(fault) => Got::Malformed(fault),
            Stop::ReadFault => Got::ReadFault,
            Stop::NoMemory => Got::NoMemory,
        }
    }
}

/// Reads the next request of the bytes held and those that the source has left, in whatever pieces it gives them.
/// At most one head of 16,384 bytes, one body of 1,048,576 and one piece more are ever held.
pub fn read_request<S: Source>(alloc: Global, buffer: &mut Buffer, source: &mut S) -> Got
    // What was answered of the bytes to come, where the source tells them, and of the bytes held over any source.
    ensures next { IfSome (prepend_known buffer.old (S.left source.old))
        (λ bytes. ReadsNext bytes (prepend_known buffer.new (S.left source.new)) buffer.new result) }
    ensures held { KeepsHeld buffer.old buffer.new result }

    // Nothing is read where the bytes held begin with a whole message or with a malformed place, and little is read
    // ahead.
    ensures ahead { (source.new ≡ source.old) ⊎ IsUnfinished buffer.old }
    ensures few { length buffer.new ≤ most_held }

    ensures later { S.failures source.old ≤ S.failures source.new }
    ensures fault { OnReadFault result (Rose (S.failures source.old) (S.failures source.new)) }
    ensures ended { OnEnd result (S.ended source.new ≡ true) }
{
    match next_request(alloc, buffer, source) {
        Ok(request) => Got::Request(request),
        Err(stop) => Got::from(stop),
    }
}

fn next_request<S: Source>(
    alloc: Global,
    buffer: &mut Buffer,
    source: &mut S,
) -> Result<Request, Stop>
    ensures ok { IfOk result (Takes buffer.old buffer.new (S.left source.old) (S.left source.new)) }
    ensures held { IfErr result (λ stop. TakesIn buffer.old buffer.new (S.left source.old) (S.left source.new)) }
    ensures err { IfErr result (Stops buffer.new (S.ended source.new) (S.left source.new)) }
    ensures ahead { (source.new ≡ source.old) ⊎ IsUnfinished buffer.old }
    ensures few { length buffer.new ≤ most_held }
    ensures later { S.failures source.old ≤ S.failures source.new }
    ensures fault { OnFault result (Rose (S.failures source.old) (S.failures source.new)) }
{
    match buffer.take_known(alloc)? {
        Some(request) => Ok(request),
        None => read_next(alloc, buffer, source),
    }
}

/// The next request, of which no head was noted.
fn read_next<S: Source>(alloc: Global, buffer: &mut Buffer, source: &mut S) -> Result<Request, Stop>
    ensures ok { IfOk result (Takes buffer.old buffer.new (S.left source.old) (S.left source.new)) }
    ensures held { IfErr result (λ stop. TakesIn buffer.old buffer.new (S.left source.old) (S.left source.new)) }
    ensures err { IfErr result (Stops buffer.new (S.ended source.new) (S.left source.new)) }
    ensures ahead { (source.new ≡ source.old) ⊎ IsUnfinished buffer.old }
    ensures few { length buffer.new ≤ most_held }
    ensures later { S.failures source.old ≤ S.failures source.new }
    ensures fault { OnFault result (Rose (S.failures source.old) (S.failures source.new)) }
{
    let len = await_head(buffer, source)?;
    let head = buffer.read_head(alloc, len)?;
    await_body(buffer, source, len + head.body)?;
    Ok(take_request(alloc, buffer, len, head)?)
}

/// Takes the request with this head, of `len` bytes, out of the buffer, which holds all of it.
fn take_request(
    alloc: Global,
    buffer: &mut Buffer,
    len: usize,
    head: Head,
) -> Result<Request, NoMemory>
    requires ends { head_len buffer.old ≡ Some len }
    requires says { Says (head_bytes len buffer.old) head }
    requires whole { len + head.body ≤ length buffer.old }
    ensures ok { IfOk result (λ m. IsMessage buffer.old m buffer.new) }
    ensures err { OnErr result (buffer.new ≡ buffer.old) }
    ensures few { length buffer.new ≤ most_held }
{
    buffer.note(len, &head)?;
    let held = buffer.view();
    let end = len + head.body;
    let body = Seq::of_bytes(alloc, &held[len..end])?;
    buffer.consume(end);
    Ok(Request {
        method: head.method,
        target: head.target,
        body,
        last: head.last,
        expects: head.expects,
        upgrade: head.upgrade,
        origin: head.origin,
        if_match: head.if_match,
    })
}

/// Reads until a whole head is held, and answers its length.
pub(crate) fn await_head<S: Source>(buffer: &mut Buffer, source: &mut S) -> Result<usize, Stop>
    ensures takes { TakesIn buffer.old buffer.new (S.left source.old) (S.left source.new) }
    ensures ok { IfOk result (λ len. head_len buffer.new ≡ Some len) }
    ensures within { IfOk result (λ len. len ≤ length buffer.new) }
    ensures short { IfOk result (λ len. len ≤ max_head) }
    ensures none { OnErr result (head_len buffer.new ≡ None) }
    ensures err { IfErr result (Stops buffer.new (S.ended source.new) (S.left source.new)) }
    ensures ahead { ((source.new ≡ source.old) × (buffer.new ≡ buffer.old)) ⊎ IsHeadAwaited buffer.old }
    ensures few { length buffer.new ≤ most_held }
    ensures later { S.failures source.old ≤ S.failures source.new }
    ensures fault { OnFault result (Rose (S.failures source.old) (S.failures source.new)) }
{
    let mut search = Search::Blank(0);
    loop {
        match head_in(buffer.view(), search) {
            Ok(len) => return Ok(len),
            Err(reached) => search = reached,
        }
        if buffer.view().len() >= MAX_HEAD {
            return Err(Stop::Malformed(HeadFault::H2));
        }
        if !read_more(buffer, source)? {
            return Err(stop_at_end(buffer.view()));
        }
    }
}

/// Reads once, and answers whether bytes came.
fn read_more<S: Source>(buffer: &mut Buffer, source: &mut S) -> Result<bool, Stop>
    requires { length buffer.old < max_head + max_body }
    ensures takes { TakesIn buffer.old buffer.new (S.left source.old) (S.left source.new) }
    ensures more { IfOk result (λ came. came ≡ true → length buffer.old < length buffer.new) }
    ensures over { IfOk result (λ came. came ≡ false → IsOver (S.ended source.new) (S.left source.new)) }
    ensures none { IfOk result (λ came. came ≡ false → buffer.new ≡ buffer.old) }
    ensures err { IfErr result (λ stop. IsReadStop stop × (buffer.new ≡ buffer.old)) }
    ensures few { length buffer.new ≤ most_held }
    ensures later { S.failures source.old ≤ S.failures source.new }
    ensures fault { OnFault result (Rose (S.failures source.old) (S.failures source.new)) }
{
    match buffer.fill(source) {
        Ok(count) => Ok(count > 0),
        Err(fault) => Err(Stop::from(fault)),
    }
}

/// Goes on with the search for the end of a head in the bytes in which it must end.
#[tactic(auto, unfolding(http_heads::specs::Heads::head_len))]
fn head_in(bytes: &[u8], search: Search) -> Result<usize, Search>
    requires { HasSearched search (take max_head bytes.now) }
    ensures ok { IfOk result (λ len. head_len bytes.now ≡ Some len) }
    ensures within { IfOk result (λ len. len ≤ length bytes.now) }
    ensures few { IfOk result (λ len. len ≤ max_head) }
    ensures none { IfErr result (λ reached. head_len bytes.now ≡ None) }
    ensures reached { IfErr result (λ reached. HasSearched reached (take max_head bytes.now)) }
{
    end_of_head(front_of(bytes), search)
}

/// The bytes in which a head must end.
fn front_of(bytes: &[u8]) -> &[u8]
    ensures { result.now ≡ take max_head bytes.now }
{
    &bytes[..bytes.len().min(MAX_HEAD)]
}

/// What the end of the source means where no head is whole.
fn stop_at_end(bytes: &[u8]) -> Stop
    requires none { head_len bytes.now ≡ None }
    requires short { length bytes.now < max_head }
    ensures { EndsWith bytes.now result }
{
    if leading_line_bytes(bytes) == bytes.len() {
        Stop::End
    } else {
        Stop::Cut(bytes.len() as u64)
    }
}

/// Reads until the bytes before `end` are held.
fn await_body<S: Source>(buffer: &mut Buffer, source: &mut S, end: usize) -> Result<(), Stop>
    requires { end ≤ max_head + max_body }
    ensures takes { TakesIn buffer.old buffer.new (S.left source.old) (S.left source.new) }
    ensures ok { OnOk result (end ≤ length buffer.new) }
    ensures err { IfErr result (StopsBefore end buffer.new (S.ended source.new) (S.left source.new)) }
    ensures ahead { (source.new ≡ source.old) ⊎ (length buffer.old < end) }
    ensures few { length buffer.new ≤ most_held }
    ensures later { S.failures source.old ≤ S.failures source.new }
    ensures fault { OnFault result (Rose (S.failures source.old) (S.failures source.new)) }
{
    while buffer.view().len() < end {
        if !read_more(buffer, source)? {
            return Err(Stop::Cut(buffer.view().len() as u64));
        }
    }
    Ok(())
}
