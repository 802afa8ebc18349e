ghost use Rattle.std.specs.Prelude.{◌≡◌, ℕ, ◌<◌, ◌≤◌, List, Some, None, length, slice_index, IfOk, IfErr, IfSome};
ghost use Rattle.std.specs.Prelude.{IfNone, false};
ghost use Rattle.http_heads.specs.Heads.{is_line_byte, blank_len, head_end};
ghost use Rattle.http_heads.specs.Search.{FindsSame, GoesOn, HasSearched, Follows, StandsAt};

use memchr::memchr;

/// How far the search for the end of a head has come.
#[derive(Clone, Copy)]
pub enum Search {
    /// The first bytes, this many, are CR and LF.
    Blank(usize),
    /// The head has begun, and no empty line begins before this place.
    Lines(usize),
}

/// What follows an LF: a line end of so many bytes, something else, or too little to tell.
#[derive(Clone, Copy)]
enum After {
    LineEnd(usize),
    Other,
    Open,
}

/// Goes on with a search in bytes of which the first were searched before, and answers the length of the head or
/// how far the search has come.
pub fn end_of_head(bytes: &[u8], search: Search) -> Result<usize, Search>
    requires { HasSearched search bytes.now }
    ensures found { IfOk result (λ len. head_end bytes.now ≡ Some len) }
    ensures within { IfOk result (λ len. len ≤ length bytes.now) }
    ensures none { IfErr result (λ reached. head_end bytes.now ≡ None) }
    ensures reached { IfErr result (λ reached. HasSearched reached bytes.now) }
{
    match search {
        Search::Blank(from) => end_after_blank(bytes, from),
        Search::Lines(from) => end_in_lines(bytes, from),
    }
}

fn end_after_blank(bytes: &[u8], from: usize) -> Result<usize, Search>
    requires { from ≤ length bytes.now }
    ensures { GoesOn bytes.now (Search.Blank from) result }
{
    let begins = blank_end(bytes, from);
    if begins == bytes.len() {
        return Err(Search::Blank(begins));
    }
    end_in_lines(bytes, begins)
}

fn blank_end(bytes: &[u8], from: usize) -> usize
    requires { from ≤ length bytes.now }
    ensures low { from ≤ result }
    ensures within { result ≤ length bytes.now }
    ensures same { FindsSame (Search.Blank from) (Search.Blank result) bytes.now }
    ensures stops { result < length bytes.now → is_line_byte (slice_index bytes.now result) ≡ false }
{
    for at in from..bytes.len() {
        if !is_line_byte(bytes[at]) {
            return at;
        }
    }
    bytes.len()
}

fn end_in_lines(bytes: &[u8], from: usize) -> Result<usize, Search>
    requires { from ≤ length bytes.now }
    ensures { GoesOn bytes.now (Search.Lines from) result }
{
    let mut next = from;
    while let Some(at) = line_feed_from(bytes, next) {
        match after_line_feed(bytes, at) {
            After::LineEnd(len) => return Ok(at + 1 + len),
            After::Open => return Err(Search::Lines(at)),
            After::Other => next = at + 1,
        }
    }
    Err(Search::Lines(bytes.len()))
}

/// The place of the first LF from here on: no empty line begins before it.
fn line_feed_from(bytes: &[u8], from: usize) -> Option<usize>
    requires { from ≤ length bytes.now }
    ensures low { IfSome result (λ at. from ≤ at) }
    ensures within { IfSome result (λ at. at < length bytes.now) }
    ensures is { IfSome result (λ at. slice_index bytes.now at ≡ 10) }
    ensures same { IfSome result (λ at. FindsSame (Search.Lines from) (Search.Lines at) bytes.now) }
    ensures none { IfNone result (FindsSame (Search.Lines from) (Search.Lines (length bytes.now)) bytes.now) }
{
    match memchr(b'\n', &bytes[from..]) {
        Some(count) => Some(from + count),
        None => None,
    }
}

/// What stands at the place of an LF: it and a line end after it, or no such thing.
fn after_line_feed(bytes: &[u8], at: usize) -> After
    requires within { at < length bytes.now }
    requires is { slice_index bytes.now at ≡ 10 }
    ensures { StandsAt bytes.now at result }
{
    line_end(&bytes[at + 1..])
}

fn line_end(bytes: &[u8]) -> After
    ensures { Follows bytes.now result }
{
    match bytes {
        [b'\n', ..] => After::LineEnd(1),
        [b'\r', b'\n', ..] => After::LineEnd(2),
        [] | [b'\r'] => After::Open,
        _ => After::Other,
    }
}

fn is_line_byte(byte: u8) -> bool
    ensures { result ≡ is_line_byte byte }
{
    byte == b'\r' || byte == b'\n'
}

/// How many CR and LF bytes the text begins with.
pub fn leading_line_bytes(bytes: &[u8]) -> usize
    ensures count { result ≡ blank_len bytes.now }
    ensures within { result ≤ length bytes.now }
{
    for (at, byte) in bytes.iter().enumerate() {
        if !is_line_byte(*byte) {
            return at;
        }
    }
    bytes.len()
}
