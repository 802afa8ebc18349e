ghost use Rattle.std.specs.Prelude.{◌≤◌, length, IfOk};
ghost use Rattle.client_replies.specs.Replies.{IsReading};
ghost use Rattle.client_replies.specs.Heads.{EndsWithin, IsFront};

use crate::answer::Answer;
use crate::forms::answer_in;
use crate::head::{Front, read_head};
use size_values::NoMemory;
use std::alloc::Global;

/// What the bytes behind the earlier replies are.
#[derive(Drop)]
pub enum Reading {
    /// A reply has begun, or nothing stands here: more bytes may make it whole.
    Incomplete,
    /// No reply begins here, whatever follows.
    Malformed,
    /// A whole reply: what it tells, and how many bytes its head and its body have.
    Whole { answer: Answer, length: usize },
}

/// Reads the first reply of the bytes: a head of HTTP/1.1 (RFC 9112, sections 4 and 5) of at most 16,384 bytes, with
/// exactly one Content-Length, of at most 67,108,864, and no Transfer-Encoding; and a body of that length, which is a
/// JSON object in one of the forms of the REST API. A head is judged once it is whole, and so is a body.
pub fn read_reply(alloc: Global, bytes: &[u8]) -> Result<Reading, NoMemory>
    ensures reading { IfOk result (IsReading bytes.now) }
    ensures within { IfOk result (EndsWithin (length bytes.now)) }
{
    match read_head(alloc, bytes)? {
        Front::Open => Ok(Reading::Incomplete),
        Front::Wrong => Ok(Reading::Malformed),
        Front::Head { code, len, body } => read_body(alloc, bytes, code, len, body),
    }
}

/// Reads the body behind a head of these parts.
fn read_body(
    alloc: Global,
    bytes: &[u8],
    code: u16,
    len: usize,
    body: usize,
) -> Result<Reading, NoMemory>
    requires head { IsFront bytes.now (Front.Head code len body) }
    requires within { len ≤ length bytes.now }
    ensures reading { IfOk result (IsReading bytes.now) }
    ensures within { IfOk result (EndsWithin (length bytes.now)) }
{
    let rest = &bytes[len..];
    if rest.len() < body {
        return Ok(Reading::Incomplete);
    }
    match answer_in(alloc, code, &rest[..body])? {
        Some(answer) => Ok(Reading::Whole {
            answer,
            length: len + body,
        }),
        None => Ok(Reading::Malformed),
    }
}
