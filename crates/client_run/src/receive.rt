//! The next reply that a link gives.
ghost use Rattle.std.specs.Prelude.{◌≡◌, ◌<◌, ◌≤◌, length, IfOk, IfErr, true, false};
ghost use Rattle.size_values.specs.Causes.{Rose};
ghost use Rattle.http_front.specs.Held.{TakesIn, IsOver};
ghost use Rattle.client_replies.specs.Forms.{told};
ghost use Rattle.client_run.specs.Receiving.{TakesReply, StopsAt, IsReadStop, OnLinkFailed, read_stop};

use crate::inbox::Inbox;
use client_replies::{Answer, Reading, read_reply};
use http_front::{Source, SourceFailed};
use size_values::{NoMemory, Or};
use std::alloc::Global;

/// Why a command goes on no further.
#[derive(Clone, Copy)]
pub(crate) enum Stop {
    /// What the link gave is no reply, or it has ended before a reply was whole.
    Malformed,
    /// The link failed.
    LinkFailed,
    NoMemory,
}

impl From<NoMemory> for Stop {
    ghost use Rattle.client_run.specs.declared.receive.Stop.TheVariants.{NoMemory as no_memory};

    ghost from_gives = { λ _ s. s ≡ no_memory };

    fn from(_: NoMemory) -> Self {
        Stop::NoMemory
    }
}

impl From<Or<SourceFailed>> for Stop {
    ghost from_gives = { λ e s. s ≡ read_stop e };

    fn from(fault: Or<SourceFailed>) -> Self {
        match fault {
            Or::NoMemory => Stop::NoMemory,
            Or::Why(SourceFailed) => Stop::LinkFailed,
        }
    }
}

/// Reads until a reply is whole, takes it, and answers what it tells.
pub(crate) fn next_reply<S: Source>(
    alloc: Global,
    inbox: &mut Inbox,
    source: &mut S,
) -> Result<Answer, Stop>
    ensures ok { IfOk result (λ answer.
        TakesReply inbox.old inbox.new (S.left source.old) (S.left source.new) (told answer)) }
    ensures held { IfErr result
        (λ stop. TakesIn inbox.old inbox.new (S.left source.old) (S.left source.new)) }
    ensures err { IfErr result (StopsAt inbox.new (S.ended source.new) (S.left source.new)) }
    ensures later { S.failures source.old ≤ S.failures source.new }
    ensures fault { OnLinkFailed result (Rose (S.failures source.old) (S.failures source.new)) }
{
    loop {
        match read_reply(alloc, inbox.view())? {
            Reading::Whole { answer, length } => {
                inbox.consume(length);
                return Ok(answer);
            }
            Reading::Malformed => return Err(Stop::Malformed),
            Reading::Incomplete => {}
        }
        if !read_more(inbox, source)? {
            return Err(Stop::Malformed);
        }
    }
}

/// Reads once, and answers whether bytes came.
fn read_more<S: Source>(inbox: &mut Inbox, source: &mut S) -> Result<bool, Stop>
    ensures takes { TakesIn inbox.old inbox.new (S.left source.old) (S.left source.new) }
    ensures more { IfOk result (λ came. came ≡ true → length inbox.old < length inbox.new) }
    ensures over { IfOk result (λ came. came ≡ false → IsOver (S.ended source.new) (S.left source.new)) }
    ensures none { IfOk result (λ came. came ≡ false → inbox.new ≡ inbox.old) }
    ensures err { IfErr result (λ stop. IsReadStop stop × (inbox.new ≡ inbox.old)) }
    ensures later { S.failures source.old ≤ S.failures source.new }
    ensures fault { OnLinkFailed result (Rose (S.failures source.old) (S.failures source.new)) }
{
    match inbox.fill(source) {
        Ok(count) => Ok(count > 0),
        Err(fault) => Err(Stop::from(fault)),
    }
}
