//! The requests of a command and their replies, one after the other.
ghost use Rattle.std.specs.Prelude.{◌≡◌, ◌≤◌, ◌⊎◌, drop, length, IfOk, IfErr};
ghost use Rattle.size_values.specs.Causes.{Rose};
ghost use Rattle.client_replies.specs.Forms.{told};
ghost use Rattle.client_steps.specs.Legs.{legs_of};
ghost use Rattle.client_steps.specs.Steps.{StaysWithin, next_of};
ghost use Rattle.client_run.specs.Receiving.{OnLinkFailed};
ghost use Rattle.client_run.specs.Talks.{Answered, Halts, SendsSome, Talked};
ghost use Rattle.std.specs.Io.KnownBytes.{Appends};

use crate::inbox::Inbox;
use crate::receive::{Stop, next_reply};
use client_replies::Answer;
use client_steps::{Next, first_request, next_step};
use client_words::ClientWords;
use http_front::{Sink, Source};
use size_values::{NoMemory, Text};
use std::alloc::Global;

/// How a command ends: what is printed, and the status.
#[derive(Drop)]
pub(crate) struct Ending {
    pub(crate) text: Text,
    pub(crate) status: u8,
}

/// Sends a request.
fn send<K: Sink>(request: &Text, sink: &mut K) -> Result<(), Stop>
    ensures ok { IfOk result (λ _. Appends (K.held sink.old) (K.held sink.new) request.now) }
    ensures err { IfErr result (λ stop. (stop ≡ Stop.LinkFailed) × SendsSome (K.held sink.old) (K.held sink.new) request.now) }
    ensures later { K.failures sink.old ≤ K.failures sink.new }
    ensures fault { OnLinkFailed result (Rose (K.failures sink.old) (K.failures sink.new)) }
{
    match sink.write(request.view().as_bytes()) {
        Ok(()) => Ok(()),
        Err(_) => Err(Stop::LinkFailed),
    }
}

/// Sends the request of this number, reads the reply to it, and answers what follows on that.
fn take_turn<S: Source, K: Sink>(
    alloc: Global,
    words: &ClientWords,
    answered: usize,
    request: &Text,
    inbox: &mut Inbox,
    source: &mut S,
    sink: &mut K,
) -> Result<Next, Stop>
    ensures ok { IfOk result (Answered (drop answered (legs_of words.now.asks)) words.now request.now inbox.old inbox.new
        (S.left source.old) (S.left source.new) (K.held sink.old) (K.held sink.new)) }
    ensures within { IfOk result (StaysWithin (length (legs_of words.now.asks)) answered) }
    ensures err { IfErr result (Halts request.now inbox.old inbox.new (S.left source.old) (S.left source.new)
        (S.ended source.new) (K.held sink.old) (K.held sink.new)) }
    ensures source_later { S.failures source.old ≤ S.failures source.new }
    ensures sink_later { K.failures sink.old ≤ K.failures sink.new }
    ensures fault { OnLinkFailed result (Rose (S.failures source.old) (S.failures source.new)
        ⊎ Rose (K.failures sink.old) (K.failures sink.new)) }
{
    send(request, sink)?;
    let answer = next_reply(alloc, inbox, source)?;
    follow(alloc, words, answered, answer)
}

/// What follows on the reply to the request of this number.
fn follow(alloc: Global, words: &ClientWords, answered: usize, answer: Answer) -> Result<Next, Stop>
    ensures ok { IfOk result (λ next. next ≡ next_of words.now (drop answered (legs_of words.now.asks)) (told answer)) }
    ensures within { IfOk result (StaysWithin (length (legs_of words.now.asks)) answered) }
    ensures err { IfErr result (λ stop. stop ≡ Stop.NoMemory) }
{
    match next_step(alloc, words, answered, &answer) {
        Ok(next) => Ok(next),
        Err(NoMemory) => Err(Stop::NoMemory),
    }
}

/// Sends the requests of a command, each once the reply to the one before it was read, and answers how it ends.
pub(crate) fn converse<S: Source, K: Sink>(
    alloc: Global,
    words: &ClientWords,
    source: &mut S,
    sink: &mut K,
) -> Result<Ending, Stop>
    ensures talk { Talked words.now (S.left source.old) (S.left source.new) (S.ended source.new) (K.held sink.old)
        (K.held sink.new) result }
    ensures source_later { S.failures source.old ≤ S.failures source.new }
    ensures sink_later { K.failures sink.old ≤ K.failures sink.new }
    ensures fault { OnLinkFailed result (Rose (S.failures source.old) (S.failures source.new)
        ⊎ Rose (K.failures sink.old) (K.failures sink.new)) }
{
    let mut inbox = Inbox::new(alloc)?;
    let mut request = first_request(alloc, words)?;
    let mut answered = 0usize;
    loop {
        match take_turn(alloc, words, answered, &request, &mut inbox, source, sink)? {
            Next::Send { request: following } => {
                request = following;
                answered += 1;
            }
            Next::End { text, status } => return Ok(Ending { text, status }),
        }
    }
}
