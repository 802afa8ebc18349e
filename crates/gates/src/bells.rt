//! Which bells ring after a turn of the server.
ghost use Rattle.std.specs.Prelude.{◌≡◌};
ghost use Rattle.turnstile.specs.Bells.{no_rings};
ghost use Rattle.gates.specs.Bells.{purpose_of, purpose_of_command, rings_of, rings_of_reply};
ghost use Rattle.gates.specs.declared.bells.Purpose.TheVariants as purpose_is;

use records::{Reply, What};
use row_machine::{Answer, Event};
use turnstile::Rings;

/// What a turn is for, as far as bells go.
#[derive(Clone, Copy)]
pub(crate) enum Purpose {
    /// A client cancels an operation.
    Cancel,
    /// A client asks for another command.
    Command,
    /// A worker asks for a call.
    Call,
    /// A worker reports of its call.
    Report,
    /// No more work is to come.
    Close,
    /// One who waits looks at an operation, or a listener asks for events.
    Look,
}

/// No bell rings.
const QUIET: Rings = Rings {
    events: false,
    ends: false,
    calls: false,
};

/// Listeners may be told of something.
const TELLS: Rings = Rings {
    events: true,
    ends: false,
    calls: false,
};

/// An operation may have ended.
const ENDS: Rings = Rings {
    events: true,
    ends: true,
    calls: false,
};

/// The first call of an operation waits.
const BEGINS: Rings = Rings {
    events: true,
    ends: false,
    calls: true,
};

/// No more calls come.
const CLOSES: Rings = Rings {
    events: false,
    ends: false,
    calls: true,
};

fn purpose_of_command(what: &What) -> Purpose
    ensures { result ≡ purpose_of_command what.now }
{
    match what {
        What::Cancel { .. } => Purpose::Cancel,
        _ => Purpose::Command,
    }
}

/// What an event is for.
pub(crate) fn purpose_of(event: &Event) -> Purpose
    ensures { result ≡ purpose_of event.now }
{
    match event {
        Event::Ask(command, _) => purpose_of_command(&command.what),
        Event::Take(_) => Purpose::Call,
        Event::Done(_, _, _) => Purpose::Report,
        Event::Close => Purpose::Close,
        Event::Look(_) | Event::Fetch(_, _) => Purpose::Look,
    }
}

fn after_reply(reply: &Reply) -> Rings
    ensures { result ≡ rings_of_reply reply.now }
{
    match reply {
        Reply::Empty => TELLS,
        Reply::Started(_) => BEGINS,
        _ => QUIET,
    }
}

fn after_cancelling(reply: &Reply) -> Rings
    ensures { result ≡ rings_of purpose_is.Cancel (Answer.Reply reply.now) }
{
    match reply {
        Reply::Empty => ENDS,
        _ => QUIET,
    }
}

fn after_call(answer: &Answer) -> Rings
    ensures { result ≡ rings_of purpose_is.Call answer.now }
{
    match answer {
        Answer::Job(_, _) => TELLS,
        _ => QUIET,
    }
}

fn after_report(answer: &Answer) -> Rings
    ensures { result ≡ rings_of purpose_is.Report answer.now }
{
    match answer {
        Answer::Ended(_) => ENDS,
        _ => QUIET,
    }
}

fn after_cancel(answer: &Answer) -> Rings
    ensures { result ≡ rings_of purpose_is.Cancel answer.now }
{
    match answer {
        Answer::Reply(reply) => after_cancelling(reply),
        _ => QUIET,
    }
}

fn after_command(answer: &Answer) -> Rings
    ensures { result ≡ rings_of purpose_is.Command answer.now }
{
    match answer {
        Answer::Reply(reply) => after_reply(reply),
        _ => QUIET,
    }
}

/// The bells that ring after an answer to a turn for this purpose: those of all who wait for what the turn may have
/// brought about. A read rings none.
pub(crate) fn rings_of(purpose: Purpose, answer: &Answer) -> Rings
    ensures { result ≡ rings_of purpose answer.now }
{
    match purpose {
        Purpose::Cancel => after_cancel(answer),
        Purpose::Command => after_command(answer),
        Purpose::Call => after_call(answer),
        Purpose::Report => after_report(answer),
        Purpose::Close => CLOSES,
        Purpose::Look => QUIET,
    }
}
