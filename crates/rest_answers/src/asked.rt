//! What a command is answered.
ghost use Rattle.std.specs.Prelude.{◌≡◌};
ghost use Rattle.core_turns.specs.core_rows.specs.Asked.{answered};
ghost use Rattle.rest_answers.specs.Asked.{answer_of, IsAtOnce, IsForClient};

use records::Reply;
use row_machine::Answer;

/// What a command is answered at first.
#[derive(Drop)]
pub enum ReplyOrWait {
    Reply(Reply),
    /// It waits for this operation, which is live.
    Hold(u64),
}

/// What the answer of a command says.
pub fn reply_or_wait_of(answer: Answer) -> ReplyOrWait
    requires { IsForClient answer }
    ensures { answer_of result ≡ answer }
{
    match answer {
        Answer::Reply(reply) => ReplyOrWait::Reply(reply),
        Answer::Hold(number) => ReplyOrWait::Hold(number),
        Answer::NoMemory => ReplyOrWait::Reply(Reply::NoMemory),
        _ => unreachable!(),
    }
}

/// The reply of a command whose answer is not held back.
pub fn reply_of(answer: Answer) -> Reply
    requires { IsAtOnce answer }
    ensures { answered result ≡ answer }
{
    match answer {
        Answer::Reply(reply) => reply,
        Answer::NoMemory => Reply::NoMemory,
        _ => unreachable!(),
    }
}
