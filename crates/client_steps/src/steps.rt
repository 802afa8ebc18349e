//! What follows on a reply.
ghost use Rattle.std.specs.Prelude.{◌≡◌, drop, IfOk, length, option_map};
ghost use Rattle.serde_json.specs.View.{view};
ghost use Rattle.client_replies.specs.Forms.{told};
ghost use Rattle.client_steps.specs.Legs.{first_request, legs_of};
ghost use Rattle.client_steps.specs.Rows.{rows_of};
ghost use Rattle.client_steps.specs.Steps.{after_begun, after_done, after_reply, failed, malformed, next_of, onward, told_rows};
ghost use Rattle.client_steps.specs.Steps.{StaysWithin};

use crate::legs::{Leg, legs_of};
use crate::lines::{error_line, text_of};
use crate::members::text_at;
use crate::requests::request_of;
use crate::rows::rows_of;
use client_replies::{Answer, Metadata};
use client_words::ClientWords;
use size_values::{NoMemory, Text};
use std::alloc::Global;

/// What follows on a reply: another request, or the end of the command, with what is printed and the status of the program:
/// 0 where all requests were answered and printed; 1 where a reply is an error, or an operation that an instance was waited
/// for did not succeed; and 3, with nothing printed, where a reply has no form that the reply to its request may have.
#[derive(Drop)]
pub enum Next {
    Send { request: Text },
    End { text: Text, status: u8 },
}

/// The bytes of the first request of a command.
pub fn first_request(alloc: Global, words: &ClientWords) -> Result<Text, NoMemory>
    ensures { IfOk result (λ request. request ≡ first_request words.now (legs_of words.now.asks)) }
{
    match legs_of(&words.asks) {
        [leg, ..] => request_of(alloc, words, *leg, ""),
        [] => Ok(Text::new(alloc)),
    }
}

/// Nothing is printed, since the reply has no form that it may have.
fn malformed(alloc: Global) -> Next
    ensures { result ≡ malformed }
{
    Next::End {
        text: Text::new(alloc),
        status: 3,
    }
}

/// Something went wrong: this is said of it, and these parts are kept.
fn failed(alloc: Global, text: &str, kept: Option<&Metadata>) -> Result<Next, NoMemory>
    ensures { IfOk result (λ next. next ≡ failed text.now (option_map (λ m. view m.now) kept.entry)) }
{
    let text = error_line(alloc, text, kept)?;
    Ok(Next::End { text, status: 1 })
}

/// All requests were answered well: the rows are printed.
fn told_rows(alloc: Global, words: &ClientWords, body: &Metadata) -> Result<Next, NoMemory>
    ensures { IfOk result (λ next. next
        ≡ told_rows words.now (view body.now) (rows_of words.now.asks (view body.now))) }
{
    let Some(rows) = rows_of(alloc, &words.asks, body.value())? else {
        return Ok(malformed(alloc));
    };
    let text = text_of(alloc, words.format, &words.asks, rows.view(), body);
    drop(rows);
    Ok(Next::End {
        text: text?,
        status: 0,
    })
}

/// The next request, or the end of the command.
fn onward(
    alloc: Global,
    words: &ClientWords,
    legs: &[Leg],
    operation: &str,
    body: &Metadata,
) -> Result<Next, NoMemory>
    ensures { IfOk result (λ next. next ≡ onward words.now legs.now operation.now (view body.now)) }
{
    match legs {
        [leg, ..] => {
            let request = request_of(alloc, words, *leg, operation)?;
            Ok(Next::Send { request })
        }
        [] => told_rows(alloc, words, body),
    }
}

/// The operation that was waited for has ended, or is live.
fn after_end(
    alloc: Global,
    words: &ClientWords,
    legs: &[Leg],
    body: &Metadata,
) -> Result<Next, NoMemory>
    ensures { IfOk result (λ next. next ≡ after_done words.now Leg.Await legs.now (view body.now)) }
{
    let value = body.value();
    match (text_at("status", value), text_at("err", value)) {
        (Some(status), Some(error)) => {
            if status == "Success" {
                onward(alloc, words, legs, "", body)
            } else {
                failed(alloc, error, None)
            }
        }
        _ => Ok(malformed(alloc)),
    }
}

/// The request was carried out.
fn after_done(
    alloc: Global,
    words: &ClientWords,
    leg: Leg,
    legs: &[Leg],
    body: &Metadata,
) -> Result<Next, NoMemory>
    ensures { IfOk result (λ next. next ≡ after_done words.now leg legs.now (view body.now)) }
{
    match leg {
        Leg::List | Leg::Wait | Leg::Cancel | Leg::Limits => onward(alloc, words, legs, "", body),
        Leg::Await => after_end(alloc, words, legs, body),
        Leg::Create | Leg::Start | Leg::Stop | Leg::Delete => Ok(malformed(alloc)),
    }
}

/// An operation was begun.
fn after_begun(
    alloc: Global,
    words: &ClientWords,
    leg: Leg,
    legs: &[Leg],
    operation: &str,
    body: &Metadata,
) -> Result<Next, NoMemory>
    ensures { IfOk result (λ next. next ≡ after_begun words.now leg legs.now operation.now (view body.now)) }
{
    match leg {
        Leg::Create | Leg::Start | Leg::Stop | Leg::Delete => {
            onward(alloc, words, legs, operation, body)
        }
        Leg::List | Leg::Await | Leg::Wait | Leg::Cancel | Leg::Limits => Ok(malformed(alloc)),
    }
}

/// What follows on the reply to a leg, before the others that are left.
fn after_reply(
    alloc: Global,
    words: &ClientWords,
    leg: Leg,
    legs: &[Leg],
    answer: &Answer,
) -> Result<Next, NoMemory>
    ensures { IfOk result (λ next. next ≡ after_reply words.now leg legs.now (told answer.now)) }
{
    match answer {
        Answer::Sync { metadata } => after_done(alloc, words, leg, legs, metadata),
        Answer::Async {
            operation,
            metadata,
        } => after_begun(alloc, words, leg, legs, operation.view(), metadata),
        Answer::Error { text, metadata, .. } => failed(alloc, text.view(), metadata.as_ref()),
    }
}

/// What follows on the reply to the request of this number, counted from 0 on, to which the replies before it led. Where a
/// command has no such request, a reply to it is malformed.
pub fn next_step(
    alloc: Global,
    words: &ClientWords,
    answered: usize,
    answer: &Answer,
) -> Result<Next, NoMemory>
    ensures says { IfOk result (λ next. next
        ≡ next_of words.now (drop answered (legs_of words.now.asks)) (told answer.now)) }
    ensures within { IfOk result (StaysWithin (length (legs_of words.now.asks)) answered) }
{
    let legs = legs_of(&words.asks);
    if answered >= legs.len() {
        return Ok(malformed(alloc));
    }
    after_reply(alloc, words, legs[answered], &legs[answered + 1..], answer)
}
