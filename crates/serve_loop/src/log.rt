//! What is told of requests and of background operations to a person.
ghost use Rattle.std.specs.Prelude.{◌≡◌, ◌≤◌};
ghost use Rattle.gates.specs.rest_answers.specs.Texts.{rule_of};

use gates::Written;
use host_model::Report;
use http_front::{HeadFault, Request};
use records::{Reply, Rule};
use rest_answers::{PrintedReply, no_memory_text, print_malformed};
use row_machine::Answer;
use size_values::NoMemory;
use std::alloc::Global;

/// What is told of requests and of background operations to a person. Nothing that is served depends on it.
pub trait Log {
    /// All of a request has come, or what stands in the place of one. How it is answered is told next.
    fn came(&mut self);

    /// A request was answered with this code of HTTP, or its reply was not written whole; and it broke this rule, if
    /// any. There is no request where none can begin.
    fn answered(&mut self, request: Option<&Request>, code: Option<u16>, rule: Option<Rule>);

    /// The operation of this number ended when this was reported of its last call.
    fn ended(&mut self, number: u64, report: Report);
}

/// It tells nothing.
#[derive(Clone, Copy)]
pub struct NoLog;

impl Log for NoLog {
    fn came(&mut self) {}

    fn answered(&mut self, _request: Option<&Request>, _code: Option<u16>, _rule: Option<Rule>) {}

    fn ended(&mut self, _number: u64, _report: Report) {}
}

/// The code that accepts a WebSocket handshake.
const SWITCHING: u16 = 101;

/// The rule by which a request was refused.
pub(crate) fn rule_in(reply: &Reply) -> Option<Rule> {
    match reply {
        Reply::Refused(refusal) => Some(refusal.rule),
        Reply::NoMemory => Some(Rule::M1),
        _ => None,
    }
}

/// The rule that a fault breaks.
fn rule_of(fault: HeadFault) -> Rule
    ensures { result ≡ rule_of fault }
{
    match fault {
        HeadFault::H1 => Rule::H1,
        HeadFault::H2 => Rule::H2,
        HeadFault::H3 => Rule::H3,
        HeadFault::H4 => Rule::H4,
        HeadFault::H5 => Rule::H5,
    }
}

/// A digit as its number.
fn digit(byte: u8) -> u16
    ensures { result ≤ 255 }
{
    u16::from(byte.saturating_sub(b'0'))
}

/// The code of a reply, which stands in its text behind `HTTP/1.1 ` (RFC 9112, section 4).
fn code_in(text: &[u8]) -> Option<u16> {
    match text {
        [_, _, _, _, _, _, _, _, _, first, second, third, ..] => {
            Some(digit(*first) * 100 + digit(*second) * 10 + digit(*third))
        }
        _ => None,
    }
}

/// The code of what was written for a request, where all of it was.
pub(crate) fn code_of(answered: &PrintedReply, request: &Request, written: Written) -> Option<u16> {
    if written != Written::Whole {
        return None;
    }
    match answered {
        PrintedReply::Printed(text) => code_in(text.view()),
        PrintedReply::NoMemory => code_in(no_memory_text(request)),
        PrintedReply::Unprinted => None,
    }
}

/// The code by which a fault is answered.
fn code_at(alloc: Global, fault: HeadFault) -> Option<u16> {
    match print_malformed(alloc, fault) {
        Ok(text) => {
            let code = code_in(text.view());
            drop(text);
            code
        }
        Err(NoMemory) => None,
    }
}

/// Tells of a request that subscribes to events.
pub(crate) fn tell_subscribed<O: Log>(log: &mut O, request: &Request) {
    log.answered(Some(request), Some(SWITCHING), None);
}

/// Tells how a fault was answered: that of a request, or of a place in which none can begin.
pub(crate) fn tell_fault<O: Log>(
    alloc: Global,
    log: &mut O,
    request: Option<&Request>,
    fault: HeadFault,
    written: Written,
) {
    let code = if written == Written::Whole {
        code_at(alloc, fault)
    } else {
        None
    };
    log.answered(request, code, Some(rule_of(fault)));
}

/// Tells of an operation where it ended with this report.
pub(crate) fn tell_end<O: Log>(log: &mut O, answer: &Answer, report: Report) {
    if let Answer::Ended(number) = answer {
        log.ended(*number, report);
    }
}
