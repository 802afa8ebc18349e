//! Writing what was printed.
ghost use Rattle.std.specs.Prelude.{◌≡◌};
ghost use Rattle.rest_answers.specs.Links.{outlet};
ghost use Rattle.rest_answers.specs.Writing.{RefusesPlace, WritesAnswer, written_by};

use crate::answers::{PrintedReply, no_memory_text, print_malformed};
use http_front::{HeadFault, Request, Sink, SinkFailed};
use size_values::NoMemory;
use std::alloc::Global;

/// How the writing of a reply ended.
#[derive(Clone, Copy, PartialEq, Eq)]
pub enum Written {
    Whole,
    /// The sink failed, and may have taken some of the first bytes.
    WriteFault,
    /// Memory for the text of the reply was refused, and nothing was written.
    NoMemory,
}

fn written_by(came: Result<(), SinkFailed>) -> Written
    ensures { result ≡ written_by came }
{
    match came {
        Ok(()) => Written::Whole,
        Err(SinkFailed) => Written::WriteFault,
    }
}

/// Writes what a request is answered.
pub fn write_answer<K: Sink>(sink: &mut K, answered: &PrintedReply, request: &Request) -> Written
    ensures { WritesAnswer result answered.now request.now (outlet K.held K.failures sink.old)
        (outlet K.held K.failures sink.new) }
{
    match answered {
        PrintedReply::Printed(bytes) => written_by(sink.write(bytes.view())),
        PrintedReply::NoMemory => written_by(sink.write(no_memory_text(request))),
        PrintedReply::Unprinted => Written::NoMemory,
    }
}

/// Answers a place in which no request can begin by its rule. The connection ends after it.
pub fn write_refusal<K: Sink>(alloc: Global, sink: &mut K, fault: HeadFault) -> Written
    ensures { RefusesPlace fault result (outlet K.held K.failures sink.old)
        (outlet K.held K.failures sink.new) }
{
    match print_malformed(alloc, fault) {
        Ok(bytes) => {
            let written = written_by(sink.write(bytes.view()));
            drop(bytes);
            written
        }
        Err(NoMemory) => Written::NoMemory,
    }
}
