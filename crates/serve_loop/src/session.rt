//! An event session from its handshake to its end.
ghost use Rattle.std.specs.Prelude.{[]};
ghost use Rattle.gates.specs.Gates.{seen};
ghost use Rattle.gates.specs.rest_answers.specs.Links.{outlet};
ghost use Rattle.serve_loop.specs.Listening.{Leaves, event_world};
ghost use Rattle.serve_loop.specs.Sessions.{Session, after_fetched, fetched_text};
ghost use Rattle.serve_loop.specs.Sources.{feed};

use crate::frames::send_head;
use crate::listening::{ListenState, ask, listen, on_events};
use gates::{Gate, Written};
use http_front::{Sink, Source};
use records::Filter;
use rest_json::Terms;
use row_machine::Fetched;
use size_values::NoMemory;
use std::alloc::Global;
use std::sync::Wait;

/// How an event session ends.
#[derive(Clone, Copy, PartialEq, Eq)]
pub enum SessionEnd {
    /// The listener asked for the event of the number `cursor`, and `oldest` is the first one that
    /// is still kept. It was told so by a close frame with the code 1008.
    Lagged { cursor: u64, oldest: u64 },
    /// The client closed, or it sent what is no frame that a session takes. It was answered by a close frame with this
    /// code, or without one.
    Closed(Option<u16>),
    /// The source has ended: the client is gone, or the server stops. The client was told by a close frame with the
    /// code 1001.
    Ended,
    /// A read failed.
    ReadFault,
    /// A write failed.
    WriteFault,
    /// Memory was refused.
    NoMemory,
}

/// A session from its first answer on, once its handshake was accepted.
fn go_on_from<T: Wait, G: Gate, S: Source, K: Sink>(
    rt: &T,
    alloc: Global,
    gate: &mut G,
    source: &mut S,
    sink: &mut K,
    fetched: Fetched,
    filter: &Filter,
    terms: Terms,
) -> SessionEnd
    ensures { Leaves terms filter.now (fetched_text terms fetched)
        (event_world (after_fetched fetched []) (feed S.left S.ended S.failures S.at_once source.old)
        (seen G.contents G.turned G.idled gate.old) (outlet K.held K.failures sink.old))
        (feed S.left S.ended S.failures S.at_once source.new) (seen G.contents G.turned G.idled gate.new)
        (outlet K.held K.failures sink.new) result }
{
    match on_events(alloc, gate, sink, fetched, terms) {
        ListenState::At(at) => {
            let mut held = Vec::new(alloc);
            let ends = listen(rt, alloc, gate, source, sink, &mut held, at, filter, terms);
            drop(held);
            ends
        }
        ListenState::Over(ends) => ends,
    }
}

/// Accepts a WebSocket handshake of this key and sends the events of a filter, from the next one on:
/// each as a text message, in the order of their numbers and none left out. It first asks where it
/// begins, so that no event is missed that is told once the head of the handshake was seen. It asks
/// again at once after an answer with events, and after it idled once where there was none. Before it asks again, it
/// looks once whether something came from its client, and answers each frame that did (RFC 6455, section 5): a ping by a
/// pong with the same payload; a close by a close with the same code; what is no frame of a client, or a frame that is
/// longer than 4,096 bytes, by a close; and others by nothing. It ends after a close; where an event that it has not got
/// is no longer kept, and where its source has ended, each of which it tells by a close frame; and where its source or
/// its sink fails.
pub fn event_session<T: Wait, G: Gate, S: Source, K: Sink>(
    rt: &T,
    alloc: Global,
    gate: &mut G,
    source: &mut S,
    sink: &mut K,
    key: &str,
    filter: &Filter,
    terms: Terms,
) -> SessionEnd
    ensures { Session terms key.now filter.now (feed S.left S.ended S.failures S.at_once source.old)
        (seen G.contents G.turned G.idled gate.old) (outlet K.held K.failures sink.old)
        (feed S.left S.ended S.failures S.at_once source.new) (seen G.contents G.turned G.idled gate.new)
        (outlet K.held K.failures sink.new) result }
{
    let fetched = match ask(alloc, gate, 0, filter) {
        Ok(fetched) => fetched,
        Err(NoMemory) => return SessionEnd::NoMemory,
    };
    match send_head(alloc, sink, key) {
        Written::Whole => go_on_from(rt, alloc, gate, source, sink, fetched, filter, terms),
        Written::WriteFault => {
            drop(fetched);
            SessionEnd::WriteFault
        }
        Written::NoMemory => {
            drop(fetched);
            SessionEnd::NoMemory
        }
    }
}
