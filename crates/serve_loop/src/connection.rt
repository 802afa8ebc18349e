ghost use Rattle.std.specs.Prelude.{[]};
ghost use Rattle.gates.specs.Gates.{seen};
ghost use Rattle.gates.specs.rest_answers.specs.Links.{inlet, outlet};
ghost use Rattle.serve_loop.specs.Serving.{link_world};
ghost use Rattle.serve_loop.specs.Connections.{Connects};
ghost use Rattle.serve_loop.specs.Sources.{feed};

use crate::link::{LinkEnd, serve_link};
use crate::log::Log;
use crate::session::{SessionEnd, event_session};
use crate::subscriptions::Subscription;
use gates::Gate;
use http_front::{Clock, Sink, Source};
use rest_json::Terms;
use std::alloc::Global;
use std::sync::Wait;

/// Why a connection ends.
#[derive(Drop)]
pub enum ConnectionEnd {
    /// As a link, at its requests. Its end is no subscription.
    Link(LinkEnd),
    /// As a session of events, to which one of its requests subscribed.
    Session(SessionEnd),
}

/// Serves a connection: its requests are answered one after the other (`serve_link`), and one that
/// subscribes to events becomes a session of these (`event_session`), after which the connection
/// ends. The terms say how requests are read and replies are printed. The log is told of each request.
pub fn serve_connection<T: Wait, G: Gate, S: Source, K: Sink, C: Clock, O: Log>(
    rt: &T,
    alloc: Global,
    gate: &mut G,
    source: &mut S,
    sink: &mut K,
    clock: &mut C,
    terms: Terms,
    log: &mut O,
) -> ConnectionEnd
    ensures { Connects terms
        (link_world [] (inlet S.left S.ended S.failures source.old) (outlet K.held K.failures sink.old)
        (seen G.contents G.turned G.idled gate.old) (C.readings clock.old))
        (feed S.left S.ended S.failures S.at_once source.new) (outlet K.held K.failures sink.new)
        (seen G.contents G.turned G.idled gate.new) (C.readings clock.new) result }
{
    match serve_link(rt, alloc, gate, source, sink, clock, terms, log) {
        LinkEnd::Events(subscription) => {
            let Subscription { key, filter } = subscription;
            let ends = event_session(rt, alloc, gate, source, sink, key.view(), &filter, terms);
            drop(key);
            drop(filter);
            ConnectionEnd::Session(ends)
        }
        ends => ConnectionEnd::Link(ends),
    }
}
