//! A link: its requests are answered one after the other.
ghost use Rattle.std.specs.Prelude.{◌≡◌, ◌⊎◌, ℕ, List, [], true, IfSome};
ghost use Rattle.http_heads.specs.Messages.{Ending, Splits};
ghost use Rattle.http_heads.specs.declared.request.Request.{Request as RequestValue};
ghost use Rattle.size_values.specs.Causes.{Rose};
ghost use Rattle.http_front.specs.Clocks.{Readings};
ghost use Rattle.http_front.specs.declared.read.Got.TheVariants as found;
ghost use Rattle.gates.specs.rest_answers.specs.Links.{inlet, outlet};
ghost use Rattle.gates.specs.Gates.{Between, Seen, seen};
ghost use Rattle.gates.specs.History.{Item};
ghost use Rattle.rest_routes.specs.Commands.{command_of};
ghost use Rattle.serve_loop.specs.Serving.{Follows, Looks, Meets, Refuses, Replies, Serving, ServingFrom, Turns};
ghost use Rattle.serve_loop.specs.Serving.{WritesReply, end_after, is_barred};
ghost use Rattle.serve_loop.specs.Serving.{link_world, turn_after};
ghost use Rattle.serve_loop.specs.Texts.{IsFault, ServesText, reply_world};
ghost use Rattle.serve_loop.specs.declared.link.LinkEnd.TheVariants as end;

use crate::leave::next_message;
use crate::log::{Log, code_of, rule_in, tell_fault, tell_subscribed};
use crate::reply::reply_to;
use crate::subscribing::{is_refusal, look_for};
use crate::subscriptions::{Subscription, subscription_of};
use gates::{Gate, Written, answer_for, write_answer, write_refusal};
use http_front::{Buffer, Clock, Got, HeadFault, Request, Sink, SinkFailed, Source};
use records::Reply;
use rest_json::Terms;
use rest_routes::Router;
use size_values::NoMemory;
use std::alloc::Global;
use std::sync::Wait;

/// Why a link ends.
#[derive(Drop)]
pub enum LinkEnd {
    /// The source has ended between two requests, or a request was answered after which the
    /// connection ends.
    Ended,
    /// The source has ended within a request.
    Cut,
    /// No request begins here, or one was refused for its `Origin` (H5). It was answered by its rule, and the connection
    /// ends.
    Malformed(HeadFault),
    /// A read failed.
    ReadFault,
    /// A write failed.
    WriteFault,
    /// Memory was refused outside a request.
    NoMemory,
    /// A request subscribes to events of a project that there is. It was not answered.
    Events(Subscription),
}

/// What one turn of a link comes to.
#[derive(Drop)]
pub enum Turn {
    /// A request was answered, and the next one may come.
    GoOn,
    /// A request was answered, and its connection ends.
    Final,
    /// The link ends.
    Stop(LinkEnd),
}

/// How a turn goes on after a reply, from how its writing ended and whether its request is the last
/// on its connection.
fn turn_after(written: Written, last: bool) -> Turn
    ensures { result ≡ turn_after written last }
{
    match written {
        Written::Whole => { if last { Turn::Final } else { Turn::GoOn } }
        Written::WriteFault => Turn::Stop(LinkEnd::WriteFault),
        Written::NoMemory => Turn::Stop(LinkEnd::NoMemory),
    }
}

/// How a link ends at a fault, from how the writing of its reply ended.
fn end_after(written: Written, fault: HeadFault) -> LinkEnd
    ensures { result ≡ end_after written fault }
{
    match written {
        Written::Whole => LinkEnd::Malformed(fault),
        Written::WriteFault => LinkEnd::WriteFault,
        Written::NoMemory => LinkEnd::NoMemory,
    }
}

/// Writes the reply to a request, and tells of it.
fn write_reply<K: Sink, O: Log>(
    alloc: Global,
    sink: &mut K,
    request: &Request,
    reply: Reply,
    terms: Terms,
    log: &mut O,
) -> Turn
    ensures { WritesReply terms request.now reply result (outlet K.held K.failures sink.old)
        (outlet K.held K.failures sink.new) }
{
    let rule = rule_in(&reply);
    let answered = answer_for(alloc, &reply, terms, request);
    drop(reply);
    let written = write_answer(sink, &answered, request);
    log.answered(Some(request), code_of(&answered, request, written), rule);
    drop(answered);
    turn_after(written, request.last)
}

/// Answers a request that subscribes to no events.
fn answer_request<T: Wait, G: Gate, K: Sink, C: Clock, O: Log>(
    rt: &T,
    alloc: Global,
    router: &Router,
    gate: &mut G,
    sink: &mut K,
    clock: &mut C,
    request: &Request,
    terms: Terms,
    log: &mut O,
) -> Turn
    ensures { Replies (command_of request.now terms) terms request.now result (outlet K.held K.failures sink.old)
        (outlet K.held K.failures sink.new) (seen G.contents G.turned G.idled gate.old)
        (seen G.contents G.turned G.idled gate.new) (C.readings clock.old) (C.readings clock.new) }
{
    log.came();
    let reply = reply_to(rt, alloc, router, gate, clock, request, terms);
    write_reply(alloc, sink, request, reply, terms, log)
}

/// Asks for the project of a subscription. Its session begins, or the refusal is answered.
fn subscribe<T: Wait, G: Gate, K: Sink, C: Clock, O: Log>(
    rt: &T,
    alloc: Global,
    gate: &mut G,
    sink: &mut K,
    clock: &mut C,
    request: &Request,
    wanted: Subscription,
    terms: Terms,
    log: &mut O,
) -> Turn
    ensures { Looks terms wanted request.now result (outlet K.held K.failures sink.old)
        (outlet K.held K.failures sink.new) (seen G.contents G.turned G.idled gate.old)
        (seen G.contents G.turned G.idled gate.new) (C.readings clock.old) (C.readings clock.new) }
{
    log.came();
    let reply = look_for(rt, alloc, gate, clock, &wanted);
    if is_refusal(&reply) {
        drop(wanted);
        write_reply(alloc, sink, request, reply, terms, log)
    } else {
        drop(reply);
        tell_subscribed(log, request);
        Turn::Stop(LinkEnd::Events(wanted))
    }
}

/// A turn of a link at a request: its session of events begins, or it is answered.
fn serve_request<T: Wait, G: Gate, K: Sink, C: Clock, O: Log>(
    rt: &T,
    alloc: Global,
    router: &Router,
    gate: &mut G,
    sink: &mut K,
    clock: &mut C,
    request: &Request,
    terms: Terms,
    log: &mut O,
) -> Turn
    ensures { Meets terms request.now result (outlet K.held K.failures sink.old)
        (outlet K.held K.failures sink.new) (seen G.contents G.turned G.idled gate.old)
        (seen G.contents G.turned G.idled gate.new) (C.readings clock.old) (C.readings clock.new) }
{
    match subscription_of(alloc, request) {
        Ok(Some(wanted)) => { subscribe(rt, alloc, gate, sink, clock, request, wanted, terms, log) }
        Ok(None) => answer_request(rt, alloc, router, gate, sink, clock, request, terms, log),
        Err(NoMemory) => Turn::Stop(LinkEnd::NoMemory),
    }
}

/// Answers a place in which no request can begin, or a request, by its fault. The link ends.
fn refuse<K: Sink, O: Log>(
    alloc: Global,
    sink: &mut K,
    log: &mut O,
    request: Option<&Request>,
    fault: HeadFault,
) -> Turn
    ensures { (gate : Seen) (clock : Readings) → Refuses fault result (outlet K.held K.failures sink.old)
        (outlet K.held K.failures sink.new) gate gate clock clock }
{
    log.came();
    let written = write_refusal(alloc, sink, fault);
    tell_fault(alloc, log, request, fault, written);
    Turn::Stop(end_after(written, fault))
}

/// Whether a request has an `Origin`, and is refused for it.
fn is_barred(terms: Terms, request: &Request) -> bool
    ensures { result ≡ is_barred terms request.now }
{
    terms.refuses_origin && request.origin
}

/// A turn of a link at the request that was read: it is refused for its `Origin`, or served.
fn follow_request<T: Wait, G: Gate, K: Sink, C: Clock, O: Log>(
    rt: &T,
    alloc: Global,
    router: &Router,
    gate: &mut G,
    sink: &mut K,
    clock: &mut C,
    request: &Request,
    terms: Terms,
    log: &mut O,
) -> Turn
    ensures { Follows terms (found.Request request.now) result (outlet K.held K.failures sink.old)
        (outlet K.held K.failures sink.new) (seen G.contents G.turned G.idled gate.old)
        (seen G.contents G.turned G.idled gate.new) (C.readings clock.old) (C.readings clock.new) }
{
    if is_barred(terms, request) {
        refuse(alloc, sink, log, Some(request), HeadFault::H5)
    } else {
        serve_request(rt, alloc, router, gate, sink, clock, request, terms, log)
    }
}

/// What follows on an answer of `read_request`.
fn follow<T: Wait, G: Gate, K: Sink, C: Clock, O: Log>(
    rt: &T,
    alloc: Global,
    router: &Router,
    buffer: &mut Buffer,
    gate: &mut G,
    sink: &mut K,
    clock: &mut C,
    got: Got,
    terms: Terms,
    log: &mut O,
) -> Turn
    ensures follows { Follows terms got result (outlet K.held K.failures sink.old)
        (outlet K.held K.failures sink.new) (seen G.contents G.turned G.idled gate.old)
        (seen G.contents G.turned G.idled gate.new) (C.readings clock.old) (C.readings clock.new) }
    ensures held { buffer.new ≡ buffer.old }
{
    match got {
        Got::Request(request) => {
            let next = follow_request(rt, alloc, router, gate, sink, clock, &request, terms, log);
            buffer.reuse(request);
            next
        }
        Got::End => Turn::Stop(LinkEnd::Ended),
        Got::Cut(_) => Turn::Stop(LinkEnd::Cut),
        Got::Malformed(fault) => refuse(alloc, sink, log, None, fault),
        Got::ReadFault => Turn::Stop(LinkEnd::ReadFault),
        Got::NoMemory => Turn::Stop(LinkEnd::NoMemory),
    }
}

/// One turn of a link: takes the next message, after leave where its client waits for it, and answers it.
fn serve_next<T: Wait, G: Gate, S: Source, K: Sink, C: Clock, O: Log>(
    rt: &T,
    alloc: Global,
    router: &Router,
    buffer: &mut Buffer,
    gate: &mut G,
    source: &mut S,
    sink: &mut K,
    clock: &mut C,
    terms: Terms,
    log: &mut O,
) -> Turn
    ensures { Turns terms result
        (link_world buffer.old (inlet S.left S.ended S.failures source.old)
        (outlet K.held K.failures sink.old) (seen G.contents G.turned G.idled gate.old)
        (C.readings clock.old))
        (link_world buffer.new (inlet S.left S.ended S.failures source.new)
        (outlet K.held K.failures sink.new) (seen G.contents G.turned G.idled gate.new)
        (C.readings clock.new)) }
{
    match next_message(alloc, buffer, source, sink, terms.refuses_origin) {
        Ok(got) => follow(
            rt, alloc, router, buffer, gate, sink, clock, got, terms, log,
        ),
        Err(SinkFailed) => Turn::Stop(LinkEnd::WriteFault),
    }
}

/// Answers requests one after the other until the link ends.
fn serve<T: Wait, G: Gate, S: Source, K: Sink, C: Clock, O: Log>(
    rt: &T,
    alloc: Global,
    router: &Router,
    buffer: &mut Buffer,
    gate: &mut G,
    source: &mut S,
    sink: &mut K,
    clock: &mut C,
    terms: Terms,
    log: &mut O,
) -> LinkEnd
    ensures { Serving terms
        (link_world buffer.old (inlet S.left S.ended S.failures source.old)
        (outlet K.held K.failures sink.old) (seen G.contents G.turned G.idled gate.old)
        (C.readings clock.old))
        (link_world buffer.new (inlet S.left S.ended S.failures source.new)
        (outlet K.held K.failures sink.new) (seen G.contents G.turned G.idled gate.new)
        (C.readings clock.new))
        result }
{
    for _ in rt.forever() {
        match serve_next(
            rt, alloc, router, buffer, gate, source, sink, clock, terms, log,
        ) {
            Turn::GoOn => {}
            Turn::Final => return LinkEnd::Ended,
            Turn::Stop(ends) => return ends,
        }
    }
    unreachable!()
}

/// A link, from an empty buffer on.
fn serve_from_empty<T: Wait, G: Gate, S: Source, K: Sink, C: Clock, O: Log>(
    rt: &T,
    alloc: Global,
    gate: &mut G,
    source: &mut S,
    sink: &mut K,
    clock: &mut C,
    terms: Terms,
    log: &mut O,
) -> LinkEnd
    ensures { ServingFrom terms
        (link_world [] (inlet S.left S.ended S.failures source.old) (outlet K.held K.failures sink.old)
        (seen G.contents G.turned G.idled gate.old) (C.readings clock.old))
        (inlet S.left S.ended S.failures source.new) (outlet K.held K.failures sink.new)
        (seen G.contents G.turned G.idled gate.new) (C.readings clock.new) result }
{
    let Ok(router) = Router::new(alloc) else {
        return LinkEnd::NoMemory;
    };
    let Ok(mut buffer) = Buffer::new(alloc) else {
        drop(router);
        return LinkEnd::NoMemory;
    };
    let ends = serve(
        rt,
        alloc,
        &router,
        &mut buffer,
        gate,
        source,
        sink,
        clock,
        terms,
        log,
    );
    drop(buffer);
    drop(router);
    ends
}

/// Answers the requests of a connection one after the other, each at the gate, and writes their
/// replies (HTTP/1.1, RFC 9112, section 9), until one subscribes to events. One with an `Origin` is refused where the terms
/// say so: nothing else is done of it, and the link ends. That one asks for its
/// project first, and is answered as any other where it is refused. There is no limit to their
/// number. A request asks for its command once, and a wait is looked at, and the gate idles once
/// after each look that shows its operation live: until it has ended, until the clock is at the
/// deadline, or until it idled a million times for the whole time of an idle. The terms say how
/// requests are read and replies are printed. The log is told of each request once it is answered.
pub fn serve_link<T: Wait, G: Gate, S: Source, K: Sink, C: Clock, O: Log>(
    rt: &T,
    alloc: Global,
    gate: &mut G,
    source: &mut S,
    sink: &mut K,
    clock: &mut C,
    terms: Terms,
    log: &mut O,
) -> LinkEnd
    ensures serves { ServingFrom terms
        (link_world [] (inlet S.left S.ended S.failures source.old) (outlet K.held K.failures sink.old)
        (seen G.contents G.turned G.idled gate.old) (C.readings clock.old))
        (inlet S.left S.ended S.failures source.new) (outlet K.held K.failures sink.new)
        (seen G.contents G.turned G.idled gate.new) (C.readings clock.new) result }

    // What was done at the gate is one history.
    ensures history { (history : List Item) × Between history (seen G.contents G.turned G.idled gate.old)
        (seen G.contents G.turned G.idled gate.new) }

    // Over a source that tells its bytes: a fault, or what these bytes ask.
    ensures text { IfSome (S.left source.old) (λ text. (messages : List RequestValue) (ending : Ending)
        → Splits text messages ending → IsFault result
        ⊎ ServesText terms text messages ending result
        (reply_world (outlet K.held K.failures sink.old) (seen G.contents G.turned G.idled gate.old)
        (C.readings clock.old))
        (reply_world (outlet K.held K.failures sink.new) (seen G.contents G.turned G.idled gate.new)
        (C.readings clock.new))) }

    ensures cut { result ≡ end.Cut → S.ended source.new ≡ true }
    ensures read_fault { result ≡ end.ReadFault
        → Rose (S.failures source.old) (S.failures source.new) }
    ensures write_fault { result ≡ end.WriteFault
        → Rose (K.failures sink.old) (K.failures sink.new) }
{
    serve_from_empty(rt, alloc, gate, source, sink, clock, terms, log)
}
