//! What goes on in an event session.
ghost use Rattle.std.specs.Prelude.{◌≡◌, ◌⊎◌, ℕ, List, [], IfOk, OnErr};
ghost use Rattle.gates.specs.Answers.{IsForListener};
ghost use Rattle.gates.specs.Gates.{Seen, seen};
ghost use Rattle.records.specs.declared.notices.Filter.{Filter as FilterValue};
ghost use Rattle.gates.specs.rest_answers.specs.Links.{Outlet, outlet};
ghost use Rattle.row_machine.specs.declared.events.Answer.TheVariants as answer;
ghost use Rattle.rest_json.specs.declared.terms.Terms.{Terms as TermsValue};
ghost use Rattle.serve_loop.specs.Listening.{Asks, GoesOn, Leaves, after_sending, end_after_sending, event_world};
ghost use Rattle.serve_loop.specs.Listening.{stage_at};
ghost use Rattle.serve_loop.specs.Sessions.{after_fetched, after_notices, asking, fetched_text, frames_of, idling};
ghost use Rattle.serve_loop.specs.Sessions.{ended, looking};
ghost use Rattle.serve_loop.specs.Frames.{away_frame, lagged_frame};
ghost use Rattle.serve_loop.specs.Sources.{Feed, feed};
ghost use Rattle.serve_loop.specs.declared.session.SessionEnd.TheVariants as end;

use crate::frames::{send_close, send_notices};
use crate::hearing::hear;
use crate::looking::{Looked, look};
use crate::session::SessionEnd;
use gates::{Bell, Gate, Written};
use http_front::{Sink, Source};
use records::{Filter, Notice};
use rest_json::Terms;
use row_machine::{Answer, Event, Fetched};
use size_values::{NoMemory, Seq};
use std::alloc::Global;
use std::sync::Wait;

/// The code of a close that tells that the client keeps no pace with the events (RFC 6455, section 7.4.1).
const LAGGED: u16 = 1008;

/// The code of a close that tells that this end is going away.
const AWAY: u16 = 1001;

/// What a session does next, which is to get the events from this number on.
#[derive(Clone, Copy)]
pub enum SessionPost {
    /// To look whether something came from its client.
    Looking(u64),
    /// To hear what came.
    Hearing(u64),
    /// To ask for events.
    Asking(u64),
}

/// Whether a session goes on.
#[derive(Clone, Copy)]
pub enum ListenState {
    /// It has this to do.
    At(SessionPost),
    /// It has ended.
    Over(SessionEnd),
}

/// A filter of its own.
fn copied(alloc: Global, filter: &Filter) -> Result<Filter, NoMemory>
    ensures { IfOk result (λ f. f ≡ filter.now) }
{
    let project = filter.project.copy(alloc)?;
    Ok(Filter {
        life: filter.life,
        op: filter.op,
        project,
    })
}

/// The events of an answer to a listener.
fn fetched_in(given: Answer) -> Result<Fetched, NoMemory>
    requires { IsForListener given }
    ensures ok { IfOk result (λ f. answer.Fetched f ≡ given) }
    ensures err { OnErr result (answer.NoMemory ≡ given) }
{
    match given {
        Answer::Fetched(fetched) => Ok(fetched),
        Answer::NoMemory => Err(NoMemory),
        _ => unreachable!(),
    }
}

/// Asks for the events of a filter from this number on.
pub(crate) fn ask<G: Gate>(
    alloc: Global,
    gate: &mut G,
    cursor: u64,
    filter: &Filter,
) -> Result<Fetched, NoMemory>
    ensures ok { IfOk result (λ f. Asks filter.now cursor (answer.Fetched f)
        (seen G.contents G.turned G.idled gate.old) (seen G.contents G.turned G.idled gate.new)) }
    ensures err { OnErr result (
        (seen G.contents G.turned G.idled gate.new ≡ seen G.contents G.turned G.idled gate.old)
        ⊎ Asks filter.now cursor answer.NoMemory (seen G.contents G.turned G.idled gate.old)
        (seen G.contents G.turned G.idled gate.new)) }
{
    let filter = copied(alloc, filter)?;
    let given = gate.turn(Event::Fetch(cursor, filter));
    fetched_in(given)
}

/// Idles once after an answer without events.
fn idle<G: Gate>(gate: &mut G, next: u64) -> ListenState
    ensures { (terms : TermsValue) (filter : FilterValue) (held : List ℕ) (source : Feed) (sink : Outlet)
        → GoesOn terms filter [] (event_world (idling next held) source
        (seen G.contents G.turned G.idled gate.old) sink) result held source
        (seen G.contents G.turned G.idled gate.new) sink }
{
    let _ = gate.idle(Bell::Events);
    ListenState::At(SessionPost::Looking(next))
}

/// What a session has to do next once it has written some text so.
pub(crate) fn after_sending(written: Written, next: SessionPost) -> ListenState
    ensures { result ≡ after_sending written next }
{
    match written {
        Written::Whole => ListenState::At(next),
        Written::WriteFault => ListenState::Over(SessionEnd::WriteFault),
        Written::NoMemory => ListenState::Over(SessionEnd::NoMemory),
    }
}

/// How a session ends once it has written its last text so.
pub(crate) fn end_after_sending(written: Written, ends: SessionEnd) -> SessionEnd
    ensures { result ≡ end_after_sending written ends }
{
    match written {
        Written::Whole => ends,
        Written::WriteFault => SessionEnd::WriteFault,
        Written::NoMemory => SessionEnd::NoMemory,
    }
}

/// Sends the events of an answer, or idles where it has none.
fn tell<G: Gate, K: Sink>(
    alloc: Global,
    gate: &mut G,
    sink: &mut K,
    notices: Seq<Notice>,
    next: u64,
    terms: Terms,
) -> ListenState
    ensures { (filter : FilterValue) (held : List ℕ) (source : Feed) → GoesOn terms filter (frames_of terms notices)
        (event_world (after_notices notices next held) source (seen G.contents G.turned G.idled gate.old)
        (outlet K.held K.failures sink.old)) result held source (seen G.contents G.turned G.idled gate.new)
        (outlet K.held K.failures sink.new) }
{
    if notices.is_empty() {
        drop(notices);
        return idle(gate, next);
    }
    let written = send_notices(alloc, sink, notices.view(), terms);
    drop(notices);
    after_sending(written, SessionPost::Looking(next))
}

/// Closes a session that lagged.
fn close<K: Sink>(alloc: Global, sink: &mut K, cursor: u64, oldest: u64) -> SessionEnd
    ensures { (terms : TermsValue) (filter : FilterValue) (source : Feed) (gate : Seen) → Leaves terms filter lagged_frame
        (event_world (ended (end.Lagged cursor oldest)) source gate (outlet K.held K.failures sink.old)) source gate
        (outlet K.held K.failures sink.new) result }
{
    let written = send_close(alloc, sink, Some(LAGGED), "lagged: events were missed");
    end_after_sending(written, SessionEnd::Lagged { cursor, oldest })
}

/// What follows an answer to a session.
pub(crate) fn on_events<G: Gate, K: Sink>(
    alloc: Global,
    gate: &mut G,
    sink: &mut K,
    fetched: Fetched,
    terms: Terms,
) -> ListenState
    ensures { (filter : FilterValue) (held : List ℕ) (source : Feed) → GoesOn terms filter (fetched_text terms fetched)
        (event_world (after_fetched fetched held) source (seen G.contents G.turned G.idled gate.old)
        (outlet K.held K.failures sink.old)) result held source (seen G.contents G.turned G.idled gate.new)
        (outlet K.held K.failures sink.new) }
{
    match fetched {
        Fetched::Notices(notices, next) => tell(alloc, gate, sink, notices, next, terms),
        Fetched::Lagged { cursor, oldest } => ListenState::Over(close(alloc, sink, cursor, oldest)),
    }
}

/// Asks once for events, and sends them or idles.
fn ask_on<G: Gate, K: Sink>(
    alloc: Global,
    gate: &mut G,
    sink: &mut K,
    cursor: u64,
    filter: &Filter,
    terms: Terms,
) -> ListenState
    ensures { (held : List ℕ) (source : Feed) → GoesOn terms filter.now []
        (event_world (asking cursor held) source (seen G.contents G.turned G.idled gate.old)
        (outlet K.held K.failures sink.old)) result held source (seen G.contents G.turned G.idled gate.new)
        (outlet K.held K.failures sink.new) }
{
    match ask(alloc, gate, cursor, filter) {
        Ok(fetched) => on_events(alloc, gate, sink, fetched, terms),
        Err(NoMemory) => ListenState::Over(SessionEnd::NoMemory),
    }
}

/// Closes a session whose source has ended.
fn leave<K: Sink>(alloc: Global, sink: &mut K) -> SessionEnd
    ensures { (terms : TermsValue) (filter : FilterValue) (source : Feed) (gate : Seen) → Leaves terms filter away_frame
        (event_world (ended end.Ended) source gate (outlet K.held K.failures sink.old)) source gate
        (outlet K.held K.failures sink.new) result }
{
    let written = send_close(alloc, sink, Some(AWAY), "");
    end_after_sending(written, SessionEnd::Ended)
}

/// Looks once whether something came from the client.
fn look_on<S: Source, K: Sink>(
    alloc: Global,
    source: &mut S,
    sink: &mut K,
    held: &mut Vec<u8>,
    cursor: u64,
) -> ListenState
    ensures { (terms : TermsValue) (filter : FilterValue) (gate : Seen) → GoesOn terms filter []
        (event_world (looking cursor held.old.items) (feed S.left S.ended S.failures S.at_once source.old) gate
        (outlet K.held K.failures sink.old)) result held.new.items
        (feed S.left S.ended S.failures S.at_once source.new) gate (outlet K.held K.failures sink.new) }
{
    match look(source, held) {
        Ok(Looked::Quiet) => ListenState::At(SessionPost::Asking(cursor)),
        Ok(Looked::Came) => ListenState::At(SessionPost::Hearing(cursor)),
        Ok(Looked::Over) => ListenState::Over(leave(alloc, sink)),
        Ok(Looked::Broken) => ListenState::Over(SessionEnd::ReadFault),
        Err(NoMemory) => ListenState::Over(SessionEnd::NoMemory),
    }
}

/// Does what a session has to do.
fn go_on<G: Gate, S: Source, K: Sink>(
    alloc: Global,
    gate: &mut G,
    source: &mut S,
    sink: &mut K,
    held: &mut Vec<u8>,
    at: SessionPost,
    filter: &Filter,
    terms: Terms,
) -> ListenState
    ensures { GoesOn terms filter.now []
        (event_world (stage_at at held.old.items) (feed S.left S.ended S.failures S.at_once source.old)
        (seen G.contents G.turned G.idled gate.old) (outlet K.held K.failures sink.old)) result held.new.items
        (feed S.left S.ended S.failures S.at_once source.new) (seen G.contents G.turned G.idled gate.new)
        (outlet K.held K.failures sink.new) }
{
    match at {
        SessionPost::Looking(cursor) => look_on(alloc, source, sink, held, cursor),
        SessionPost::Hearing(cursor) => hear(alloc, sink, held, cursor),
        SessionPost::Asking(cursor) => ask_on(alloc, gate, sink, cursor, filter, terms),
    }
}

/// Does what a session has to do, one thing after the other, until it ends.
pub(crate) fn listen<T: Wait, G: Gate, S: Source, K: Sink>(
    rt: &T,
    alloc: Global,
    gate: &mut G,
    source: &mut S,
    sink: &mut K,
    held: &mut Vec<u8>,
    at: SessionPost,
    filter: &Filter,
    terms: Terms,
) -> SessionEnd
    ensures { Leaves terms filter.now []
        (event_world (stage_at at held.old.items) (feed S.left S.ended S.failures S.at_once source.old)
        (seen G.contents G.turned G.idled gate.old) (outlet K.held K.failures sink.old))
        (feed S.left S.ended S.failures S.at_once source.new) (seen G.contents G.turned G.idled gate.new)
        (outlet K.held K.failures sink.new) result }
{
    let mut next = at;
    'rounds: for _ in rt.forever() {
        match go_on(alloc, gate, source, sink, held, next, filter, terms) {
            ListenState::At(at) => next = at,
            ListenState::Over(ends) => return ends,
        }
    }
    unreachable!()
}
