//! Requests, and the events that they ask for; and keys of WebSocket handshakes, with the texts that accept them.

use crate::events::Want::{Events, Keyless, NoEvents, Refused};
use http_heads::Request;
use records::{Filter, Refusal, Rule};
use serve_loop::{accept_text, event_filter};
use size_values::{NoMemory, Or, Seq, Text};
use std::alloc::Global;

/// What is to be answered to a request with a key.
#[derive(Clone, Copy)]
enum Want {
    /// The request asks for no events.
    NoEvents,
    /// The request has no key, and asks for no events.
    Keyless,
    /// A bad query, by its key.
    Refused(&'static str),
    /// Lifecycle events or not, operation events or not, and of which project.
    Events(bool, bool, &'static str),
}

const KEY: &str = "dGhlIHNhbXBsZSBub25jZQ==";

/// Requests, and the events that they ask for.
const ASKING: &[(&str, &str, Want)] = &[
    ("GET", "/1.0/events", Events(true, true, "default")),
    ("GET", "/1.0/events?", Events(true, true, "default")),
    (
        "GET",
        "/1.0/events?type=lifecycle",
        Events(true, false, "default"),
    ),
    (
        "GET",
        "/1.0/events?type=operation",
        Events(false, true, "default"),
    ),
    (
        "GET",
        "/1.0/events?type=operation,lifecycle",
        Events(true, true, "default"),
    ),
    (
        "GET",
        "/1.0/events?type=operation,operation",
        Events(false, true, "default"),
    ),
    (
        "GET",
        "/1.0/events?type=oper%61tion%2Clifecycle",
        Events(true, true, "default"),
    ),
    ("GET", "/1.0/events?project=lab", Events(true, true, "lab")),
    (
        "GET",
        "/1.0/events?type=operation&project=lab",
        Events(false, true, "lab"),
    ),
    ("GET", "/1.0/events?project=", Events(true, true, "")),
    // The first of equal keys counts, and a key of no meaning counts for nothing.
    (
        "GET",
        "/1.0/events?project=a&project=b",
        Events(true, true, "a"),
    ),
    (
        "GET",
        "/1.0/events?type=lifecycle&type=operation",
        Events(true, false, "default"),
    ),
    (
        "GET",
        "/1.0/events?type=lifecycle&type=x",
        Events(true, false, "default"),
    ),
    (
        "GET",
        "/1.0/events?colour=red&recursion=1&timeout=5",
        Events(true, true, "default"),
    ),
    // The same in absolute form.
    (
        "GET",
        "http://localhost/1.0/events?project=lab",
        Events(true, true, "lab"),
    ),
    (
        "GET",
        "HTTPS://[::1]:8443/1.0/events?type=x",
        Refused("type"),
    ),
    // Bad queries.
    ("GET", "/1.0/events?type=", Refused("type")),
    ("GET", "/1.0/events?type=logging", Refused("type")),
    ("GET", "/1.0/events?type=Operation", Refused("type")),
    ("GET", "/1.0/events?type=operation,", Refused("type")),
    (
        "GET",
        "/1.0/events?type=operation,%20lifecycle",
        Refused("type"),
    ),
    (
        "GET",
        "/1.0/events?project=lab&all-projects=true",
        Refused("all-projects"),
    ),
    ("GET", "/1.0/events?filter=x&type=y", Refused("filter")),
    ("GET", "/1.0/events?recursion=3", Refused("recursion")),
    ("GET", "/1.0/events?timeout=x", Refused("timeout")),
    // Requests for something else.
    ("POST", "/1.0/events", NoEvents),
    ("HEAD", "/1.0/events", NoEvents),
    ("get", "/1.0/events", NoEvents),
    ("GET", "ftp://localhost/1.0/events", NoEvents),
    ("GET", "http:///1.0/events", NoEvents),
    ("GET", "/1.0/events/", NoEvents),
    ("GET", "/1.0/event", NoEvents),
    ("GET", "/1.0", NoEvents),
    ("GET", "/1.0/operations?type=x", NoEvents),
    ("GET", "/1.0/Events?type=x", NoEvents),
    // Requests without a key.
    ("GET", "/1.0/events", Keyless),
    ("GET", "/1.0/events?type=operation", Keyless),
    ("GET", "/1.0/events?type=x", Keyless),
];

fn key_for(alloc: Global, want: Want) -> Result<Option<Text>, NoMemory> {
    match want {
        Keyless => Ok(None),
        _ => Text::from_text(alloc, KEY).map(Some),
    }
}

fn request(alloc: Global, method: &str, target: &str, want: Want) -> Result<Request, NoMemory> {
    Ok(Request {
        method: Text::from_text(alloc, method)?,
        target: Text::from_text(alloc, target)?,
        body: Seq::new(alloc),
        last: false,
        expects: false,
        upgrade: key_for(alloc, want)?,
        origin: false,
        if_match: None,
    })
}

fn is_filter(filter: &Filter, life: bool, op: bool, project: &str) -> bool {
    (filter.life == life) & (filter.op == op) & (filter.project.view() == project)
}

/// Whether this is the refusal of a query that tells the key and nothing else.
fn is_refused(refusal: &Refusal, key: &str) -> bool {
    let details = &refusal.details;
    (refusal.rule == Rule::A3)
        & (details.key.view() == key)
        & details.kind.is_empty()
        & details.name.is_empty()
        & details.project.is_empty()
}

fn is_wanted(answer: &Result<Option<Filter>, Or<Refusal>>, want: Want) -> bool {
    match (answer, want) {
        (Ok(None), NoEvents | Keyless) => true,
        (Ok(Some(filter)), Events(life, op, project)) => is_filter(filter, life, op, project),
        (Err(Or::Why(refusal)), Refused(key)) => is_refused(refusal, key),
        _ => false,
    }
}

fn asks(alloc: Global, method: &str, target: &str, want: Want) -> bool {
    let Ok(request) = request(alloc, method, target, want) else {
        return false;
    };
    let answer = event_filter(alloc, &request);
    drop(request);
    let is = is_wanted(&answer, want);
    drop(answer);
    is
}

/// The example of RFC 6455, section 1.3, a key that a browser sent, and texts that are no keys.
const ACCEPTED: &[(&str, &str)] = &[
    (KEY, "s3pPLMBiTxaQ9kYGzzhZRbK+xOo="),
    ("x3JJHMbDL1EzLkh9GBhXDw==", "HSmrc0sMlYUkAGmm5OPpG2HaGWk="),
    ("", "Kfh9QIsMVZcl6xEPYxPHzW8SZ8w="),
    ("\u{e9}", "Q3nA4bowCsT/eKmBZYzoeYI576k="),
];

fn accepts(alloc: Global, key: &str, wanted: &str) -> bool {
    let Ok(text) = accept_text(alloc, key) else {
        return false;
    };
    text.view() == wanted
}

#[test]
fn requests_ask_for_the_events_of_a_project(rt: HostRuntime) {
    for (method, target, want) in ASKING {
        assert!(rt;
            asks(rt.alloc(), method, target, *want),
            "of {method} {target}"
        );
    }
    for (key, wanted) in ACCEPTED {
        assert!(rt; accepts(rt.alloc(), key, wanted), "of {key}");
    }
}
