//! Links and a worker over a gate of one's own.
ghost use Rattle.std.specs.Prelude.{◌≤◌};

use crate::links::{OwnGate, SOCKET, TCP, TWICE, TWICE_REPLIES, is_served, is_served_on, new_gate};
use crate::server::{Said, said_by};
use host_model::ModelHost;
use http_front::StillClock;
use rest_json::Terms;
use row_machine::Event;
use serve_loop::{Gate, NoLog, work};
use size_values::Seq;
use std::alloc::Global;
use std::sync::Wait;

const WAITED: &str =
    "POST /1.0/storage-pools HTTP/1.1\r\nHost: localhost\r\nContent-Length: 28\r\n\r\n{\"driver\":\"dir\",\"name\":\"p0\"}PUT /1.0/profiles/default HTTP/1.1\r\nHost: localhost\r\nContent-Length: 73\r\n\r\n{\"devices\":{\"root\":{\"path\":\"/\",\"pool\":\"p0\",\"size\":\"1GiB\",\"type\":\"disk\"}}}POST /1.0/instances HTTP/1.1\r\nHost: localhost\r\nContent-Length: 37\r\n\r\n{\"name\":\"a\",\"source\":{\"type\":\"none\"}}GET /1.0/operations/00000000-0001-8000-8000-000000000001/wait HTTP/1.1\r\nHost: localhost\r\n\r\n";

const WAITED_REPLIES: &str =
    "HTTP/1.1 200 OK\r\nContent-Type: application/json\r\nContent-Length: 66\r\n\r\n{\"metadata\":{},\"status\":\"Success\",\"status_code\":200,\"type\":\"sync\"}HTTP/1.1 200 OK\r\nContent-Type: application/json\r\nContent-Length: 66\r\n\r\n{\"metadata\":{},\"status\":\"Success\",\"status_code\":200,\"type\":\"sync\"}HTTP/1.1 202 Accepted\r\nContent-Type: application/json\r\nContent-Length: 401\r\nLocation: /1.0/operations/00000000-0001-8000-8000-000000000001\r\n\r\n{\"metadata\":{\"class\":\"task\",\"created_at\":\"1970-01-01T00:00:00Z\",\"err\":\"\",\"id\":\"00000000-0001-8000-8000-000000000001\",\"may_cancel\":true,\"metadata\":null,\"resources\":{\"instances\":[\"/1.0/instances/a\"]},\"status\":\"Pending\",\"status_code\":105,\"updated_at\":\"1970-01-01T00:00:00Z\"},\"operation\":\"/1.0/operations/00000000-0001-8000-8000-000000000001\",\"status\":\"Operation created\",\"status_code\":100,\"type\":\"async\"}HTTP/1.1 200 OK\r\nContent-Type: application/json\r\nContent-Length: 324\r\n\r\n{\"metadata\":{\"class\":\"task\",\"created_at\":\"1970-01-01T00:00:00Z\",\"err\":\"\",\"id\":\"00000000-0001-8000-8000-000000000001\",\"may_cancel\":false,\"metadata\":null,\"resources\":{\"instances\":[\"/1.0/instances/a\"]},\"status\":\"Success\",\"status_code\":200,\"updated_at\":\"1970-01-01T00:00:00Z\"},\"status\":\"Success\",\"status_code\":200,\"type\":\"sync\"}";

const WAITED_TEN: &str =
    "POST /1.0/storage-pools HTTP/1.1\r\nHost: localhost\r\nContent-Length: 28\r\n\r\n{\"driver\":\"dir\",\"name\":\"p0\"}PUT /1.0/profiles/default HTTP/1.1\r\nHost: localhost\r\nContent-Length: 73\r\n\r\n{\"devices\":{\"root\":{\"path\":\"/\",\"pool\":\"p0\",\"size\":\"1GiB\",\"type\":\"disk\"}}}POST /1.0/instances HTTP/1.1\r\nHost: localhost\r\nContent-Length: 37\r\n\r\n{\"name\":\"a\",\"source\":{\"type\":\"none\"}}GET /1.0/operations/00000000-0001-8000-8000-000000000001/wait?timeout=10 HTTP/1.1\r\nHost: localhost\r\n\r\n";

const WAITED_TEN_REPLIES: &str =
    "HTTP/1.1 200 OK\r\nContent-Type: application/json\r\nContent-Length: 66\r\n\r\n{\"metadata\":{},\"status\":\"Success\",\"status_code\":200,\"type\":\"sync\"}HTTP/1.1 200 OK\r\nContent-Type: application/json\r\nContent-Length: 66\r\n\r\n{\"metadata\":{},\"status\":\"Success\",\"status_code\":200,\"type\":\"sync\"}HTTP/1.1 202 Accepted\r\nContent-Type: application/json\r\nContent-Length: 401\r\nLocation: /1.0/operations/00000000-0001-8000-8000-000000000001\r\n\r\n{\"metadata\":{\"class\":\"task\",\"created_at\":\"1970-01-01T00:00:00Z\",\"err\":\"\",\"id\":\"00000000-0001-8000-8000-000000000001\",\"may_cancel\":true,\"metadata\":null,\"resources\":{\"instances\":[\"/1.0/instances/a\"]},\"status\":\"Pending\",\"status_code\":105,\"updated_at\":\"1970-01-01T00:00:00Z\"},\"operation\":\"/1.0/operations/00000000-0001-8000-8000-000000000001\",\"status\":\"Operation created\",\"status_code\":100,\"type\":\"async\"}HTTP/1.1 200 OK\r\nContent-Type: application/json\r\nContent-Length: 324\r\n\r\n{\"metadata\":{\"class\":\"task\",\"created_at\":\"1970-01-01T00:00:00Z\",\"err\":\"\",\"id\":\"00000000-0001-8000-8000-000000000001\",\"may_cancel\":false,\"metadata\":null,\"resources\":{\"instances\":[\"/1.0/instances/a\"]},\"status\":\"Success\",\"status_code\":200,\"updated_at\":\"1970-01-01T00:00:00Z\"},\"status\":\"Success\",\"status_code\":200,\"type\":\"sync\"}";

const CANCELLED: &str =
    "POST /1.0/storage-pools HTTP/1.1\r\nHost: localhost\r\nContent-Length: 28\r\n\r\n{\"driver\":\"dir\",\"name\":\"p0\"}PUT /1.0/profiles/default HTTP/1.1\r\nHost: localhost\r\nContent-Length: 73\r\n\r\n{\"devices\":{\"root\":{\"path\":\"/\",\"pool\":\"p0\",\"size\":\"1GiB\",\"type\":\"disk\"}}}POST /1.0/instances HTTP/1.1\r\nHost: localhost\r\nContent-Length: 37\r\n\r\n{\"name\":\"a\",\"source\":{\"type\":\"none\"}}DELETE /1.0/operations/00000000-0001-8000-8000-000000000001 HTTP/1.1\r\nHost: localhost\r\n\r\nGET /1.0/operations/00000000-0001-8000-8000-000000000001/wait HTTP/1.1\r\nHost: localhost\r\n\r\n";

const CANCELLED_REPLIES: &str =
    "HTTP/1.1 200 OK\r\nContent-Type: application/json\r\nContent-Length: 66\r\n\r\n{\"metadata\":{},\"status\":\"Success\",\"status_code\":200,\"type\":\"sync\"}HTTP/1.1 200 OK\r\nContent-Type: application/json\r\nContent-Length: 66\r\n\r\n{\"metadata\":{},\"status\":\"Success\",\"status_code\":200,\"type\":\"sync\"}HTTP/1.1 202 Accepted\r\nContent-Type: application/json\r\nContent-Length: 401\r\nLocation: /1.0/operations/00000000-0001-8000-8000-000000000001\r\n\r\n{\"metadata\":{\"class\":\"task\",\"created_at\":\"1970-01-01T00:00:00Z\",\"err\":\"\",\"id\":\"00000000-0001-8000-8000-000000000001\",\"may_cancel\":true,\"metadata\":null,\"resources\":{\"instances\":[\"/1.0/instances/a\"]},\"status\":\"Pending\",\"status_code\":105,\"updated_at\":\"1970-01-01T00:00:00Z\"},\"operation\":\"/1.0/operations/00000000-0001-8000-8000-000000000001\",\"status\":\"Operation created\",\"status_code\":100,\"type\":\"async\"}HTTP/1.1 200 OK\r\nContent-Type: application/json\r\nContent-Length: 66\r\n\r\n{\"metadata\":{},\"status\":\"Success\",\"status_code\":200,\"type\":\"sync\"}HTTP/1.1 200 OK\r\nContent-Type: application/json\r\nContent-Length: 349\r\n\r\n{\"metadata\":{\"class\":\"task\",\"created_at\":\"1970-01-01T00:00:00Z\",\"err\":\"operation was cancelled\",\"id\":\"00000000-0001-8000-8000-000000000001\",\"may_cancel\":false,\"metadata\":null,\"resources\":{\"instances\":[\"/1.0/instances/a\"]},\"status\":\"Cancelled\",\"status_code\":401,\"updated_at\":\"1970-01-01T00:00:00Z\"},\"status\":\"Success\",\"status_code\":200,\"type\":\"sync\"}";

/// Two instances fill a project, of which the second is not there yet, and a third one is refused.
const FILLED: &str =
    "POST /1.0/projects HTTP/1.1\r\nHost: localhost\r\nContent-Length: 48\r\n\r\n{\"config\":{\"limits.instances\":\"2\"},\"name\":\"lab\"}POST /1.0/storage-pools HTTP/1.1\r\nHost: localhost\r\nContent-Length: 28\r\n\r\n{\"driver\":\"dir\",\"name\":\"p0\"}PUT /1.0/profiles/default?project=lab HTTP/1.1\r\nHost: localhost\r\nContent-Length: 73\r\n\r\n{\"devices\":{\"root\":{\"path\":\"/\",\"pool\":\"p0\",\"size\":\"1GiB\",\"type\":\"disk\"}}}POST /1.0/instances?project=lab HTTP/1.1\r\nHost: localhost\r\nContent-Length: 37\r\n\r\n{\"name\":\"a\",\"source\":{\"type\":\"none\"}}GET /1.0/operations/00000000-0001-8000-8000-000000000001/wait HTTP/1.1\r\nHost: localhost\r\n\r\nPOST /1.0/instances?project=lab HTTP/1.1\r\nHost: localhost\r\nContent-Length: 37\r\n\r\n{\"name\":\"b\",\"source\":{\"type\":\"none\"}}POST /1.0/instances?project=lab HTTP/1.1\r\nHost: localhost\r\nContent-Length: 37\r\n\r\n{\"name\":\"c\",\"source\":{\"type\":\"none\"}}";

const FILLED_REPLIES: &str =
    "HTTP/1.1 200 OK\r\nContent-Type: application/json\r\nContent-Length: 66\r\n\r\n{\"metadata\":{},\"status\":\"Success\",\"status_code\":200,\"type\":\"sync\"}HTTP/1.1 200 OK\r\nContent-Type: application/json\r\nContent-Length: 66\r\n\r\n{\"metadata\":{},\"status\":\"Success\",\"status_code\":200,\"type\":\"sync\"}HTTP/1.1 200 OK\r\nContent-Type: application/json\r\nContent-Length: 66\r\n\r\n{\"metadata\":{},\"status\":\"Success\",\"status_code\":200,\"type\":\"sync\"}HTTP/1.1 202 Accepted\r\nContent-Type: application/json\r\nContent-Length: 413\r\nLocation: /1.0/operations/00000000-0001-8000-8000-000000000001\r\n\r\n{\"metadata\":{\"class\":\"task\",\"created_at\":\"1970-01-01T00:00:00Z\",\"err\":\"\",\"id\":\"00000000-0001-8000-8000-000000000001\",\"may_cancel\":true,\"metadata\":null,\"resources\":{\"instances\":[\"/1.0/instances/a?project=lab\"]},\"status\":\"Pending\",\"status_code\":105,\"updated_at\":\"1970-01-01T00:00:00Z\"},\"operation\":\"/1.0/operations/00000000-0001-8000-8000-000000000001\",\"status\":\"Operation created\",\"status_code\":100,\"type\":\"async\"}HTTP/1.1 200 OK\r\nContent-Type: application/json\r\nContent-Length: 336\r\n\r\n{\"metadata\":{\"class\":\"task\",\"created_at\":\"1970-01-01T00:00:00Z\",\"err\":\"\",\"id\":\"00000000-0001-8000-8000-000000000001\",\"may_cancel\":false,\"metadata\":null,\"resources\":{\"instances\":[\"/1.0/instances/a?project=lab\"]},\"status\":\"Success\",\"status_code\":200,\"updated_at\":\"1970-01-01T00:00:00Z\"},\"status\":\"Success\",\"status_code\":200,\"type\":\"sync\"}HTTP/1.1 202 Accepted\r\nContent-Type: application/json\r\nContent-Length: 413\r\nLocation: /1.0/operations/00000000-0001-8000-8000-000000000002\r\n\r\n{\"metadata\":{\"class\":\"task\",\"created_at\":\"1970-01-01T00:00:00Z\",\"err\":\"\",\"id\":\"00000000-0001-8000-8000-000000000002\",\"may_cancel\":true,\"metadata\":null,\"resources\":{\"instances\":[\"/1.0/instances/b?project=lab\"]},\"status\":\"Pending\",\"status_code\":105,\"updated_at\":\"1970-01-01T00:00:00Z\"},\"operation\":\"/1.0/operations/00000000-0001-8000-8000-000000000002\",\"status\":\"Operation created\",\"status_code\":100,\"type\":\"async\"}HTTP/1.1 403 Forbidden\r\nContent-Type: application/json\r\nContent-Length: 162\r\n\r\n{\"error\":\"limit is exceeded\",\"error_code\":403,\"metadata\":{\"asked\":\"1\",\"key\":\"limits.instances\",\"limit\":\"2\",\"project\":\"lab\",\"rule\":\"L1\",\"used\":\"2\"},\"type\":\"error\"}";

const MALFORMED: &str = "GARBAGE\r\n\r\n";

const MALFORMED_REPLIES: &str =
    "HTTP/1.1 400 Bad Request\r\nContent-Type: application/json\r\nContent-Length: 86\r\nConnection: close\r\n\r\n{\"error\":\"head is malformed\",\"error_code\":400,\"metadata\":{\"rule\":\"H1\"},\"type\":\"error\"}";

const CUT: &str =
    "POST /1.0/projects HTTP/1.1\r\nHost: localhost\r\nContent-Length: 14\r\n\r\n{\"name\":\"lab\"}POST /1.0/pro";

const CUT_REPLIES: &str =
    "HTTP/1.1 200 OK\r\nContent-Type: application/json\r\nContent-Length: 66\r\n\r\n{\"metadata\":{},\"status\":\"Success\",\"status_code\":200,\"type\":\"sync\"}";

/// A project, and then a subscription to events, which is not answered here.
const SUBSCRIBED: &str =
    "POST /1.0/projects HTTP/1.1\r\nHost: localhost\r\nContent-Length: 14\r\n\r\n{\"name\":\"lab\"}GET /1.0/events HTTP/1.1\r\nHost: localhost\r\nUpgrade: websocket\r\nConnection: Upgrade\r\nSec-WebSocket-Version: 13\r\nSec-WebSocket-Key: dGhlIHNhbXBsZSBub25jZQ==\r\n\r\nGET /1.0 HTTP/1.1\r\nHost: localhost\r\n\r\n";

/// A subscription to events of a project that is not there, which is refused, and then a request.
const NOWHERE: &str =
    "GET /1.0/events?project=lab HTTP/1.1\r\nHost: localhost\r\nUpgrade: websocket\r\nConnection: Upgrade\r\nSec-WebSocket-Version: 13\r\nSec-WebSocket-Key: dGhlIHNhbXBsZSBub25jZQ==\r\n\r\nPOST /1.0/projects HTTP/1.1\r\nHost: localhost\r\nContent-Length: 14\r\n\r\n{\"name\":\"lab\"}";

const NOWHERE_REPLIES: &str =
    "HTTP/1.1 404 Not Found\r\nContent-Type: application/json\r\nContent-Length: 103\r\n\r\n{\"error\":\"project is missing\",\"error_code\":404,\"metadata\":{\"project\":\"lab\",\"rule\":\"N1\"},\"type\":\"error\"}HTTP/1.1 200 OK\r\nContent-Type: application/json\r\nContent-Length: 66\r\n\r\n{\"metadata\":{},\"status\":\"Success\",\"status_code\":200,\"type\":\"sync\"}";

const LAST: &str =
    "POST /1.0/projects HTTP/1.1\r\nHost: localhost\r\nConnection: close\r\nContent-Length: 14\r\n\r\n{\"name\":\"lab\"}POST /1.0/projects HTTP/1.1\r\nHost: localhost\r\nContent-Length: 14\r\n\r\n{\"name\":\"lab\"}";

const LAST_REPLIES: &str =
    "HTTP/1.1 200 OK\r\nContent-Type: application/json\r\nContent-Length: 66\r\nConnection: close\r\n\r\n{\"metadata\":{},\"status\":\"Success\",\"status_code\":200,\"type\":\"sync\"}";

const BEGUN: &str =
    "POST /1.0/storage-pools HTTP/1.1\r\nHost: localhost\r\nContent-Length: 28\r\n\r\n{\"driver\":\"dir\",\"name\":\"p0\"}PUT /1.0/profiles/default HTTP/1.1\r\nHost: localhost\r\nContent-Length: 73\r\n\r\n{\"devices\":{\"root\":{\"path\":\"/\",\"pool\":\"p0\",\"size\":\"1GiB\",\"type\":\"disk\"}}}POST /1.0/instances HTTP/1.1\r\nHost: localhost\r\nContent-Length: 37\r\n\r\n{\"name\":\"a\",\"source\":{\"type\":\"none\"}}";

const BEGUN_REPLIES: &str =
    "HTTP/1.1 200 OK\r\nContent-Type: application/json\r\nContent-Length: 66\r\n\r\n{\"metadata\":{},\"status\":\"Success\",\"status_code\":200,\"type\":\"sync\"}HTTP/1.1 200 OK\r\nContent-Type: application/json\r\nContent-Length: 66\r\n\r\n{\"metadata\":{},\"status\":\"Success\",\"status_code\":200,\"type\":\"sync\"}HTTP/1.1 202 Accepted\r\nContent-Type: application/json\r\nContent-Length: 401\r\nLocation: /1.0/operations/00000000-0001-8000-8000-000000000001\r\n\r\n{\"metadata\":{\"class\":\"task\",\"created_at\":\"1970-01-01T00:00:00Z\",\"err\":\"\",\"id\":\"00000000-0001-8000-8000-000000000001\",\"may_cancel\":true,\"metadata\":null,\"resources\":{\"instances\":[\"/1.0/instances/a\"]},\"status\":\"Pending\",\"status_code\":105,\"updated_at\":\"1970-01-01T00:00:00Z\"},\"operation\":\"/1.0/operations/00000000-0001-8000-8000-000000000001\",\"status\":\"Operation created\",\"status_code\":100,\"type\":\"async\"}";

const SHOWN: &str =
    "GET /1.0/operations/00000000-0001-8000-8000-000000000001 HTTP/1.1\r\nHost: localhost\r\n\r\n";

const SHOWN_REPLIES: &str =
    "HTTP/1.1 200 OK\r\nContent-Type: application/json\r\nContent-Length: 324\r\n\r\n{\"metadata\":{\"class\":\"task\",\"created_at\":\"1970-01-01T00:00:00Z\",\"err\":\"\",\"id\":\"00000000-0001-8000-8000-000000000001\",\"may_cancel\":false,\"metadata\":null,\"resources\":{\"instances\":[\"/1.0/instances/a\"]},\"status\":\"Success\",\"status_code\":200,\"updated_at\":\"1970-01-01T00:00:00Z\"},\"status\":\"Success\",\"status_code\":200,\"type\":\"sync\"}";

/// The bytes of a link, how it ends, and its replies.
const LINKS: &[(&str, &str, &str)] = &[
    (TWICE, "ended", TWICE_REPLIES),
    (WAITED, "ended", WAITED_REPLIES),
    (WAITED_TEN, "ended", WAITED_TEN_REPLIES),
    (CANCELLED, "ended", CANCELLED_REPLIES),
    (FILLED, "ended", FILLED_REPLIES),
    (MALFORMED, "malformed", MALFORMED_REPLIES),
    (SUBSCRIBED, "events", CUT_REPLIES),
    (NOWHERE, "ended", NOWHERE_REPLIES),
    (CUT, "cut", CUT_REPLIES),
    (LAST, "ended", LAST_REPLIES),
    ("", "ended", ""),
];

/// A project that a page in a browser makes, and a request after it.
const PAGE: &str =
    "POST /1.0/projects HTTP/1.1\r\nHost: localhost\r\nOrigin: http://page.example\r\nContent-Type: text/plain\r\nContent-Length: 14\r\n\r\n{\"name\":\"lab\"}GET /1.0/projects HTTP/1.1\r\nHost: localhost\r\n\r\n";

/// A project, and then a request of a page.
const PAGE_BEHIND: &str =
    "POST /1.0/projects HTTP/1.1\r\nHost: localhost\r\nContent-Length: 14\r\n\r\n{\"name\":\"lab\"}GET /1.0 HTTP/1.1\r\nHost: localhost\r\norigin: null\r\n\r\n";

/// A project that a page makes, whose client waits for leave.
const PAGE_AWAITING: &str =
    "POST /1.0/projects HTTP/1.1\r\nHost: localhost\r\nORIGIN: http://page.example\r\nExpect: 100-continue\r\nContent-Length: 14\r\n\r\n{\"name\":\"lab\"}";

/// A subscription of a page to events.
const PAGE_LISTENING: &str =
    "GET /1.0/events HTTP/1.1\r\nHost: localhost\r\nOrigin: http://page.example\r\nUpgrade: websocket\r\nConnection: Upgrade\r\nSec-WebSocket-Version: 13\r\nSec-WebSocket-Key: dGhlIHNhbXBsZSBub25jZQ==\r\n\r\n";

/// A request of a page whose length is malformed.
const PAGE_MALFORMED: &str =
    "GET /1.0 HTTP/1.1\r\nHost: localhost\r\nOrigin: http://page.example\r\nContent-Length: no\r\n\r\n";

/// A page asks for the projects.
const PAGE_READING: &str =
    "GET /1.0/projects HTTP/1.1\r\nHost: localhost\r\nOrigin: http://page.example\r\n\r\n";

/// The projects.
const PROJECTS: &str = "GET /1.0/projects HTTP/1.1\r\nHost: localhost\r\n\r\n";

const ORIGIN_REPLY: &str =
    "HTTP/1.1 403 Forbidden\r\nContent-Type: application/json\r\nContent-Length: 90\r\nConnection: close\r\n\r\n{\"error\":\"origin is not allowed\",\"error_code\":403,\"metadata\":{\"rule\":\"H5\"},\"type\":\"error\"}";

const ORIGIN_BEHIND_REPLIES: &str =
    "HTTP/1.1 200 OK\r\nContent-Type: application/json\r\nContent-Length: 66\r\n\r\n{\"metadata\":{},\"status\":\"Success\",\"status_code\":200,\"type\":\"sync\"}HTTP/1.1 403 Forbidden\r\nContent-Type: application/json\r\nContent-Length: 90\r\nConnection: close\r\n\r\n{\"error\":\"origin is not allowed\",\"error_code\":403,\"metadata\":{\"rule\":\"H5\"},\"type\":\"error\"}";

const LENGTH_REPLY: &str =
    "HTTP/1.1 400 Bad Request\r\nContent-Type: application/json\r\nContent-Length: 88\r\nConnection: close\r\n\r\n{\"error\":\"length is malformed\",\"error_code\":400,\"metadata\":{\"rule\":\"H3\"},\"type\":\"error\"}";

const PROJECTS_REPLY: &str =
    "HTTP/1.1 200 OK\r\nContent-Type: application/json\r\nContent-Length: 89\r\n\r\n{\"metadata\":[\"/1.0/projects/default\"],\"status\":\"Success\",\"status_code\":200,\"type\":\"sync\"}";

const AWAITED_REPLIES: &str =
    "HTTP/1.1 100 Continue\r\n\r\nHTTP/1.1 200 OK\r\nContent-Type: application/json\r\nContent-Length: 83\r\n\r\n{\"metadata\":{\"status_code\":200},\"status\":\"Success\",\"status_code\":200,\"type\":\"sync\"}";

/// The terms of a link, its bytes, how it ends, and its replies: a page in a browser is refused over TCP, and its
/// requests are as any others over a socket file.
const PAGES: &[(Terms, &str, &str, &str)] = &[
    (TCP, PAGE, "malformed", ORIGIN_REPLY),
    (TCP, PAGE_BEHIND, "malformed", ORIGIN_BEHIND_REPLIES),
    (TCP, PAGE_AWAITING, "malformed", ORIGIN_REPLY),
    (TCP, PAGE_LISTENING, "malformed", ORIGIN_REPLY),
    (TCP, PAGE_MALFORMED, "malformed", LENGTH_REPLY),
    (SOCKET, PAGE_READING, "ended", PROJECTS_REPLY),
    (SOCKET, PAGE_AWAITING, "ended", AWAITED_REPLIES),
    (SOCKET, PAGE_LISTENING, "events", ""),
];

/// Whether a link over a new server ends so and has these replies, where at most `piece` of its bytes come at each
/// read.
fn is_served_anew<T: Wait>(
    rt: &T,
    alloc: Global,
    piece: usize,
    text: &str,
    ends: &str,
    replies: &str,
) -> bool
    requires { 1 ≤ piece }
{
    let Some(mut gate) = new_gate(alloc) else {
        return false;
    };
    let is_so = is_served(rt, alloc, &mut gate, text, piece, ends, replies);
    drop(gate);
    is_so
}

/// Whether a link on these terms over a new server ends so and has these replies.
fn is_served_new<T: Wait>(
    rt: &T,
    alloc: Global,
    terms: Terms,
    text: &str,
    ends: &str,
    replies: &str,
) -> bool {
    let Some(mut gate) = new_gate(alloc) else {
        return false;
    };
    let is_so = is_served_on(rt, alloc, terms, &mut gate, text, 100, ends, replies);
    drop(gate);
    is_so
}

#[test]
fn pages_are_refused_over_tcp(rt: HostRuntime) {
    for (terms, text, ends, replies) in PAGES {
        let is_so = is_served_new(&rt, rt.alloc(), *terms, text, ends, replies);
        assert!(rt; is_so, "{text}");
    }
}

/// Whether a page's request changes nothing: the projects are those of before.
fn is_untouched<T: Wait>(rt: &T, alloc: Global) -> bool {
    let Some(mut gate) = new_gate(alloc) else {
        return false;
    };
    let refused = is_served(rt, alloc, &mut gate, PAGE, 100, "malformed", ORIGIN_REPLY);
    let same = is_served(rt, alloc, &mut gate, PROJECTS, 100, "ended", PROJECTS_REPLY);
    drop(gate);
    refused && same
}

#[test]
fn a_page_changes_nothing(rt: HostRuntime) {
    assert!(rt; is_untouched(&rt, rt.alloc()));
}

/// In small pieces and in large ones.
#[test]
fn links_are_served(rt: HostRuntime) {
    for (text, ends, replies) in LINKS {
        let is_so = is_served_anew(&rt, rt.alloc(), 7, text, ends, replies)
            && is_served_anew(&rt, rt.alloc(), 4096, text, ends, replies);
        assert!(rt; is_so, "{text}");
    }
}

/// Whether a worker makes one instance on a host of its own before it returns.
fn is_made<T: Wait>(rt: &T, alloc: Global, gate: &mut OwnGate) -> bool {
    let mut host = ModelHost::new(alloc, Seq::new(alloc));
    work(rt, gate, &mut host, &mut StillClock::new(0), &mut NoLog);
    let made = host.roots().len() == 1;
    drop(host);
    made
}

/// Whether a worker makes the creation that a link began before it returns at the close.
fn is_worked<T: Wait>(rt: &T, alloc: Global) -> bool {
    let Some(mut gate) = new_gate(alloc) else {
        return false;
    };
    let begun = is_served(rt, alloc, &mut gate, BEGUN, 100, "ended", BEGUN_REPLIES);
    let closed = said_by(gate.turn(Event::Close)) == Said::Closed;
    let made = is_made(rt, alloc, &mut gate);
    let shown = is_served(rt, alloc, &mut gate, SHOWN, 100, "ended", SHOWN_REPLIES);
    drop(gate);
    begun && closed && made && shown
}

#[test]
fn a_worker_makes_what_was_begun(rt: HostRuntime) {
    assert!(rt; is_worked(&rt, rt.alloc()));
}
