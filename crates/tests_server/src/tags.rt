//! Which entity tag a request expects of its object, and which tags replies have.

use crate::links::{SOCKET, TCP};
use crate::server::{request_of, text};
use config_lists::{Config, Devices};
use records::{Details, Project, Refusal, Reply, Rule, Snapshot, View};
use rest_json::Terms;
use rest_routes::{Router, print};
use size_values::{NoMemory, Power, Seq, Text};
use std::alloc::Global;

/// Requests by their lines, their If-Match headers, and the tags that they expect of their objects.
const EXPECTING: &[(&str, Option<&str>, Option<&str>)] = &[
    ("PUT /1.0/projects/p {}", None, None),
    ("PUT /1.0/projects/p {}", Some("*"), None),
    ("PUT /1.0/projects/p {}", Some("\"a1\""), Some("\"a1\"")),
    // What is near to `*`, a list, and an empty value are tags that no object has.
    ("PUT /1.0/projects/p {}", Some("\"*\""), Some("\"*\"")),
    ("PUT /1.0/projects/p {}", Some("*,*"), Some("*,*")),
    (
        "PUT /1.0/projects/p {}",
        Some("\"a\", \"b\""),
        Some("\"a\", \"b\""),
    ),
    ("PUT /1.0/projects/p {}", Some(""), Some("")),
    // The header is read of every method and at every path.
    ("GET /1.0", Some("\"a1\""), Some("\"a1\"")),
    ("GET /1.0", Some("*"), None),
    ("GET /1.0", None, None),
    (
        "GET /1.0/instances?recursion=1",
        Some("\"a1\""),
        Some("\"a1\""),
    ),
    (
        "DELETE /1.0/instances/c1?project=lab",
        Some("\"a1\""),
        Some("\"a1\""),
    ),
];

/// The tag of a project with the description `d` and no settings: the SHA-256 of the body of its row.
const PROJECT: &str = "\"f59aa46d9543086cd0121fb8391ac4ae39f8a9a416f141119f7827eacff705af\"";

/// The tag of a snapshot of the moment 1 that expires at 60, without profiles, settings and devices.
const SNAPSHOT: &str = "\"46de6244e59e2c0cdaf6b8e6d131749787b51bf760e68b1b5c7e790afa354a68\"";

/// Whether a text is there as it is wanted.
fn is_text(there: &Option<Text>, wanted: Option<&str>) -> bool {
    match (there, wanted) {
        (Some(there), Some(wanted)) => there.view() == wanted,
        (None, None) => true,
        _ => false,
    }
}

/// Whether a request with this If-Match asks on these terms for a command that expects this tag.
fn is_expected(
    alloc: Global,
    router: &Router,
    terms: Terms,
    line: &str,
    if_match: Option<&str>,
    tag: Option<&str>,
) -> bool {
    let mut request = request_of(alloc, line);
    if let Some(value) = if_match {
        request.if_match = Some(text(alloc, value));
    }
    let routed = router.route(alloc, &request, terms);
    drop(request);
    let is = match &routed {
        Ok(command) => is_text(&command.expects, tag),
        Err(_) => false,
    };
    drop(routed);
    is
}

/// A project with this description and no settings.
fn project(alloc: Global, description: &str) -> Reply {
    Reply::One(View::Project(
        Project {
            name: text(alloc, "p"),
            description: text(alloc, description),
            config: Config::new(alloc),
        },
        Seq::new(alloc),
    ))
}

/// A snapshot of the moment 1 that expires at 60.
fn snapshot(alloc: Global) -> View {
    View::Snapshot(Snapshot {
        project: text(alloc, "p"),
        instance: text(alloc, "i"),
        name: text(alloc, "n"),
        created: 1,
        expires: 60,
        profiles: Seq::new(alloc),
        config: Config::new(alloc),
        devices: Devices::new(alloc),
    })
}

/// A list of one snapshot.
fn snapshots(alloc: Global) -> Result<Reply, NoMemory> {
    let mut views = Seq::new(alloc);
    views.push(snapshot(alloc))?;
    Ok(Reply::Many(views))
}

/// The refusal of a change of an object that has another tag.
fn changed(alloc: Global) -> Reply {
    Reply::Refused(Refusal {
        rule: Rule::E1,
        details: Details {
            kind: text(alloc, "project"),
            project: text(alloc, "p"),
            name: text(alloc, "p"),
            key: Text::new(alloc),
            number: 0,
            used: 0,
            asked: 0,
            limit: 0,
        },
    })
}

/// Whether a reply is printed on these terms with this code and this tag.
fn prints(alloc: Global, reply: &Reply, terms: Terms, code: u16, tag: &str) -> bool {
    let Ok(printed) = print(alloc, reply, terms, false) else {
        return false;
    };
    let is = printed.code == code && printed.tag.view() == tag;
    drop(printed);
    is
}

/// Whether a reply has this code, and this tag in the client's dialect alone.
fn is_tagged(alloc: Global, reply: Reply, code: u16, tag: &str) -> bool {
    let is = prints(alloc, &reply, SOCKET, code, tag) & prints(alloc, &reply, TCP, code, "");
    drop(reply);
    is
}

#[test]
fn requests_expect_what_their_if_match_says(rt: HostRuntime) {
    let Ok(router) = Router::new(rt.alloc()) else {
        assert!(rt; false, "there is memory");
        return;
    };
    for (line, if_match, tag) in EXPECTING {
        for terms in [TCP, SOCKET] {
            assert!(rt;
                is_expected(rt.alloc(), &router, terms, line, *if_match, *tag),
                "{line}"
            );
        }
    }
    drop(router);
}

#[test]
fn clients_are_told_tags_of_single_rows(rt: HostRuntime) {
    let alloc = rt.alloc();
    assert!(rt; is_tagged(alloc, project(alloc, "d"), 200, PROJECT));
    assert!(rt; !is_tagged(alloc, project(alloc, "e"), 200, PROJECT));
    assert!(rt; is_tagged(alloc, Reply::One(snapshot(alloc)), 200, SNAPSHOT));
    assert!(rt; is_tagged(alloc, Reply::One(View::Server), 200, ""));
    assert!(rt; is_tagged(alloc, Reply::One(View::Power(Power::Stopped)), 200, ""));
    assert!(rt; is_tagged(alloc, Reply::Empty, 200, ""));
    assert!(rt; is_tagged(alloc, changed(alloc), 412, ""));
    if let Ok(list) = snapshots(alloc) {
        assert!(rt; is_tagged(alloc, list, 200, ""));
    }
}
