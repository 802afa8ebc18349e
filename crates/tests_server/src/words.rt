//! Texts of replies and of lifecycle events that no whole run shows: of the rules O5 and M1, where
//! memory is refused, of a snapshot that expires, and of each action. All else that replies tell,
//! and what requests ask for, is told by the runs of `tests_sessions`.

use crate::links::TCP;
use crate::server::{Server, new_server, text};
use config_lists::{Config, Devices};
use records::{
    Details, EventBody, Life, Notice, OpFault, OpView, Refusal, Reply, Rule, Snapshot, Status,
    Target, View,
};
use rest_routes::{print, print_notice};
use size_values::{ObjectKind, Seq, Text};
use std::alloc::Global;

/// Rules that no run can break, with everything at hand that a rule may tell: their codes and
/// their bodies.
const RULES: &[(Rule, u16, &str)] = &[
    (
        Rule::H5,
        403,
        "{\"error\":\"origin is not allowed\",\"error_code\":403,\
         \"metadata\":{\"rule\":\"H5\"},\"type\":\"error\"}",
    ),
    (
        Rule::E1,
        412,
        "{\"error\":\"object has changed\",\"error_code\":412,\
         \"metadata\":{\"kind\":\"instance\",\"name\":\"n\",\"project\":\"p\",\"rule\":\"E1\"},\
         \"type\":\"error\"}",
    ),
    (
        Rule::O5,
        409,
        "{\"error\":\"operation numbers are used up\",\"error_code\":409,\
         \"metadata\":{\"number\":7,\"rule\":\"O5\"},\"type\":\"error\"}",
    ),
    (Rule::M1, 500, NO_MEMORY),
];

const NO_MEMORY: &str =
    r#"{"error":"no memory","error_code":500,"metadata":{"rule":"M1"},"type":"error"}"#;

/// An operation that failed since memory was refused.
const FAILED: &str = "{\"metadata\":{\"class\":\"task\",\"created_at\":\"1970-01-01T00:00:01Z\",\
     \"err\":\"no memory\",\"id\":\"00000000-0001-8000-8000-000000000002\",\
     \"may_cancel\":false,\"metadata\":null,\
     \"resources\":{\"snapshots\":[\"/1.0/instances/i/snapshots/n?project=p\"]},\
     \"status\":\"Failure\",\"status_code\":400,\"updated_at\":\"1970-01-01T00:00:02Z\"},\
     \"status\":\"Success\",\"status_code\":200,\"type\":\"sync\"}";

/// A snapshot that expires.
const EXPIRING: &str =
    "{\"metadata\":{\"config\":{},\"created_at\":\"1970-01-01T00:00:01Z\",\"devices\":{},\
     \"expires_at\":\"1970-01-01T00:01:00Z\",\"name\":\"n\",\"profiles\":[],\
     \"stateful\":false},\"status\":\"Success\",\"status_code\":200,\"type\":\"sync\"}";

/// The moment 0.
const START: &str = "1970-01-01T00:00:00Z";

/// Each action of a lifecycle event as it is written, a moment, and its date. The last second that
/// has a date stands for all after it.
const NOTICES: &[(Life, &str, u64, &str)] = &[
    (Life::ProjectCreated, "project-created", 0, START),
    (Life::ProjectUpdated, "project-updated", 0, START),
    (Life::ProjectRenamed, "project-renamed", 0, START),
    (
        Life::ProjectDeleted,
        "project-deleted",
        4_102_444_800,
        "2100-01-01T00:00:00Z",
    ),
    (Life::ProfileCreated, "profile-created", 0, START),
    (Life::ProfileUpdated, "profile-updated", 0, START),
    (Life::ProfileRenamed, "profile-renamed", 0, START),
    (Life::ProfileDeleted, "profile-deleted", 0, START),
    (Life::NetworkCreated, "network-created", 0, START),
    (Life::NetworkUpdated, "network-updated", 0, START),
    (Life::NetworkRenamed, "network-renamed", 0, START),
    (Life::NetworkDeleted, "network-deleted", 0, START),
    (Life::PoolCreated, "storage-pool-created", 0, START),
    (Life::PoolUpdated, "storage-pool-updated", 0, START),
    (Life::PoolDeleted, "storage-pool-deleted", 0, START),
    (Life::VolumeCreated, "storage-volume-created", 0, START),
    (Life::VolumeUpdated, "storage-volume-updated", 0, START),
    (Life::VolumeRenamed, "storage-volume-renamed", 0, START),
    (Life::VolumeDeleted, "storage-volume-deleted", 0, START),
    (Life::InstanceCreated, "instance-created", 0, START),
    (Life::InstanceUpdated, "instance-updated", 0, START),
    (Life::InstanceDeleted, "instance-deleted", 0, START),
    (Life::InstanceRenamed, "instance-renamed", 0, START),
    (
        Life::InstanceStarted,
        "instance-started",
        951_782_400,
        "2000-02-29T00:00:00Z",
    ),
    (Life::InstanceStopped, "instance-stopped", 0, START),
    (Life::InstanceRestarted, "instance-restarted", 0, START),
    (Life::InstancePaused, "instance-paused", 0, START),
    (Life::InstanceResumed, "instance-resumed", 0, START),
    (Life::InstanceRestored, "instance-restored", 0, START),
    (Life::SnapshotCreated, "instance-snapshot-created", 0, START),
    (
        Life::SnapshotDeleted,
        "instance-snapshot-deleted",
        253_402_300_800,
        "9999-12-31T23:59:59Z",
    ),
];

fn refusal(alloc: Global, rule: Rule) -> Reply {
    Reply::Refused(Refusal {
        rule,
        details: Details {
            kind: text(alloc, "instance"),
            project: text(alloc, "p"),
            name: text(alloc, "n"),
            key: text(alloc, "k"),
            number: 7,
            used: 4,
            asked: 5,
            limit: 6,
        },
    })
}

fn failed(alloc: Global) -> Reply {
    Reply::One(View::Op(OpView {
        number: 2,
        status: Status::Failure,
        may_cancel: true,
        created: 1,
        updated: 2,
        fault: OpFault::NoMemory,
        project: text(alloc, "p"),
        target: Target {
            kind: ObjectKind::Snapshot,
            pool: Text::new(alloc),
            instance: text(alloc, "i"),
            name: text(alloc, "n"),
        },
    }))
}

fn expiring(alloc: Global) -> Reply {
    Reply::One(View::Snapshot(Snapshot {
        project: text(alloc, "p"),
        instance: text(alloc, "i"),
        name: text(alloc, "n"),
        created: 1,
        expires: 60,
        profiles: Seq::new(alloc),
        config: Config::new(alloc),
        devices: Devices::new(alloc),
    }))
}

/// Whether a reply has this code and this body, and no location.
fn prints(alloc: Global, reply: &Reply, code: u16, body: &str) -> bool {
    let Ok(printed) = print(alloc, reply, TCP, false) else {
        return false;
    };
    let is_so = printed.code == code
        && printed.body.view() == body.as_bytes()
        && printed.location.is_empty();
    drop(printed);
    is_so
}

/// The same of a reply that is let go.
fn is_printed(alloc: Global, reply: Reply, code: u16, body: &str) -> bool {
    let is_so = prints(alloc, &reply, code, body);
    drop(reply);
    is_so
}

/// What stands after the beginning of a text; nothing where it does not begin so.
fn after<'a>(text: &'a str, begin: &str) -> &'a str {
    text.strip_prefix(begin).unwrap_or("")
}

/// Whether this is the whole text of an event of this action and date.
fn is_event(text: &str, action: &str, date: &str) -> bool {
    let text = after(text, r#"{"metadata":{"action":""#);
    let text = after(text, action);
    let text = after(
        text,
        r#"","source":"/1.0/instances/b?project=lab"},"number":1,"project":"lab","timestamp":""#,
    );
    after(text, date) == r#"","type":"lifecycle"}"#
}

/// Whether an event of this action and moment is printed so.
fn prints_event(alloc: Global, life: Life, action: &str, moment: u64, date: &str) -> bool {
    let notice = Notice {
        number: 1,
        moment,
        project: text(alloc, "lab"),
        body: EventBody::Life {
            action: life,
            source: text(alloc, "/1.0/instances/b?project=lab"),
        },
    };
    let printed = print_notice(alloc, &notice, TCP);
    drop(notice);
    match printed {
        Ok(text) => {
            let is_so = is_event(text.view(), action, date);
            drop(text);
            is_so
        }
        Err(_) => false,
    }
}

/// Whether this is the refusal of an unknown path, which tells nothing more.
fn is_unknown(why: &Reply) -> bool {
    match why {
        Reply::Refused(refusal) => {
            let details = &refusal.details;
            refusal.rule == Rule::A1
                && details.kind.is_empty()
                && details.project.is_empty()
                && details.name.is_empty()
                && details.key.is_empty()
                && details.number == 0
        }
        _ => false,
    }
}

/// Whether a request without a target, which is no request that a client can send, is refused as
/// one of an unknown path.
fn is_refused(server: &mut Server) -> bool {
    match server.answer("GET") {
        Ok(answer) => {
            drop(answer);
            false
        }
        Err(why) => {
            let is_so = is_unknown(&why);
            drop(why);
            is_so
        }
    }
}

/// The same at a new server.
fn refuses_no_target(alloc: Global) -> bool {
    let Some(mut server) = new_server(alloc, &[]) else {
        return false;
    };
    let is_so = is_refused(&mut server);
    drop(server);
    is_so
}

#[test]
fn what_no_run_reaches_has_its_text(rt: HostRuntime) {
    for (rule, code, body) in RULES {
        assert!(rt;
            is_printed(rt.alloc(), refusal(rt.alloc(), *rule), *code, body),
            "{body}"
        );
    }
    assert!(rt; is_printed(rt.alloc(), Reply::NoMemory, 500, NO_MEMORY));
    assert!(rt; is_printed(rt.alloc(), failed(rt.alloc()), 200, FAILED));
    assert!(rt; is_printed(rt.alloc(), expiring(rt.alloc()), 200, EXPIRING));
    assert!(rt; refuses_no_target(rt.alloc()));
}

#[test]
fn each_action_has_its_name(rt: HostRuntime) {
    for (life, action, moment, date) in NOTICES {
        assert!(rt;
            prints_event(rt.alloc(), *life, action, *moment, date),
            "{action}"
        );
    }
}
