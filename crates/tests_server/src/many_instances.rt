//! Many instances on one server. Sixty thousand are made one after the other, each by a request, a call that is taken
//! and two reports; and a profile of a thousand is raised to what the limits of its project allow. What a project
//! uses is told by the server each time.
ghost use Rattle.std.specs.Prelude.{None};

use crate::server::{Said, ServerOver, new_server, opened_over};
use host_model::Report;
use operations::Status;
use record_keeper::{Keeper, KeeperFailed};
use size_values::{Entry, EntryChange, Or, Seq};
use std::alloc::Global;

/// What is asked of a server.
#[derive(Clone, Copy)]
enum Step {
    /// These requests, which are carried out at once.
    Asks(&'static [&'static str]),
    /// That the instances from 1 to this number are made in a project, each by two calls.
    Makes(&'static str, u32),
    /// That the instances from 1 to this number are deleted in a project, each by one call.
    Deletes(&'static str, u32),
    /// What a project uses of its limits, which is this.
    Uses(&'static str, [u128; 8]),
}

/// The profile with twice the memory.
const RAISE: &str =
    r#"PUT /1.0/profiles/default?project=lab {"config":{"limits.cpu":"2","limits.memory":"2MiB","limits.processes":"5"},"devices":{"root":{"path":"/","pool":"p0","size":"1GiB","type":"disk"}}}"#;

/// Sixty thousand instances are made.
const SIXTY_THOUSAND: &[Step] = &[
    Step::Asks(&[
        r#"PATCH /1.0/projects/default {"config":{"limits.disk":"100TiB","limits.instances":"65536"}}"#,
        r#"POST /1.0/storage-pools {"driver":"dir","name":"p0"}"#,
        r#"PUT /1.0/profiles/default {"devices":{"root":{"path":"/","pool":"p0","size":"1GiB","type":"disk"}}}"#,
    ]),
    Step::Makes("default", 60_000),
    Step::Uses(
        "GET /1.0/projects/default/state",
        [60_000, 60_000, 0, 0, 0, 0, 64_424_509_440_000, 0],
    ),
];

/// A thousand instances are made of one profile, in a project that allows what they use once the profile is raised, and
/// nothing above.
const RAISED: &[Step] = &[
    Step::Asks(&[
        r#"POST /1.0/storage-pools {"driver":"dir","name":"p0"}"#,
        r#"POST /1.0/projects {"config":{"limits.containers":"1000","limits.cpu":"2000","limits.disk":"1000GiB","limits.instances":"1000","limits.memory":"2000MiB","limits.processes":"5000","limits.virtual-machines":"0"},"name":"lab"}"#,
        r#"PUT /1.0/profiles/default?project=lab {"config":{"limits.cpu":"2","limits.memory":"1MiB","limits.processes":"5"},"devices":{"root":{"path":"/","pool":"p0","size":"1GiB","type":"disk"}}}"#,
    ]),
    Step::Makes("lab", 1_000),
    Step::Asks(&[RAISE]),
    Step::Uses(
        "GET /1.0/projects/lab/state",
        [
            1_000,
            1_000,
            0,
            2_000,
            2_097_152_000,
            5_000,
            1_073_741_824_000,
            0,
        ],
    ),
    Step::Deletes("lab", 1_000),
    Step::Uses("GET /1.0/projects/lab/state", [0; 8]),
];

/// A keeper that loads nothing, keeps nothing and never fails.
#[derive(Drop)]
struct IdleKeeper {
    alloc: Global,
    calls: u64,
}

impl Keeper for IdleKeeper {
    ghost store = { λ k. record { contents = None; calls = k.calls; failures = 0 } };

    fn load(&mut self) -> Result<Seq<Entry>, Or<KeeperFailed>> {
        self.calls = self.calls.saturating_add(1);
        Ok(Seq::new(self.alloc))
    }

    fn commit(&mut self, _changes: &Seq<EntryChange>) -> Result<(), Or<KeeperFailed>> {
        self.calls = self.calls.saturating_add(1);
        Ok(())
    }

    fn faults(&self) -> u64 {
        0
    }
}

/// The request that makes the instance of a number, or deletes it.
fn line_of(alloc: Global, project: &str, number: u32, is_made: bool) -> String {
    let line = if is_made {
        format!(in alloc;
            "POST /1.0/instances?project={project} {{\"name\":\"i{number:05}\",\"source\":{{\"type\":\"none\"}}}}"
        )
    } else {
        format!(in alloc; "DELETE /1.0/instances/i{number:05}?project={project}")
    };
    line.unwrap_or(String::new(alloc))
}

/// Whether the operation that ended last is this one, and it was a success.
fn has_succeeded<R: Keeper + Drop>(server: &ServerOver<R>, number: u64) -> bool {
    match server.view().ended.last() {
        Some(operation) => operation.number == number && operation.status == Status::Success,
        None => false,
    }
}

/// Whether the worker takes a call of this operation, which ends as a success with the report of its last one.
fn works<R: Keeper + Drop>(server: &mut ServerOver<R>, number: u64, calls: u32) -> bool {
    let mut is_so = server.take() == Said::Call(number);
    for _ in 1..calls {
        is_so = is_so && server.report(number, Report::Done) == Said::Call(number);
    }
    is_so
        && server.report(number, Report::Done) == Said::Ended(number)
        && has_succeeded(server, number)
}

/// Whether the instance of a number is made by two calls, or deleted by one.
fn is_done<R: Keeper + Drop>(
    server: &mut ServerOver<R>,
    project: &str,
    number: u32,
    is_made: bool,
) -> bool {
    let line = line_of(server.alloc, project, number, is_made);
    let said = server.ask(line.as_str());
    drop(line);
    match said {
        Said::Begun(operation) => works(server, operation, if is_made { 2 } else { 1 }),
        _ => false,
    }
}

/// Whether all instances up to this number are made, or deleted.
fn are_done<R: Keeper + Drop>(
    server: &mut ServerOver<R>,
    project: &str,
    count: u32,
    is_made: bool,
) -> bool {
    for number in 1..=count {
        if !is_done(server, project, number, is_made) {
            return false;
        }
    }
    true
}

/// Whether this is what a project uses.
fn uses<R: Keeper + Drop>(server: &mut ServerOver<R>, line: &str, parts: [u128; 8]) -> bool {
    match server.usage(line) {
        Some(usage) => usage.sums.map(|told| told.0) == parts,
        None => false,
    }
}

fn goes<R: Keeper + Drop>(server: &mut ServerOver<R>, step: Step) -> bool {
    match step {
        Step::Asks(lines) => server.does_all(lines),
        Step::Makes(project, count) => are_done(server, project, count, true),
        Step::Deletes(project, count) => are_done(server, project, count, false),
        Step::Uses(line, parts) => uses(server, line, parts),
    }
}

/// Whether all steps of a server go so, where it opened.
fn all_go<R: Keeper + Drop>(server: Option<ServerOver<R>>, steps: &[Step]) -> bool {
    let Some(mut server) = server else {
        return false;
    };
    let mut is_so = true;
    for step in steps {
        is_so = is_so && goes(&mut server, *step);
    }
    drop(server);
    is_so
}

/// A new server that keeps nothing.
fn idle_server(alloc: Global) -> Option<ServerOver<IdleKeeper>> {
    let (daemon, keeper) = opened_over(alloc, IdleKeeper { alloc, calls: 0 })?;
    ServerOver::of(alloc, daemon, keeper)
}

#[test]
fn sixty_thousand_instances_are_made(rt: HostRuntime) {
    assert!(rt; all_go(idle_server(rt.alloc()), SIXTY_THOUSAND));
}

#[test]
fn a_profile_of_a_thousand_instances_is_raised(rt: HostRuntime) {
    assert!(rt; all_go(new_server(rt.alloc(), &[]), RAISED));
}
