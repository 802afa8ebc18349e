ghost use Rattle.std.specs.Prelude.{◌≡◌, ◌+◌, ◌<◌, ◌≤◌, ◌^◌, IfOk, length};
ghost use Rattle.size_values.specs.Amounts.{part};
ghost use Rattle.size_values.specs.declared.amounts.Part.{Part};

use operations::{OpFault, Operation, Status};
use plans_tasks::instance_creation;
use project_limits::{Limits, disk_in};
use records::{Body, Command, Driver, Origin, Pool, Project, Refusal, Row, Rule, Target, What};
use row_machine::Task;
use row_readings::{Footprint, PoolLimits, StateRef, claimed_instance, rows_of, usage_of};
use rules_conflicts::standing_broken;
use rules_limits::{
    Beside, InUse, claim_lacks_amount, counts_broken, limited_named, limited_projects,
    limits_broken, limits_named, needs_usage, project_without_amount, share_broken, usage_before,
    uses_exceed,
};
use rules_names::names_broken;
use rules_policy::{claim_forbidden, policy_broken, policy_broken_in};
use rules_settings::claim_settings_broken;
use rules_tables::{claim_tables_broken, entry_broken};
use size_values::{Amounts, NoMemory, ObjectKind, Or, PoolPart, Seq, Text};
use std::alloc::Global;
use tests_given::{Rows, both, config, device};

/// The creation of an instance from nothing, and the rule that it breaks first.
#[derive(Clone, Copy)]
struct Creation {
    project: &'static str,
    name: &'static str,
    /// The size of its root disk in the pool, empty for none; no value where it has no root disk.
    root: Option<&'static str>,
    next: u64,
    rule: Option<Rule>,
    of: &'static str,
}

const CREATIONS: &[Creation] = &[
    Creation {
        project: "web",
        name: "c1",
        root: None,
        next: 1,
        rule: Some(Rule::N1),
        of: "a project that is missing",
    },
    Creation {
        project: "default",
        name: "-c1",
        root: None,
        next: 1,
        rule: Some(Rule::N3),
        of: "a malformed name",
    },
    Creation {
        project: "default",
        name: "c1",
        root: None,
        next: 1,
        rule: Some(Rule::V4),
        of: "no root disk",
    },
    Creation {
        project: "default",
        name: "c1",
        root: Some(""),
        next: 1,
        rule: None,
        of: "a root disk",
    },
    Creation {
        project: "full",
        name: "c1",
        root: Some(""),
        next: 1,
        rule: Some(Rule::L1),
        of: "a project that may have no instances",
    },
    Creation {
        project: "pooled",
        name: "c1",
        root: Some(""),
        next: 1,
        rule: Some(Rule::L0),
        of: "no size on a limited pool",
    },
    Creation {
        project: "default",
        name: "c1",
        root: Some(""),
        next: 1_099_511_627_776,
        rule: Some(Rule::O5),
        of: "no number for its operation",
    },
];

/// Creations on a pool that their project limits.
const POOLED: &[Creation] = &[
    Creation {
        project: "pooled",
        name: "c1",
        root: Some("1GiB"),
        next: 1,
        rule: None,
        of: "as much as the limit on a pool",
    },
    Creation {
        project: "pooled",
        name: "c1",
        root: Some("2GiB"),
        next: 1,
        rule: Some(Rule::L9),
        of: "more than the limit on a pool",
    },
];

/// By what the rules are judged that are judged with the claim.
#[derive(Clone, Copy)]
enum Judged {
    /// By all rows.
    Wholly,
    /// By the rows of its project, apart from its limits on pools.
    InItsProject,
    /// By what it claims.
    Alone,
}

/// What each of these instances counts for.
const SHARE: Amounts = Amounts {
    instances: 1,
    containers: 1,
    machines: 0,
    cpu: 0,
    memory: 0,
    processes: 0,
    disk: 0,
};

/// A project, with a limit where one is given.
fn add_project(
    alloc: Global,
    projects: &mut Vec<Project>,
    name: &str,
    limit: (&str, &str),
) -> Result<(), NoMemory> {
    let name = Text::from_text(alloc, name)?;
    let config = config(alloc, &[limit])?;
    projects.push(Project {
        name,
        description: Text::new(alloc),
        config,
    })?;
    Ok(())
}

/// The pool `p0`.
fn add_pool(alloc: Global, pools: &mut Vec<Pool>) -> Result<(), NoMemory> {
    let name = Text::from_text(alloc, "p0")?;
    let config = config(alloc, &[])?;
    pools.push(Pool {
        name,
        driver: Driver::Dir,
        description: Text::new(alloc),
        config,
    })?;
    Ok(())
}

fn fill(alloc: Global, rows: &mut Rows) -> Result<(), NoMemory> {
    let full = ("limits.instances", "0");
    let pooled = ("limits.disk.pool.p0", "1GiB");
    add_project(alloc, &mut rows.projects, "default", ("", ""))?;
    add_project(alloc, &mut rows.projects, "full", full)?;
    add_project(alloc, &mut rows.projects, "pooled", pooled)?;
    add_pool(alloc, &mut rows.pools)
}

/// A body without fields.
fn bare_body() -> Body {
    Body {
        description: None,
        config: None,
        devices: None,
        profiles: None,
        kind: None,
        ephemeral: None,
        driver: None,
        origin: Origin::None,
    }
}

/// A body that gives a root disk in the pool, of this size if one is given, and no profiles.
fn rooted_body(alloc: Global, size: &str) -> Result<Body, NoMemory> {
    let settings = [
        ("type", "disk"),
        ("path", "/"),
        ("pool", "p0"),
        ("size", size),
    ];
    let devices = device(alloc, "root", &settings)?;
    Ok(Body {
        description: None,
        config: None,
        devices: Some(devices),
        profiles: Some(Seq::new(alloc)),
        kind: None,
        ephemeral: None,
        driver: None,
        origin: Origin::None,
    })
}

fn body(alloc: Global, root: Option<&str>) -> Result<Body, NoMemory> {
    match root {
        Some(size) => rooted_body(alloc, size),
        None => Ok(bare_body()),
    }
}

fn target(alloc: Global, name: &str) -> Result<Target, NoMemory> {
    let name = Text::from_text(alloc, name)?;
    Ok(Target {
        kind: ObjectKind::Instance,
        pool: Text::new(alloc),
        instance: Text::new(alloc),
        name,
    })
}

/// The command of a creation.
fn command(alloc: Global, case: Creation) -> Result<Command, NoMemory> {
    let about = both(
        Text::from_text(alloc, case.project),
        target(alloc, case.name),
    );
    let ((project, of), body) = both(about, body(alloc, case.root))?;
    Ok(Command {
        project,
        what: What::Create { of, body },
        expects: None,
    })
}

/// The rules before those that are judged with the claim.
fn asked_broken(alloc: Global, view: &StateRef<'_>, command: &Command) -> Result<(), Or<Refusal>> {
    names_broken(alloc, view, command)?;
    standing_broken(alloc, view, command)
}

/// The rules that are judged with the claim of the last operation.
fn claim_broken(alloc: Global, rows: &Rows, judged: Judged) -> Result<(), Or<Refusal>> {
    match judged {
        Judged::Wholly => later_broken(alloc, rows)?,
        Judged::InItsProject => project_broken(alloc, rows)?,
        Judged::Alone => alone_broken(alloc, rows)?,
    }
    entry_broken(alloc, &rows.before_last())?;
    let after = rows.view();
    claim_tables_broken(alloc, &after, last_claim(&after))
}

/// Settings, policy and limits.
fn later_broken(alloc: Global, rows: &Rows) -> Result<(), Or<Refusal>> {
    let after = rows.view();
    claim_settings_broken(alloc, &after, last_claim(&after))?;
    policy_broken(alloc, &after)?;
    let projects = limited_projects(alloc, after.projects)?;
    counts_broken(alloc, &after, &projects)?;
    let before = usage_before(alloc, &rows.before_last())?;
    let broken = limits_broken(alloc, &before, &after, &projects);
    drop(before);
    broken
}

/// What a project uses of its limits, apart from those on pools.
fn in_use(alloc: Global, view: &StateRef<'_>, project: &str) -> Result<InUse, NoMemory>
    ensures { IfOk result (λ used. length used.pools ≡ 0) }
{
    let amounts = usage_of(alloc, view, project)?;
    let networks = rows_of(view.networks, project).len();
    Ok(InUse {
        amounts,
        networks,
        pools: Seq::new(alloc),
    })
}

/// No limits on pools.
fn no_pools(alloc: Global) -> PoolLimits
    ensures { length result ≡ 0 }
{
    PoolLimits::none(alloc)
}

/// Settings, and policy and limits of the project of the last claim.
fn project_broken(alloc: Global, rows: &Rows) -> Result<(), Or<Refusal>> {
    let after = rows.view();
    claim_settings_broken(alloc, &after, last_claim(&after))?;
    let Some(operation) = after.live.last() else {
        return Ok(());
    };
    let project = operation.work.project.view();
    policy_broken_in(alloc, &after, rows_of(after.projects, project))?;
    let limits = limits_named(&after, project);
    let Some(limited) = limited_named(&after, project, limits) else {
        return Ok(());
    };
    project_without_amount(alloc, &after, &limited)?;
    if !limited.has_limits() {
        return Ok(());
    }
    let before = in_use(alloc, &rows.before_last(), project)?;
    let later = in_use(alloc, &after, project)?;
    uses_exceed(alloc, &limited, &no_pools(alloc), &before, &later)
}

/// What a project uses, where its share is judged by it.
fn used_beside(
    alloc: Global,
    view: &StateRef<'_>,
    project: &str,
    limits: Option<Limits>,
) -> Result<Amounts, NoMemory>
    ensures { IfOk result (λ used. (k : Part) → part k used ≤ 2 ^ 127 + 2 ^ 126) }
{
    if !needs_usage(limits, &SHARE) {
        return Ok(Amounts::zero());
    }
    usage_of(alloc, view, project)
}

/// The size of the root disk among the own devices of a claimed instance.
fn claimed_disk(work: &Task) -> u64 {
    match claimed_instance(work) {
        Some(row) => disk_in(&row.devices).unwrap_or(0),
        None => 0,
    }
}

/// What a claimed instance asks for, as `SHARE` has it, and on the pool.
fn asked(alloc: Global, work: &Task) -> Result<Footprint, NoMemory>
    ensures { IfOk result (λ f. ((k : Part) → part k f.amounts < 2 ^ 80) × (f.on.disk < 2 ^ 80)) }
{
    let pool = Text::from_text(alloc, "p0")?;
    let disk = u128::from(claimed_disk(work));
    Ok(Footprint {
        amounts: SHARE,
        on: PoolPart { pool, disk },
    })
}

/// The same by what the last operation claims alone. Nothing else is on its pool.
fn alone_broken(alloc: Global, rows: &Rows) -> Result<(), Or<Refusal>> {
    let after = rows.view();
    claim_settings_broken(alloc, &after, last_claim(&after))?;
    let Some(operation) = after.live.last() else {
        return Ok(());
    };
    let work = &operation.work;
    let project = work.project.view();
    claim_forbidden(alloc, &after, work)?;
    let limits = limits_named(&after, project);
    let limited = limited_named(&after, project, limits);
    claim_lacks_amount(alloc, &after, &limited, work)?;
    let used = used_beside(alloc, &rows.before_last(), project, limits)?;
    let used = Beside {
        amounts: used,
        on_pool: 0,
    };
    let share = asked(alloc, work)?;
    let broken = share_broken(alloc, &limited, &used, &share);
    drop(share);
    broken
}

/// An operation that waits for its first call.
fn pending(number: u64, work: Task) -> Operation<Task> {
    Operation {
        number,
        created: 9,
        updated: 9,
        status: Status::Pending,
        may_cancel: true,
        fault: OpFault::None,
        work,
    }
}

/// What the creation begins, where it begins something.
fn begun(alloc: Global, view: &StateRef<'_>, command: &Command) -> Result<Option<Task>, NoMemory> {
    match &command.what {
        What::Create { of, body } => instance_creation(alloc, view, &command.project, of, body, 9),
        _ => Ok(None),
    }
}

/// The claim of the last operation.
fn last_claim<'x>(view: &StateRef<'x>) -> Option<&'x Row> {
    match view.live.last() {
        Some(operation) => operation.work.claim.as_ref(),
        None => None,
    }
}

/// Enters what the creation begins, where it begins something.
fn enter(alloc: Global, rows: &mut Rows, command: &Command) -> Result<bool, NoMemory> {
    let Some(work) = begun(alloc, &rows.view(), command)? else {
        return Ok(false);
    };
    let operation = pending(rows.next, work);
    rows.live.push(operation)?;
    Ok(true)
}

/// The first rule that a creation breaks.
fn creation_broken(
    alloc: Global,
    rows: &mut Rows,
    command: &Command,
    judged: Judged,
) -> Result<(), Or<Refusal>> {
    asked_broken(alloc, &rows.view(), command)?;
    if !enter(alloc, rows, command)? {
        return Ok(());
    }
    claim_broken(alloc, rows, judged)
}

/// Whether the answer is this rule, or none.
pub(crate) fn is_rule(answer: Result<(), Or<Refusal>>, rule: Option<Rule>) -> bool {
    match answer {
        Ok(()) => rule.is_none(),
        Err(Or::NoMemory) => false,
        Err(Or::Why(refusal)) => {
            let told = refusal.rule;
            drop(refusal);
            rule == Some(told)
        }
    }
}

fn answers(alloc: Global, rows: &mut Rows, case: Creation, judged: Judged) -> bool {
    match command(alloc, case) {
        Ok(command) => {
            let answer = creation_broken(alloc, rows, &command, judged);
            drop(command);
            is_rule(answer, case.rule)
        }
        Err(_) => false,
    }
}

/// Whether the creation breaks its rule first.
fn breaks(alloc: Global, case: Creation, judged: Judged) -> bool {
    let mut rows = Rows::empty(alloc);
    rows.next = case.next;
    let filled = fill(alloc, &mut rows);
    let right = filled.is_ok() && answers(alloc, &mut rows, case, judged);
    drop(rows);
    right
}

#[test]
fn creations_break_the_first_rule(rt: HostRuntime) {
    for case in CREATIONS {
        assert!(rt; breaks(rt.alloc(), *case, Judged::Wholly), "{}", case.of);
    }
}

#[test]
fn creations_are_judged_alone(rt: HostRuntime) {
    for case in CREATIONS {
        assert!(rt; breaks(rt.alloc(), *case, Judged::Alone), "{}", case.of);
    }
}

#[test]
fn pools_are_judged(rt: HostRuntime) {
    for case in POOLED {
        assert!(rt; breaks(rt.alloc(), *case, Judged::Wholly), "{}", case.of);
        assert!(rt; breaks(rt.alloc(), *case, Judged::Alone), "{}", case.of);
    }
}

#[test]
fn creations_are_judged_in_their_project(rt: HostRuntime) {
    for case in CREATIONS {
        assert!(rt;
            breaks(rt.alloc(), *case, Judged::InItsProject),
            "{}",
            case.of
        );
    }
}
