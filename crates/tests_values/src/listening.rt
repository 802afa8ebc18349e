//! What a listener gets of the notices that were pushed.
ghost use Rattle.std.specs.Prelude.{◌≤◌, length};
ghost use Rattle.event_hub.specs.Short.{most_bytes};
ghost use Rattle.event_hub.specs.Telling.{IsShort};

use event_hub::{About, Hub, Progress};
use records::{EventBody, Filter, Life, Notice, OpFault, Status, Untold};
use row_machine::Fetched;
use size_values::{NoMemory, ObjectKind, Text};
use std::alloc::Global;

/// A notice of a project: of an action, or of an operation.
#[derive(Clone, Copy)]
enum Push {
    Life(&'static str),
    Operation(&'static str),
}

/// What a listener asks for: from this number on, with actions, with operations, of this project.
type Ask = (u64, bool, bool, &'static str);

/// What it gets: the notices of these numbers and the next number, or all of the numbers from the first
/// to the next one; or that it has lagged, with the number that it asked for and the oldest one; or first the notice of
/// the running operation on `c1` in this project.
#[derive(Clone, Copy)]
enum Got {
    Numbers(&'static [u64], u64),
    All(u64, u64),
    Lagged(u64, u64),
    Running(&'static str),
}

const PUSHES: &[Push] = &[
    Push::Life("lab"),
    Push::Operation("lab"),
    Push::Life("default"),
    Push::Operation("default"),
    Push::Operation("lab"),
];

/// Over these notices, numbered from 1.
const ASKS: &[(Ask, Got)] = &[
    ((0, true, true, "lab"), Got::Numbers(&[], 6)),
    ((1, true, true, "lab"), Got::Numbers(&[1, 2, 5], 6)),
    ((2, true, true, "lab"), Got::Numbers(&[2, 5], 6)),
    ((1, true, false, "lab"), Got::Numbers(&[1], 6)),
    ((1, false, true, "lab"), Got::Numbers(&[2, 5], 6)),
    ((1, false, false, "lab"), Got::Numbers(&[], 6)),
    ((1, true, true, "default"), Got::Numbers(&[3, 4], 6)),
    ((4, true, true, "default"), Got::Numbers(&[4], 6)),
    ((1, true, true, "la"), Got::Numbers(&[], 6)),
    ((6, true, true, "lab"), Got::Numbers(&[], 6)),
    ((9, true, true, "lab"), Got::Numbers(&[], 6)),
];

/// Before anything is pushed.
const FIRST_ASKS: &[(Ask, Got)] = &[
    ((0, true, true, "lab"), Got::Numbers(&[], 1)),
    ((1, true, true, "lab"), Got::Numbers(&[], 1)),
];

/// After 1,025 notices, of which the first is gone.
const LAST_ASKS: &[(Ask, Got)] = &[
    ((0, true, true, "lab"), Got::Numbers(&[], 1026)),
    ((1, true, true, "lab"), Got::Lagged(1, 2)),
    ((2, true, true, "lab"), Got::All(2, 1026)),
    ((1024, true, true, "lab"), Got::Numbers(&[1024, 1025], 1026)),
    ((2, false, true, "lab"), Got::Numbers(&[], 1026)),
];

/// An operation is told with its texts.
const RUNNING_ASKS: &[(Ask, Got)] = &[((1, false, true, "lab"), Got::Running("lab"))];

/// Notices, how often all of them are pushed to a new hub, and what listeners get then.
const RUNS: &[(&[Push], usize, &[(Ask, Got)])] = &[
    (&[], 1, FIRST_ASKS),
    (PUSHES, 1, ASKS),
    (&[Push::Life("lab")], 1025, LAST_ASKS),
    (&[Push::Operation("lab")], 1, RUNNING_ASKS),
];

const RUNNING: Progress = Progress {
    moment: 1_700_000_001,
    number: 7,
    status: Status::Running,
    may_cancel: true,
    created: 1_700_000_000,
    updated: 1_700_000_001,
    fault: OpFault::None,
};

/// An instance of a project.
fn instance_in(project: &'static str) -> About<'static>
    requires { length project.now ≤ most_bytes }
    ensures { IsShort result }
{
    About {
        project,
        kind: ObjectKind::Instance,
        pool: "",
        instance: "",
        name: "c1",
    }
}

fn started_in(alloc: Global, project: &str) -> Result<Untold, NoMemory> {
    let source = Text::from_text(alloc, "/1.0/instances/c1")?;
    let project = Text::from_text(alloc, project)?;
    Ok(Untold {
        moment: 1_700_000_001,
        project,
        body: EventBody::Life {
            action: Life::InstanceStarted,
            source,
        },
    })
}

/// Whether the notice was made.
fn is_pushed(alloc: Global, hub: &mut Hub, push: Push) -> bool {
    match push {
        Push::Life(project) => match started_in(alloc, project) {
            Ok(notice) => {
                hub.push(notice);
                true
            }
            Err(_) => false,
        },
        Push::Operation(project) => {
            if project.len() > 63 {
                return false;
            }
            hub.push_operation(RUNNING, instance_in(project));
            true
        }
    }
}

fn filter_of(alloc: Global, ask: Ask) -> Result<Filter, NoMemory> {
    Ok(Filter {
        life: ask.1,
        op: ask.2,
        project: Text::from_text(alloc, ask.3)?,
    })
}

fn have_numbers(notices: &[Notice], numbers: &[u64]) -> bool {
    notices
        .iter()
        .map(|notice| notice.number)
        .eq(numbers.iter().copied())
}

/// Whether the notices are those of all numbers from the first up to the next one.
fn have_all(notices: &[Notice], first: u64, next: u64) -> bool {
    notices.iter().map(|notice| notice.number).eq(first..next)
}

/// Whether it is the notice of the running operation on `c1` in the project.
fn is_running(notice: &Notice, project: &str) -> bool {
    match &notice.body {
        EventBody::Op(view) => {
            (view.number == 7)
                & (view.status == Status::Running)
                & (view.project.view() == project)
                & (view.target.name.view() == "c1")
                & (notice.project.view() == project)
        }
        EventBody::Life { .. } => false,
    }
}

fn is_got(fetched: &Fetched, got: Got) -> bool {
    match (fetched, got) {
        (Fetched::Notices(notices, next), Got::Numbers(numbers, wanted)) => {
            (*next == wanted) & have_numbers(notices.view(), numbers)
        }
        (Fetched::Notices(notices, next), Got::All(first, wanted)) => {
            (*next == wanted) & have_all(notices.view(), first, wanted)
        }
        (Fetched::Notices(notices, _), Got::Running(project)) => {
            !notices.is_empty() && is_running(notices.at(0), project)
        }
        (Fetched::Lagged { cursor, oldest }, Got::Lagged(asked, wanted)) => {
            (*cursor == asked) & (*oldest == wanted)
        }
        _ => false,
    }
}

/// Whether a listener that asks gets this.
fn gets(alloc: Global, hub: &Hub, ask: Ask, got: Got) -> bool {
    let Ok(filter) = filter_of(alloc, ask) else {
        return false;
    };
    let fetched = hub.since(alloc, ask.0, &filter);
    drop(filter);
    let is = match &fetched {
        Ok(fetched) => is_got(fetched, got),
        Err(_) => false,
    };
    drop(fetched);
    is
}

/// Whether all of the notices were made, and each ask gets then what stands beside it.
fn all_get(
    alloc: Global,
    hub: &mut Hub,
    pushes: &[Push],
    times: usize,
    asks: &[(Ask, Got)],
) -> bool {
    let mut all = true;
    for _ in 0..times {
        for push in pushes {
            all &= is_pushed(alloc, hub, *push);
        }
    }
    for (ask, got) in asks {
        all &= gets(alloc, hub, *ask, *got);
    }
    all
}

/// Whether a new hub to which these notices were pushed gives each ask what stands beside it.
fn hears(alloc: Global, pushes: &[Push], times: usize, asks: &[(Ask, Got)]) -> bool {
    let Ok(mut hub) = Hub::new(alloc) else {
        return false;
    };
    let hears = all_get(alloc, &mut hub, pushes, times, asks);
    drop(hub);
    hears
}

#[test]
fn listeners_get_what_they_ask_for(rt: HostRuntime) {
    for (number, (pushes, times, asks)) in RUNS.iter().enumerate() {
        assert!(rt; hears(rt.alloc(), pushes, *times, asks), "run {number}");
    }
}
