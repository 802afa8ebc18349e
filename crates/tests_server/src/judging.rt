//! What has to stand after each turn.

use crate::server::{POOLS, Said, Server, Usage};
use operations::Operation;
use records::Project;
use reservations::Hold;
use row_machine::Task;
use row_readings::StateRef;
use size_values::{Amounts, read_count, read_size};
use tests_given::{Sums, claim_sum_on, claim_sums, project_named, sum_on, sums_of};

/// The projects of a random run.
pub(crate) const PROJECTS: [&str; 4] = ["default", "lab", "off", "shop"];

/// How many rows of each kind there are, how many operations are live and ended, the next number,
/// and what each project uses.
pub(crate) type Mark = ([usize; 9], u64, [Sums; 4]);

/// A mark of what the server shows.
pub(crate) fn mark_of(view: &StateRef<'_>) -> Mark {
    let counts = [
        view.projects.len(),
        view.profiles.len(),
        view.networks.len(),
        view.pools.len(),
        view.volumes.len(),
        view.instances.len(),
        view.snapshots.len(),
        view.live.len(),
        view.ended.len(),
    ];
    let sums = PROJECTS.map(|project| sums_of(view, project));
    (counts, view.next, sums)
}

/// Whether an answer is to a request that may change something: it was carried out at once, or began in the
/// background. It was not refused, by its form either, nor was memory.
pub(crate) fn may_change(said: Said) -> bool {
    matches!(said, Said::Done | Said::Begun(_))
}

/// What is used, as a share counts it.
fn share_of(sums: Sums) -> [u128; 7] {
    [
        sums.instances,
        sums.containers,
        sums.machines,
        sums.cpu,
        sums.memory,
        sums.processes,
        sums.disk,
    ]
}

/// The keys of limits among the settings of a project.
const KEYS: [&str; 8] = [
    "limits.instances",
    "limits.containers",
    "limits.virtual-machines",
    "limits.cpu",
    "limits.memory",
    "limits.processes",
    "limits.disk",
    "limits.networks",
];

/// The keys of limits on the pools of random runs.
const POOL_KEYS: [&str; 2] = ["limits.disk.pool.p0", "limits.disk.pool.p1"];

/// The limit that a project sets.
fn limit_of(project: &Project, key: &str) -> Option<u64> {
    let value = project.config.get(key)?;
    match key {
        "limits.memory" | "limits.disk" => read_size(value).ok(),
        _ => read_count(value, 0, u64::MAX).ok(),
    }
}

/// The most that a limit allows.
fn most_of(limit: Option<u64>) -> u128 {
    match limit {
        Some(limit) => u128::from(limit),
        None => u128::MAX,
    }
}

/// Whether this is what the rows and operations of a project use, and its limits, and it is within them. The last
/// limit, that of networks, is in no share.
fn is_right(project: &Project, sums: Sums, usage: Usage) -> bool {
    let share = share_of(sums);
    let mut is_so = true;
    for place in 0..8 {
        let (used, limit) = usage.sums[place];
        is_so = is_so
            && used == share.get(place).copied().unwrap_or(sums.networks)
            && limit == limit_of(project, KEYS[place])
            && used <= most_of(limit);
    }
    is_so
}

/// Whether this is what a project uses of the pool of this key, and its limit there, and it is within it. A pool that it
/// does not limit is not told.
fn is_right_on(project: &Project, key: &str, sum: u128, told: Option<(u128, Option<u64>)>) -> bool {
    match (told, project.config.get(key)) {
        (Some((used, limit)), Some(value)) => {
            used == sum && limit == read_size(value).ok() && used <= most_of(limit)
        }
        (None, None) => true,
        _ => false,
    }
}

/// Whether all that the server tells of a project is so.
fn is_all_right(view: &StateRef<'_>, project: &Project, name: &str, usage: Usage) -> bool {
    let mut is_so = is_right(project, sums_of(view, name), usage);
    for place in 0..2 {
        let sum = sum_on(view, name, POOLS[place]);
        is_so = is_so && is_right_on(project, POOL_KEYS[place], sum, usage.pools[place]);
    }
    is_so
}

/// Whether the server tells what a project uses, within its limits.
fn stands(server: &mut Server, name: &str) -> bool {
    let Ok(line) = format!(in server.alloc; "GET /1.0/projects/{name}/state") else {
        return false;
    };
    let usage = server.usage(line.as_str());
    drop(line);
    let view = server.view();
    match (project_named(&view, name), usage) {
        (Some(project), Some(usage)) => is_all_right(&view, project, name, usage),
        _ => false,
    }
}

/// The parts of an amount.
fn parts_of(amounts: &Amounts) -> [u128; 7] {
    [
        amounts.instances,
        amounts.containers,
        amounts.machines,
        amounts.cpu,
        amounts.memory,
        amounts.processes,
        amounts.disk,
    ]
}

/// One part of all shares that are held.
fn held_in(held: &[Hold], place: usize) -> u128 {
    let mut sum = 0u128;
    for hold in held {
        let part = parts_of(&hold.share).get(place).copied().unwrap_or(0);
        sum = sum.saturating_add(part);
    }
    sum
}

/// Whether all that was ever granted on pools was converted, returned or is held.
fn pools_balance(view: &StateRef<'_>) -> bool {
    let books = view.books;
    let mut sum = books.pool_converted.saturating_add(books.pool_returned);
    for hold in view.held {
        sum = sum.saturating_add(hold.part.disk);
    }
    books.pool_granted == sum
}

/// Whether all that was ever granted was converted, returned or is held.
fn books_balance(view: &StateRef<'_>) -> bool {
    let granted = parts_of(&view.books.granted);
    let converted = parts_of(&view.books.converted);
    let returned = parts_of(&view.books.returned);
    let mut balance = true;
    for place in 0..7 {
        let sum = converted[place].saturating_add(returned[place]);
        let sum = sum.saturating_add(held_in(view.held, place));
        balance = balance && granted[place] == sum;
    }
    balance
}

/// Whether an operation holds what the row needs that it would put, above what that row replaces,
/// by the profiles as they are now. Where it would put none, it holds nothing.
fn holds_its_share(view: &StateRef<'_>, operation: &Operation<Task>) -> bool {
    match view.held.iter().find(|hold| hold.op == operation.number) {
        Some(hold) => {
            parts_of(&hold.share) == share_of(claim_sums(view, &operation.work))
                && holds_its_part(view, hold, &operation.work)
        }
        None => false,
    }
}

/// Whether what is held is on the pools of the row that the operation would put, and on no others.
fn holds_its_part(view: &StateRef<'_>, hold: &Hold, work: &Task) -> bool {
    let mut all = 0u128;
    let mut is_so = true;
    for pool in POOLS {
        let sum = claim_sum_on(view, work, pool);
        all = all.saturating_add(sum);
        is_so = is_so && hold.part.on(pool) == sum;
    }
    is_so && hold.part.disk == all
}

/// Whether the books balance, and each live operation, of which there are not too many, holds its
/// share.
fn shares_stand(view: &StateRef<'_>) -> bool {
    view.held.len() == view.live.len()
        && view.live.len() <= 1_024
        && view.ended.len() <= 256
        && view
            .live
            .iter()
            .all(|operation| holds_its_share(view, operation))
        && books_balance(view)
        && pools_balance(view)
}

/// Whether all stands as it should: what the server tells of each project, and what its operations
/// hold.
pub(crate) fn all_stands(server: &mut Server) -> bool {
    let mut is_so = true;
    for project in PROJECTS {
        is_so = is_so && stands(server, project);
    }
    is_so && shares_stand(&server.view())
}
