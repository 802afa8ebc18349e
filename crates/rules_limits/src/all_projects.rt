//! L1 to L9 of all projects: that each stands within its limits.
ghost use Rattle.std.specs.Prelude.{◌≡◌, ◌<◌, ◌^◌, filter, length};
ghost use Rattle.std.specs.Str.{bytes_eq};
ghost use Rattle.plain_lists.specs.Firsts.{first_of};
ghost use Rattle.size_values.specs.Causes.{Says};
ghost use Rattle.row_machine.specs.facts.Whole.{Rise};
ghost use Rattle.row_machine.specs.machine.Rows.{project_names};
ghost use Rattle.row_machine.specs.machine.State.{State};
ghost use Rattle.row_machine.specs.machine.Usage.{loads};
ghost use Rattle.row_machine.specs.machine.LimitRules.{limits_broken};
ghost use Rattle.row_readings.specs.Loads.{AreSmall};
ghost use Rattle.rules_limits.specs.Counting.{counts_in};
ghost use Rattle.rules_limits.specs.AllProjects.{parts_over, networks_over, all_over, Serves};
ghost use Rattle.rules_limits.specs.Sums.{line_over, lines, lines_over};

use crate::exceeded::{limit_exceeded, line_exceeds};
use crate::limited::{Limited, is_any_limited, limited_projects};
use crate::parts::PARTS;
use crate::pool_lines::pools_exceed;
use crate::sums::sums_of;
use crate::usage::{Usage, usage_before};
use project_limits::LimitKey;
use records::{Network, Project, Refusal};
use row_readings::{Load, StateRef, loads};
use size_values::{Amounts, Or, Part, Text};
use std::alloc::Global;

// ---- the parts of what projects use

/// By the sums of each project, at its place.
fn part_exceeds(
    alloc: Global,
    part: Part,
    projects: &[Limited<'_>],
    before: &[Amounts],
    after: &[Amounts],
) -> Result<(), Or<Refusal>>
    requires before { length before.now ≡ length projects.now }
    requires after { length after.now ≡ length projects.now }
    ensures { Says result (first_of (line_over part) (lines projects.now before.now after.now)) }
{
    for (place, project) in projects.iter().enumerate() {
        if let Err(why) = line_exceeds(alloc, part, project, &before[place], &after[place]) {
            return Err(why);
        }
    }
    Ok(())
}

fn sums_exceed(
    alloc: Global,
    projects: &[Limited<'_>],
    before: &[Amounts],
    after: &[Amounts],
) -> Result<(), Or<Refusal>>
    requires before { length before.now ≡ length projects.now }
    requires after { length after.now ≡ length projects.now }
    ensures { Says result (lines_over (lines projects.now before.now after.now)) }
{
    for part in PARTS {
        if let Err(why) = part_exceeds(alloc, part, projects, before, after) {
            return Err(why);
        }
    }
    Ok(())
}

/// The first part of what projects use that is above its limit, and the first project at which it is. What counts is
/// summed once for all projects.
fn parts_exceed(
    alloc: Global,
    before: &[Load],
    after: &[Load],
    projects: &[Project],
    limited: &[Limited<'_>],
) -> Result<(), Or<Refusal>>
    requires rising { Rise project_names projects.now }
    requires before { AreSmall before.now }
    requires after { AreSmall after.now }
    requires same { limited.now ≡ projects.now }
    ensures { Says result (parts_over before.now after.now projects.now) }
{
    let before = sums_of(alloc, before, projects)?;
    let after = sums_of(alloc, after, projects)?;
    sums_exceed(alloc, limited, &before, &after)
}

// ---- the number of networks

fn networks_before(names: &[Text], project: &Text) -> u128
    ensures count { result ≡ length (filter (λ name. bytes_eq name project.now) names.now) }
    ensures few { result < 2 ^ 126 }
{
    names.iter().filter(|name| name.is(project)).count() as u128
}

fn networks_after(networks: &[Network], project: &Text) -> u128
    ensures count { result ≡ length (filter (λ n. bytes_eq n.project project.now) networks.now) }
    ensures few { result < 2 ^ 126 }
{
    networks
        .iter()
        .filter(|network| network.project.is(project))
        .count() as u128
}

fn count_exceeds(
    alloc: Global,
    before: &[Text],
    after: &[Network],
    project: &Limited<'_>,
) -> Result<(), Or<Refusal>>
    ensures { Says result (networks_over before.now after.now project.now) }
{
    let Some(limit) = project.limits().networks else {
        return Ok(());
    };
    let name = project.name();
    let before = networks_before(before, name);
    let after = networks_after(after, name);
    limit_exceeded(alloc, project, LimitKey::Networks, limit, before, after)
}

/// The first project of which the number of networks is above its limit.
fn networks_exceed(
    alloc: Global,
    before: &[Text],
    after: &[Network],
    projects: &[Limited<'_>],
) -> Result<(), Or<Refusal>>
    ensures { Says result (first_of (networks_over before.now after.now) projects.now) }
{
    for project in projects {
        if let Err(why) = count_exceeds(alloc, before, after, project) {
            return Err(why);
        }
    }
    Ok(())
}

// ---- all limits

/// By all that counts after the change.
fn uses_exceed(
    alloc: Global,
    before: &Usage,
    all: &[Load],
    after: &StateRef<'_>,
    projects: &[Limited<'_>],
) -> Result<(), Or<Refusal>>
    requires all { all.now ≡ loads after.now }
    requires small { AreSmall all.now }
    requires same { projects.now ≡ after.now.projects }
    ensures { Says result (all_over before.now after.now) }
{
    parts_exceed(alloc, before.loads(), all, after.projects, projects)?;
    networks_exceed(alloc, before.networks(), after.networks, projects)?;
    pools_exceed(alloc, before.loads(), all, after.projects)
}

fn limits_exceed(
    alloc: Global,
    before: &Usage,
    after: &StateRef<'_>,
    projects: &[Limited<'_>],
) -> Result<(), Or<Refusal>>
    requires { projects.now ≡ after.now.projects }
    ensures { Says result (all_over before.now after.now) }
{
    let all = loads(alloc, after)?;
    let exceeded = uses_exceed(alloc, before, &all, after, projects);
    drop(all);
    exceeded
}

/// L1 to L9 of all projects, each with its limits: the first limit that is exceeded, and the first project at which it
/// is. `before` is what counted before the change. Where no project has a limit after it, nothing is summed.
pub fn limits_broken(
    alloc: Global,
    before: &Usage,
    after: &StateRef<'_>,
    projects: &[Limited<'_>],
) -> Result<(), Or<Refusal>>
    requires { projects.now ≡ after.now.projects }
    ensures counted { (s : State) → before.now ≡ counts_in s → Says result (limits_broken s after.now) }
    ensures serving { (s : State) → Serves before.now s after.now → Says result (limits_broken s after.now) }
{
    if !is_any_limited(projects) {
        return Ok(());
    }
    limits_exceed(alloc, before, after, projects)
}

/// L1 to L9 of all projects as they stand, without a change: the first limit that is exceeded, and the first project at
/// which it is. Where no project has a limit, nothing is summed.
pub fn standing_limits_broken(alloc: Global, view: &StateRef<'_>) -> Result<(), Or<Refusal>>
    ensures { Says result (limits_broken view.now view.now) }
{
    let projects = limited_projects(alloc, view.projects)?;
    if !is_any_limited(&projects) {
        return Ok(());
    }
    let before = usage_before(alloc, view)?;
    let exceeded = limits_exceed(alloc, &before, view, &projects);
    drop(before);
    exceeded
}
