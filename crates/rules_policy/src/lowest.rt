//! The least number of a rule on policy that is broken, in one walk over the projects.
ghost use Rattle.std.specs.Prelude.{IfOk};
ghost use Rattle.plain_lists.specs.Firsts.{first_of};
ghost use Rattle.row_machine.specs.machine.PolicyRules.{project_forbids};
ghost use Rattle.rules_policy.specs.Lowest.{HoldBelow};
ghost use Rattle.rules_policy.specs.Within.{own_profile, own_instance, own_claim};

use crate::restricted::{Restricted, subject_of};
use operations::Operation;
use records::{Instance, Profile, Project};
use restrictions::{Subject, is_restricted};
use row_machine::Task;
use row_readings::{StateRef, claimed_instance, rows_of};
use size_values::{Boxed, NoMemory};
use std::alloc::Global;

#[tactic(auto, unfolding(row_machine::specs::machine::PolicyRules::forbids_profile))]
fn lowest_of_profile(project: &Restricted<'_>, profile: &Profile) -> u8
    ensures { HoldBelow result (λ n. own_profile project.now n profile.now) }
{
    if !project.has(&profile.project) {
        return u8::MAX;
    }
    project.lowest_rule(Subject::Profile, &profile.config, &profile.devices)
}

fn lowest_of_profiles(project: &Restricted<'_>, profiles: &[Boxed<Profile>]) -> u8
    ensures { HoldBelow result (λ n. first_of (own_profile project.now n) profiles.now) }
{
    let mut lowest = u8::MAX;
    for profile in profiles {
        lowest = lowest.min(lowest_of_profile(project, profile));
    }
    lowest
}

/// The same of all profiles. Those of other projects are not gone over.
fn lowest_of_own_profiles(view: &StateRef<'_>, project: &Restricted<'_>) -> u8
    ensures { HoldBelow result (λ n. first_of (own_profile project.now n) view.now.profiles) }
{
    lowest_of_profiles(project, rows_of(view.profiles, project.name()))
}

#[tactic(auto, unfolding(row_machine::specs::machine::PolicyRules::forbids_instance))]
fn lowest_of_instance(
    alloc: Global,
    view: &StateRef<'_>,
    project: &Restricted<'_>,
    row: &Instance,
) -> Result<u8, NoMemory>
    ensures { IfOk result (λ lowest. HoldBelow lowest (λ n. own_instance view.now project.now n row.now)) }
{
    if !project.has(&row.project) {
        return Ok(u8::MAX);
    }
    let expanded = view.expansion(alloc, row)?;
    let lowest = project.lowest_rule(subject_of(row.kind), &expanded.config, &expanded.devices);
    drop(expanded);
    Ok(lowest)
}

fn lowest_of_instances(
    alloc: Global,
    view: &StateRef<'_>,
    project: &Restricted<'_>,
    rows: &[Boxed<Instance>],
) -> Result<u8, NoMemory>
    ensures { IfOk result (λ lowest. HoldBelow lowest (λ n. first_of (own_instance view.now project.now n) rows.now)) }
{
    let mut lowest = u8::MAX;
    for row in rows {
        let found = lowest_of_instance(alloc, view, project, row)?;
        lowest = lowest.min(found);
    }
    Ok(lowest)
}

/// The same of all instances. Those of other projects are not gone over.
fn lowest_of_own_instances(
    alloc: Global,
    view: &StateRef<'_>,
    project: &Restricted<'_>,
) -> Result<u8, NoMemory>
    ensures { IfOk result
        (λ lowest. HoldBelow lowest (λ n. first_of (own_instance view.now project.now n) view.now.instances)) }
{
    lowest_of_instances(
        alloc,
        view,
        project,
        rows_of(view.instances, project.name()),
    )
}

pub(crate) fn lowest_of_claim(
    alloc: Global,
    view: &StateRef<'_>,
    project: &Restricted<'_>,
    work: &Task,
) -> Result<u8, NoMemory>
    ensures { IfOk result (λ lowest. HoldBelow lowest (λ n. own_claim view.now project.now n work.now)) }
{
    match claimed_instance(work) {
        Some(row) => lowest_of_instance(alloc, view, project, row),
        None => Ok(u8::MAX),
    }
}

fn lowest_of_claims(
    alloc: Global,
    view: &StateRef<'_>,
    project: &Restricted<'_>,
    live: &[Operation<Task>],
) -> Result<u8, NoMemory>
    ensures { IfOk result
        (λ lowest. HoldBelow lowest (λ n. first_of (λ o. own_claim view.now project.now n o.work) live.now)) }
{
    let mut lowest = u8::MAX;
    for operation in live {
        let found = lowest_of_claim(alloc, view, project, &operation.work)?;
        lowest = lowest.min(found);
    }
    Ok(lowest)
}

/// A project that is not restricted breaks none, whatever it has.
fn lowest_of_project(alloc: Global, view: &StateRef<'_>, project: &Project) -> Result<u8, NoMemory>
    ensures { IfOk result (λ lowest. HoldBelow lowest (λ n. project_forbids view.now n project.now)) }
{
    if !is_restricted(&project.config) {
        return Ok(u8::MAX);
    }
    let project = Restricted::new(project);
    let profiles = lowest_of_own_profiles(view, &project);
    let instances = lowest_of_own_instances(alloc, view, &project)?;
    let claims = lowest_of_claims(alloc, view, &project, view.live)?;
    Ok(profiles.min(instances).min(claims))
}

/// The number of the first rule that is broken, or one above them all: no rule of a lower number is broken.
pub(crate) fn lowest_broken(
    alloc: Global,
    view: &StateRef<'_>,
    projects: &[Project],
) -> Result<u8, NoMemory>
    ensures { IfOk result (λ lowest. HoldBelow lowest (λ n. first_of (project_forbids view.now n) projects.now)) }
{
    let mut lowest = u8::MAX;
    for project in projects {
        let found = lowest_of_project(alloc, view, project)?;
        lowest = lowest.min(found);
    }
    Ok(lowest)
}
