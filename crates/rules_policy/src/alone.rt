//! The rules on policy for a new operation, by what it claims alone, and for a new profile, by what it has: where all
//! facts hold before it, nothing else can break them.
ghost use Rattle.std.specs.Prelude.{IfOk};
ghost use Rattle.plain_lists.specs.Firsts.{first_of};
ghost use Rattle.size_values.specs.Causes.{Says};
ghost use Rattle.rules_policy.specs.Alone.{claim_forbidden, claim_forbidden_in, first_forbids, profile_forbidden};
ghost use Rattle.rules_policy.specs.Lowest.{HoldBelow};
ghost use Rattle.rules_policy.specs.Within.{own_claim};

use crate::lowest::lowest_of_claim;
use crate::policy::{NUMBERS, claim_forbids};
use crate::restricted::Restricted;
use records::{Profile, Project, Refusal};
use restrictions::{Subject, is_restricted};
use row_machine::Task;
use row_readings::{StateRef, claimed_instance, rows_of};
use size_values::{NoMemory, Or};
use std::alloc::Global;

/// The number of the first rule that a claim breaks in a project, or one above them all. A project that is not
/// restricted breaks none.
fn lowest_in(
    alloc: Global,
    view: &StateRef<'_>,
    project: &Project,
    work: &Task,
) -> Result<u8, NoMemory>
    ensures { IfOk result (λ lowest. HoldBelow lowest (λ n. own_claim view.now project.now n work.now)) }
{
    if !is_restricted(&project.config) {
        return Ok(u8::MAX);
    }
    lowest_of_claim(alloc, view, &Restricted::new(project), work)
}

/// The same over all projects.
fn lowest_in_all(
    alloc: Global,
    view: &StateRef<'_>,
    projects: &[Project],
    work: &Task,
) -> Result<u8, NoMemory>
    ensures { IfOk result (λ lowest.
        HoldBelow lowest (λ n. first_of (λ p. own_claim view.now p n work.now) projects.now)) }
{
    let mut lowest = u8::MAX;
    for project in projects {
        let found = lowest_in(alloc, view, project, work)?;
        lowest = lowest.min(found);
    }
    Ok(lowest)
}

fn project_forbids(
    alloc: Global,
    view: &StateRef<'_>,
    number: u8,
    project: &Project,
    work: &Task,
) -> Result<(), Or<Refusal>>
    ensures { Says result (own_claim view.now project.now number work.now) }
{
    if !is_restricted(&project.config) {
        return Ok(());
    }
    claim_forbids(alloc, view, &Restricted::new(project), number, work)
}

fn projects_forbid(
    alloc: Global,
    view: &StateRef<'_>,
    number: u8,
    projects: &[Project],
    work: &Task,
) -> Result<(), Or<Refusal>>
    ensures { Says result (first_of (λ p. own_claim view.now p number work.now) projects.now) }
{
    for project in projects {
        if let Err(why) = project_forbids(alloc, view, number, project, work) {
            return Err(why);
        }
    }
    Ok(())
}

/// The rule of this number. It is not asked where it is known to hold.
fn number_forbids(
    alloc: Global,
    view: &StateRef<'_>,
    lowest: u8,
    number: u8,
    projects: &[Project],
    work: &Task,
) -> Result<(), Or<Refusal>>
    requires { HoldBelow lowest (λ n. first_of (λ p. own_claim view.now p n work.now) projects.now) }
    ensures { Says result (first_of (λ p. own_claim view.now p number work.now) projects.now) }
{
    if number < lowest {
        return Ok(());
    }
    projects_forbid(alloc, view, number, projects, work)
}

/// The first rule on policy that the instance breaks, and the first of these projects that forbids it.
fn claim_forbidden_in(
    alloc: Global,
    view: &StateRef<'_>,
    projects: &[Project],
    work: &Task,
) -> Result<(), Or<Refusal>>
    ensures { Says result (claim_forbidden_in view.now projects.now work.now) }
{
    let lowest = lowest_in_all(alloc, view, projects, work)?;
    for number in NUMBERS {
        if let Err(why) = number_forbids(alloc, view, lowest, number, projects, work) {
            return Err(why);
        }
    }
    Ok(())
}

/// F1 to F7: the first rule on policy that the instance breaks which an operation would put, in the project that it
/// would stand in. No other project is asked.
pub fn claim_forbidden(alloc: Global, view: &StateRef<'_>, work: &Task) -> Result<(), Or<Refusal>>
    ensures { Says result (claim_forbidden view.now work.now) }
{
    match claimed_instance(work) {
        Some(row) => {
            let projects = rows_of(view.projects, row.project.view());
            claim_forbidden_in(alloc, view, projects, work)
        }
        None => Ok(()),
    }
}

/// The rule of the first thing that a project forbids of what a profile has. One that is not restricted forbids nothing.
#[tactic(auto, unfolding(row_machine::specs::machine::PolicyRules::forbids_profile))]
fn first_forbids(alloc: Global, project: &Project, profile: &Profile) -> Result<(), Or<Refusal>>
    ensures { Says result (first_forbids project.now profile.now) }
{
    if !is_restricted(&project.config) {
        return Ok(());
    }
    let project = Restricted::new(project);
    let subject = Subject::Profile;
    let Some(found) = project.first_forbidden(subject, &profile.config, &profile.devices) else {
        return Ok(());
    };
    project.forbids(
        alloc,
        found.rule,
        subject,
        profile.name.view(),
        &profile.config,
        &profile.devices,
    )
}

/// F1 to F7: the first rule on policy that a profile breaks in its project. Nothing else is asked: no other project
/// judges it.
#[tactic(auto, unfolding(crate::specs::Alone::profile_forbidden))]
pub fn profile_forbidden(
    alloc: Global,
    view: &StateRef<'_>,
    profile: &Profile,
) -> Result<(), Or<Refusal>>
    ensures { Says result (profile_forbidden view.now profile.now) }
{
    match view.project_named(profile.project.view()) {
        Some(project) => first_forbids(alloc, project, profile),
        None => Ok(()),
    }
}
