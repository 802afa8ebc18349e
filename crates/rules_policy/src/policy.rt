//! Rules on policy: F1 to F7.
ghost use Rattle.plain_lists.specs.Firsts.{first_of};
ghost use Rattle.size_values.specs.Causes.{Says};
ghost use Rattle.row_machine.specs.machine.PolicyRules.{project_forbids, policy_broken};
ghost use Rattle.rules_policy.specs.Lowest.{HoldBelow};
ghost use Rattle.rules_policy.specs.Within.{own_profile, own_instance, own_claim, own_objects, policy_broken_in};

use crate::lowest::lowest_broken;
use crate::restricted::{Restricted, subject_of};
use operations::Operation;
use records::{Instance, Profile, Project, Refusal};
use restrictions::{Subject, is_restricted};
use row_machine::Task;
use row_readings::{StateRef, claimed_instance, rows_of};
use size_values::{Boxed, Or};
use std::alloc::Global;

/// The numbers of the rules on policy.
pub(crate) const NUMBERS: [u8; 7] = [1, 2, 3, 4, 5, 6, 7];

#[tactic(auto, unfolding(row_machine::specs::machine::PolicyRules::forbids_profile))]
fn profile_forbids(
    alloc: Global,
    project: &Restricted<'_>,
    number: u8,
    profile: &Profile,
) -> Result<(), Or<Refusal>>
    ensures { Says result (own_profile project.now number profile.now) }
{
    if !project.has(&profile.project) {
        return Ok(());
    }
    project.forbids(
        alloc,
        number,
        Subject::Profile,
        profile.name.view(),
        &profile.config,
        &profile.devices,
    )
}

/// The first profile of the project that breaks the rule.
fn profiles_forbid(
    alloc: Global,
    project: &Restricted<'_>,
    number: u8,
    profiles: &[Boxed<Profile>],
) -> Result<(), Or<Refusal>>
    ensures { Says result (first_of (own_profile project.now number) profiles.now) }
{
    for profile in profiles {
        if let Err(why) = profile_forbids(alloc, project, number, profile) {
            return Err(why);
        }
    }
    Ok(())
}

/// The same of all profiles. Those of other projects are not gone over.
fn own_profiles_forbid(
    alloc: Global,
    view: &StateRef<'_>,
    number: u8,
    project: &Restricted<'_>,
) -> Result<(), Or<Refusal>>
    ensures { Says result (first_of (own_profile project.now number) view.now.profiles) }
{
    profiles_forbid(
        alloc,
        project,
        number,
        rows_of(view.profiles, project.name()),
    )
}

/// An instance of the project is judged by what it has.
#[tactic(auto, unfolding(row_machine::specs::machine::PolicyRules::forbids_instance))]
fn instance_forbids(
    alloc: Global,
    view: &StateRef<'_>,
    project: &Restricted<'_>,
    number: u8,
    row: &Instance,
) -> Result<(), Or<Refusal>>
    ensures { Says result (own_instance view.now project.now number row.now) }
{
    if !project.has(&row.project) {
        return Ok(());
    }
    let expanded = view.expansion(alloc, row)?;
    let forbidden = project.forbids(
        alloc,
        number,
        subject_of(row.kind),
        row.name.view(),
        &expanded.config,
        &expanded.devices,
    );
    drop(expanded);
    forbidden
}

/// The first instance of the project that breaks the rule.
fn instances_forbid(
    alloc: Global,
    view: &StateRef<'_>,
    project: &Restricted<'_>,
    number: u8,
    rows: &[Boxed<Instance>],
) -> Result<(), Or<Refusal>>
    ensures { Says result (first_of (own_instance view.now project.now number) rows.now) }
{
    for row in rows {
        if let Err(why) = instance_forbids(alloc, view, project, number, row) {
            return Err(why);
        }
    }
    Ok(())
}

/// The same of all instances. Those of other projects are not gone over.
fn own_instances_forbid(
    alloc: Global,
    view: &StateRef<'_>,
    number: u8,
    project: &Restricted<'_>,
) -> Result<(), Or<Refusal>>
    ensures { Says result (first_of (own_instance view.now project.now number) view.now.instances) }
{
    instances_forbid(
        alloc,
        view,
        project,
        number,
        rows_of(view.instances, project.name()),
    )
}

/// A live operation would put an instance of the project that breaks the rule.
pub(crate) fn claim_forbids(
    alloc: Global,
    view: &StateRef<'_>,
    project: &Restricted<'_>,
    number: u8,
    work: &Task,
) -> Result<(), Or<Refusal>>
    ensures { Says result (own_claim view.now project.now number work.now) }
{
    match claimed_instance(work) {
        Some(row) => instance_forbids(alloc, view, project, number, row),
        None => Ok(()),
    }
}

/// The first live operation that would put an instance of the project which breaks the rule.
fn claims_forbid(
    alloc: Global,
    view: &StateRef<'_>,
    project: &Restricted<'_>,
    number: u8,
    live: &[Operation<Task>],
) -> Result<(), Or<Refusal>>
    ensures { Says result (first_of (λ o. own_claim view.now project.now number o.work) live.now) }
{
    for operation in live {
        if let Err(why) = claim_forbids(alloc, view, project, number, &operation.work) {
            return Err(why);
        }
    }
    Ok(())
}

/// The first profile or instance of a project that breaks the rule, those that live operations would put last.
fn objects_forbid(
    alloc: Global,
    view: &StateRef<'_>,
    number: u8,
    project: &Restricted<'_>,
) -> Result<(), Or<Refusal>>
    ensures { Says result (own_objects view.now project.now number) }
{
    own_profiles_forbid(alloc, view, number, project)?;
    own_instances_forbid(alloc, view, number, project)?;
    claims_forbid(alloc, view, project, number, view.live)
}

/// A project that is not restricted forbids nothing, whatever it has.
fn project_forbids(
    alloc: Global,
    view: &StateRef<'_>,
    number: u8,
    project: &Project,
) -> Result<(), Or<Refusal>>
    ensures { Says result (project_forbids view.now number project.now) }
{
    if !is_restricted(&project.config) {
        return Ok(());
    }
    objects_forbid(alloc, view, number, &Restricted::new(project))
}

/// The first project at which the rule is broken.
fn projects_forbid(
    alloc: Global,
    view: &StateRef<'_>,
    number: u8,
    projects: &[Project],
) -> Result<(), Or<Refusal>>
    ensures { Says result (first_of (project_forbids view.now number) projects.now) }
{
    for project in projects {
        if let Err(why) = project_forbids(alloc, view, number, project) {
            return Err(why);
        }
    }
    Ok(())
}

/// The rule of this number. It is not asked where it is known to hold.
fn number_forbids(
    alloc: Global,
    view: &StateRef<'_>,
    lowest: u8,
    number: u8,
    projects: &[Project],
) -> Result<(), Or<Refusal>>
    requires { HoldBelow lowest (λ n. first_of (project_forbids view.now n) projects.now) }
    ensures { Says result (first_of (project_forbids view.now number) projects.now) }
{
    if number < lowest {
        return Ok(());
    }
    projects_forbid(alloc, view, number, projects)
}

/// F1 to F7 of these projects: the first rule that is broken, and the first of them, and what it has, at which it is.
/// One walk over the projects finds the number of that rule, and a second one where it is broken: where none is, there
/// is no second walk.
pub fn policy_broken_in(
    alloc: Global,
    after: &StateRef<'_>,
    projects: &[Project],
) -> Result<(), Or<Refusal>>
    ensures { Says result (policy_broken_in after.now projects.now) }
{
    let lowest = lowest_broken(alloc, after, projects)?;
    for number in NUMBERS {
        if let Err(why) = number_forbids(alloc, after, lowest, number, projects) {
            return Err(why);
        }
    }
    Ok(())
}

/// F1 to F7 of all projects.
#[tactic(auto, unfolding(row_machine::specs::machine::PolicyRules::policy_broken))]
pub fn policy_broken(alloc: Global, after: &StateRef<'_>) -> Result<(), Or<Refusal>>
    ensures { Says result (policy_broken after.now) }
{
    policy_broken_in(alloc, after, after.projects)
}
