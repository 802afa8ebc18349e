//! What the policy of a project forbids one of its rows.
ghost use Rattle.std.specs.Prelude.{◌≡◌, IfOk};
ghost use Rattle.row_machine.specs.machine.PolicyRules.{policy_rule, subject_of, forbids_profile, forbids_instance};
ghost use Rattle.records.specs.declared.rows.Row.TheVariants as row_of;
ghost use Rattle.row_machine.specs.opening.Opening.{rule_of, forbidden};
ghost use Rattle.rules_opening.specs.Rules.{forbidden_rule};

use config_lists::{Config, Devices};
use records::{Instance, Profile, Project, Row, Rule};
use restrictions::{Subject, first_forbidden, is_restricted, policy_of};
use row_readings::StateRef;
use size_values::{Kind, NoMemory};
use std::alloc::Global;

/// The rule of this number, from F1 on.
fn policy_rule(number: u8) -> Rule
    ensures { result ≡ policy_rule number }
{
    match number {
        1 => Rule::F1,
        2 => Rule::F2,
        3 => Rule::F3,
        4 => Rule::F4,
        5 => Rule::F5,
        6 => Rule::F6,
        _ => Rule::F7,
    }
}

/// Whom the lines of a policy judge in an instance of this kind.
fn subject_of(kind: Kind) -> Subject
    ensures { result ≡ subject_of kind }
{
    match kind {
        Kind::Container => Subject::Container,
        Kind::Machine => Subject::Machine,
    }
}

/// The rule of this number, where it is the first one that the settings and devices of a subject break.
fn forbidden_rule(
    project: &Project,
    number: u8,
    subject: Subject,
    config: &Config,
    devices: &Devices,
) -> Option<Rule>
    ensures { result ≡ forbidden_rule project.now number subject config.now devices.now }
{
    let found = first_forbidden(&policy_of(&project.config), subject, config, devices)?;
    if found.rule == number {
        Some(policy_rule(number))
    } else {
        None
    }
}

/// The policy of a project forbids a profile something.
#[tactic(auto, using(crate::proofs::Refused::forbids_told), unfolding(row_machine::specs::machine::PolicyRules::forbids_profile))]
fn forbids_profile(project: &Project, number: u8, row: &Profile) -> Option<Rule>
    ensures { result ≡ rule_of (forbids_profile project.now number row.now) }
{
    forbidden_rule(project, number, Subject::Profile, &row.config, &row.devices)
}

/// The policy of a project forbids an instance something. One that is not restricted forbids nothing, and then what the
/// instance has is not asked.
#[tactic(auto, using(crate::proofs::Refused::forbids_told), unfolding(row_machine::specs::machine::PolicyRules::forbids_instance))]
fn forbids_instance(
    alloc: Global,
    view: &StateRef<'_>,
    project: &Project,
    number: u8,
    row: &Instance,
) -> Result<Option<Rule>, NoMemory>
    ensures { IfOk result (λ found. found ≡ rule_of (forbids_instance view.now project.now number row.now)) }
{
    if !is_restricted(&project.config) {
        return Ok(None);
    }
    let expanded = view.expansion(alloc, row)?;
    let subject = subject_of(row.kind);
    let found = forbidden_rule(
        project,
        number,
        subject,
        &expanded.config,
        &expanded.devices,
    );
    drop(expanded);
    Ok(found)
}

fn profile_forbidden(view: &StateRef<'_>, number: u8, row: &Profile) -> Option<Rule>
    ensures { result ≡ forbidden number view.now (row_of.Profile row.now) }
{
    match view.project_named(row.project.view()) {
        Some(project) => forbids_profile(project, number, row),
        None => None,
    }
}

fn instance_forbidden(
    alloc: Global,
    view: &StateRef<'_>,
    number: u8,
    row: &Instance,
) -> Result<Option<Rule>, NoMemory>
    ensures { IfOk result (λ found. found ≡ forbidden number view.now (row_of.Instance row.now)) }
{
    match view.project_named(row.project.view()) {
        Some(project) => forbids_instance(alloc, view, project, number, row),
        None => Ok(None),
    }
}

/// The policy of its project forbids a profile or an instance something.
pub(crate) fn forbidden(
    alloc: Global,
    view: &StateRef<'_>,
    number: u8,
    row: &Row,
) -> Result<Option<Rule>, NoMemory>
    ensures { IfOk result (λ found. found ≡ forbidden number view.now row.now) }
{
    match row {
        Row::Profile(row) => Ok(profile_forbidden(view, number, row)),
        Row::Instance(row) => instance_forbidden(alloc, view, number, row),
        _ => Ok(None),
    }
}
