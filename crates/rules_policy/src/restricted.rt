//! A project with its policy, and what that forbids.
ghost use Rattle.std.specs.Prelude.{ℕ, List, ◌≡◌};
ghost use Rattle.std.specs.Str.{bytes_eq};
ghost use Rattle.size_values.specs.Causes.{Says};
ghost use Rattle.restrictions.specs.Forbids.{first_forbidden as forbidden_first};
ghost use Rattle.restrictions.specs.Policies.{policy_of};
ghost use Rattle.row_machine.specs.machine.PolicyRules.{policy_rule, subject_of, forbidden_key, forbids};
ghost use Rattle.rules_policy.specs.Lowest.{HoldBelow};

use config_lists::{Config, Devices};
use records::{Project, Refusal, Rule};
use restrictions::{Forbidden, Policy, Subject, first_forbidden, policy_of};
use rules_refusals::{key_at, name_at, on_key_of};
use size_values::{Kind, Or, Text};
use std::alloc::Global;
use std::marker::Model;

/// A project with its policy, which is read once for all that the project has. Contracts see the project.
#[derive(Drop)]
pub(crate) struct Restricted<'a> {
    project: &'a Project,
    policy: Policy<'a>,
}

impl<'a> Model for Restricted<'a> {
    ghost use Rattle.std.specs.Prelude.{◌≡◌};
    ghost use Rattle.restrictions.specs.Policies.{seen, policy_of};
    ghost use Rattle.records.specs.declared.rows.Project.{Project as ProjectValue};

    ghost Value = { ProjectValue };

    ghost view = { λ r. r.project.now };

    ghost invariant = { λ r. seen r.policy ≡ policy_of r.project.now.config };
}

impl<'a> Restricted<'a> {
    /// Reads the policy of a project.
    pub(crate) fn new(project: &'a Project) -> Restricted<'a>
        ensures { result ≡ project.now }
    {
        Restricted {
            project,
            policy: policy_of(&project.config),
        }
    }

    /// The name of the project.
    pub(crate) fn name(&self) -> &str
        ensures { result.now ≡ self.now.name }
    {
        self.project.name.view()
    }

    /// Whether an object of this project is one of its own.
    pub(crate) fn has(&self, project: &Text) -> bool
        ensures { result ≡ bytes_eq project.now self.now.name }
    {
        project.is(&self.project.name)
    }

    /// The first thing that the policy forbids of settings and devices.
    pub(crate) fn first_forbidden(
        &self,
        subject: Subject,
        config: &Config,
        devices: &Devices,
    ) -> Option<Forbidden>
        ensures { result ≡ forbidden_first (policy_of self.now.config) subject config.now devices.now }
    {
        first_forbidden(&self.policy, subject, config, devices)
    }

    /// The number of the first rule that settings and devices break, or one above them all.
    pub(crate) fn lowest_rule(&self, subject: Subject, config: &Config, devices: &Devices) -> u8
        ensures { (name : List ℕ) → HoldBelow result (λ n. forbids self.now n subject name config.now devices.now) }
    {
        match self.first_forbidden(subject, config, devices) {
            Some(found) => found.rule,
            None => u8::MAX,
        }
    }

    /// The rule of this number, where it is the first one that the settings and devices of a subject break.
    pub(crate) fn forbids(
        &self,
        alloc: Global,
        number: u8,
        subject: Subject,
        name: &str,
        config: &Config,
        devices: &Devices,
    ) -> Result<(), Or<Refusal>>
        ensures { Says result (forbids self.now number subject name.now config.now devices.now) }
    {
        let Some(found) = self.first_forbidden(subject, config, devices) else {
            return Ok(());
        };
        if found.rule != number {
            return Ok(());
        }
        let key = forbidden_key(config, devices, found);
        let rule = policy_rule(number);
        Err(Or::Why(on_key_of(alloc, rule, key, name, self.project.name.view())?))
    }
}

/// The rule of this number, from F1 on.
fn policy_rule(number: u8) -> Rule
    ensures { result ≡ policy_rule number }
{
    match number {
        1 => Rule::F1,
        2 => Rule::F2,
        3 => Rule::F3,
        4 => Rule::F4,
        5 => Rule::F5,
        6 => Rule::F6,
        _ => Rule::F7,
    }
}

/// Whom the lines of a policy judge in an instance of this kind.
pub(crate) fn subject_of(kind: Kind) -> Subject
    ensures { result ≡ subject_of kind }
{
    match kind {
        Kind::Container => Subject::Container,
        Kind::Machine => Subject::Machine,
    }
}

/// The setting or the device that is forbidden. One line of the table demands a key.
#[tactic(auto, unfolding(restrictions::specs::Forbids::setting_lines))]
fn forbidden_key<'x>(config: &'x Config, devices: &'x Devices, found: Forbidden) -> &'x str
    ensures { result.now ≡ forbidden_key config.now devices.now found }
{
    if found.rule >= 6 {
        return name_at(devices, found.place);
    }
    if found.place < config.len() {
        key_at(config, found.place)
    } else {
        "security.idmap.isolated"
    }
}
