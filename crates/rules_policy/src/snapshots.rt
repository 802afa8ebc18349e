//! F8: snapshots where the policy of the project blocks them.
ghost use Rattle.std.specs.Prelude.{if◌then◌else◌, option_and_then, Some, None};
ghost use Rattle.size_values.specs.Causes.{Says};
ghost use Rattle.records.specs.declared.refusals.Rule.TheVariants as rule;
ghost use Rattle.restrictions.specs.Forbids.{snapshots_forbidden};
ghost use Rattle.restrictions.specs.Policies.{policy_of};
ghost use Rattle.row_machine.specs.machine.Refusals.{on_project};
ghost use Rattle.row_machine.specs.machine.Rows.{project_named};
ghost use Rattle.row_machine.specs.machine.PolicyRules.{snapshot_blocked};

use records::{Command, Refusal, Rule, What};
use restrictions::{policy_of, snapshots_forbidden};
use row_readings::StateRef;
use rules_refusals::on_project;
use size_values::{ObjectKind, Or};
use std::alloc::Global;

/// The policy of a project forbids snapshots.
fn project_blocks(alloc: Global, view: &StateRef<'_>, name: &str) -> Result<(), Or<Refusal>>
    ensures { Says result (option_and_then (λ p. if snapshots_forbidden (policy_of p.config)
        then Some (on_project rule.F8 p.name) else None) (project_named view.now.projects name.now)) }
{
    let Some(project) = view.project_named(name) else {
        return Ok(());
    };
    if !snapshots_forbidden(&policy_of(&project.config)) {
        return Ok(());
    }
    Err(Or::Why(on_project(alloc, Rule::F8, project.name.view())?))
}

/// F8: a snapshot is made where the policy of the project blocks it.
#[tactic(auto, unfolding(row_machine::specs::machine::PolicyRules::snapshot_blocked))]
pub fn snapshot_blocked(
    alloc: Global,
    view: &StateRef<'_>,
    command: &Command,
) -> Result<(), Or<Refusal>>
    ensures { Says result (snapshot_blocked view.now command.now) }
{
    match &command.what {
        What::Create { of, .. } => match of.kind {
            ObjectKind::Snapshot => project_blocks(alloc, view, command.project.view()),
            _ => Ok(()),
        },
        _ => Ok(()),
    }
}
