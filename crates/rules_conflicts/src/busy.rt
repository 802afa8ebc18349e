//! B1: the instance that a command would change or copy from is busy.
ghost use Rattle.std.specs.Prelude.{◌≡◌, false, find};
ghost use Rattle.std.specs.Option.{option_copied, option_map_or};
ghost use Rattle.size_values.specs.Causes.{Says};
ghost use Rattle.row_machine.specs.machine.Holders.{busy_with, is_about, keeps_busy};
ghost use Rattle.row_machine.specs.machine.StandingRules.{named_instance_busy, instance_busy};

use crate::asked::instance_changed;
use operations::Operation;
use records::{Command, Refusal, Rule, Target};
use row_machine::Task;
use row_readings::StateRef;
use rules_refusals::on_name;
use size_values::{ObjectKind, Or};
use std::alloc::Global;

/// Whether a target or a source is this instance, or a snapshot of it.
fn is_about(instance: &str, of: &Target) -> bool
    ensures { result ≡ is_about instance.now of.now }
{
    match of.kind {
        ObjectKind::Instance => of.name.view() == instance,
        ObjectKind::Snapshot => of.instance.view() == instance,
        ObjectKind::Project
        | ObjectKind::Profile
        | ObjectKind::Network
        | ObjectKind::Pool
        | ObjectKind::Volume
        | ObjectKind::Operation => false,
    }
}

fn is_source(instance: &str, source: &Option<Target>) -> bool
    ensures { result ≡ option_map_or (is_about instance.now) source.now false }
{
    match source {
        Some(of) => is_about(instance, of),
        None => false,
    }
}

fn keeps_busy(project: &str, instance: &str, work: &Task) -> bool
    ensures { result ≡ keeps_busy project.now instance.now work.now }
{
    work.project.view() == project
        && (is_about(instance, &work.target) || is_source(instance, &work.source))
}

/// The live operation that keeps an instance busy.
#[tactic(auto, unfolding(row_machine::specs::machine::Holders::busy_with))]
fn busy_with<'x>(
    live: &'x [Operation<Task>],
    project: &str,
    instance: &str,
) -> Option<&'x Operation<Task>>
    ensures { option_copied result ≡ find (λ o. keeps_busy project.now instance.now o.work) live.now }
{
    live.iter().find(|o| keeps_busy(project, instance, &o.work))
}

/// B1: a live operation keeps the instance of this name busy.
#[tactic(auto, unfolding(row_machine::specs::machine::Holders::busy_with))]
fn named_instance_busy(
    alloc: Global,
    view: &StateRef<'_>,
    project: &str,
    name: &str,
) -> Result<(), Or<Refusal>>
    ensures { Says result (named_instance_busy view.now project.now name.now) }
{
    let Some(operation) = busy_with(view.live, project, name) else {
        return Ok(());
    };
    let mut refusal = on_name(alloc, Rule::B1, name)?;
    refusal.details.number = operation.number;
    Err(Or::Why(refusal))
}

/// The instance that a command would change or copy from is busy.
#[tactic(auto, unfolding(row_machine::specs::machine::StandingRules::instance_busy))]
pub(crate) fn instance_busy(
    alloc: Global,
    view: &StateRef<'_>,
    command: &Command,
) -> Result<(), Or<Refusal>>
    ensures { Says result (instance_busy view.now command.now) }
{
    match instance_changed(&command.what) {
        Some(name) => named_instance_busy(alloc, view, command.project.view(), name.view()),
        None => Ok(()),
    }
}
