//! N3 to N5: a new name is malformed, a row's, or a live claim's.
ghost use Rattle.std.specs.Prelude.{◌≡◌, find};
ghost use Rattle.std.specs.Option.{option_copied};
ghost use Rattle.size_values.specs.Causes.{Says};
ghost use Rattle.row_machine.specs.shown.Urls.{target_of};
ghost use Rattle.row_machine.specs.machine.NameRules.{name_malformed, name_taken, same_target, claims_object};
ghost use Rattle.row_machine.specs.machine.NameRules.{name_held, name_broken};
ghost use Rattle.rules_names.specs.Pointed.{target_at, has_names};

use crate::target_refs::{TargetRef, is_there};
use estate_rules::good_name;
use operations::Operation;
use records::{Refusal, Row, Rule};
use row_machine::Task;
use row_readings::{StateRef, project_of_row};
use rules_refusals::{on_held, on_object};
use size_values::{ObjectKind, Or};
use std::alloc::Global;

/// N3: the name is malformed.
fn name_malformed(alloc: Global, of: TargetRef<'_>) -> Result<(), Or<Refusal>>
    ensures { Says result (name_malformed (target_at of.entry)) }
{
    if good_name(of.kind, of.name) {
        return Ok(());
    }
    Err(Or::Why(on_object(alloc, Rule::N3, of.kind, of.name)?))
}

/// N4: there is an object of the name.
fn name_taken(
    alloc: Global,
    view: &StateRef<'_>,
    project: &str,
    of: TargetRef<'_>,
) -> Result<(), Or<Refusal>>
    ensures { Says result (name_taken view.now project.now (target_at of.entry)) }
{
    if !is_there(view, project, of) {
        return Ok(());
    }
    Err(Or::Why(on_object(alloc, Rule::N4, of.kind, of.name)?))
}

/// Whether an object has these names.
fn is_named(pool: &str, instance: &str, name: &str, of: TargetRef<'_>) -> bool
    ensures { result ≡ has_names pool.now instance.now name.now (target_at of.entry) }
{
    pool == of.pool && instance == of.instance && name == of.name
}

/// Whether a row is this object, in the home that it belongs to.
fn is_target(row: &Row, of: TargetRef<'_>) -> bool
    ensures { result ≡ same_target (target_of row.now) (target_at of.entry) }
{
    match row {
        Row::Project(row) => of.kind == ObjectKind::Project
            && is_named("", "", row.name.view(), of),
        Row::Profile(row) => of.kind == ObjectKind::Profile
            && is_named("", "", row.name.view(), of),
        Row::Network(row) => of.kind == ObjectKind::Network
            && is_named("", "", row.name.view(), of),
        Row::Pool(row) => of.kind == ObjectKind::Pool && is_named("", "", row.name.view(), of),
        Row::Volume(row) => of.kind == ObjectKind::Volume
            && is_named(row.pool.view(), "", row.name.view(), of),
        Row::Instance(row) => of.kind == ObjectKind::Instance
            && is_named("", "", row.name.view(), of),
        Row::Snapshot(row) => of.kind == ObjectKind::Snapshot
            && is_named("", row.instance.view(), row.name.view(), of),
    }
}

/// Whether an operation claims the object of this home.
fn claims_object(home: &str, of: TargetRef<'_>, work: &Task) -> bool
    ensures { result ≡ claims_object home.now (target_at of.entry) work.now }
{
    match &work.claim {
        Some(row) => project_of_row(row) == home && is_target(row, of),
        None => false,
    }
}

fn claiming_operation<'x>(
    live: &'x [Operation<Task>],
    home: &str,
    of: TargetRef<'_>,
) -> Option<&'x Operation<Task>>
    ensures { option_copied result ≡ find (λ o. claims_object home.now (target_at of.entry) o.work) live.now }
{
    live.iter().find(|o| claims_object(home, of, &o.work))
}

/// N5: a live operation would put an object of the name.
fn name_held(
    alloc: Global,
    view: &StateRef<'_>,
    project: &str,
    of: TargetRef<'_>,
) -> Result<(), Or<Refusal>>
    ensures { Says result (name_held view.now project.now (target_at of.entry)) }
{
    let home = view.home_of(project, of.kind);
    let Some(operation) = claiming_operation(view.live, home, of) else {
        return Ok(());
    };
    let number = operation.number;
    Err(Or::Why(on_held(alloc, Rule::N5, of.kind, of.name, number)?))
}

/// The new name is malformed, a row's, or a live claim's.
#[tactic(auto, unfolding(row_machine::specs::machine::NameRules::name_broken))]
pub(crate) fn name_broken(
    alloc: Global,
    view: &StateRef<'_>,
    project: &str,
    of: TargetRef<'_>,
) -> Result<(), Or<Refusal>>
    ensures { Says result (name_broken view.now project.now (target_at of.entry)) }
{
    name_malformed(alloc, of)?;
    name_taken(alloc, view, project, of)?;
    name_held(alloc, view, project, of)
}
