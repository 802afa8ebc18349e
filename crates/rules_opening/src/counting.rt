//! Whether a row gives a number for each sum that its project limits, and has a size on a pool that it limits.
ghost use Rattle.std.specs.Prelude.{◌≡◌, IfOk};
ghost use Rattle.row_machine.specs.machine.LimitRules.{instance_without_amount, volume_lacks_amount};
ghost use Rattle.std.specs.Option.{option_copied};
ghost use Rattle.std.specs.Result.{result_err};
ghost use Rattle.records.specs.declared.rows.Row.TheVariants as row_of;
ghost use Rattle.row_machine.specs.opening.Opening.{rule_of, row_lacks_amount};
ghost use Rattle.rules_opening.specs.Rules.{without_amount_by};

use project_limits::{
    SumKey, countable, limits_of, pool_without_size, volume_countable, volume_pool_without_size,
};
use records::{Instance, Project, Row, Rule, Volume};
use row_readings::StateRef;
use size_values::NoMemory;
use std::alloc::Global;

/// The rule that is broken where some sum gets no number, or a limited pool no size.
fn without_amount_by(found: Result<(), SumKey>, pool: Option<&str>) -> Option<Rule>
    ensures { result ≡ without_amount_by (result_err found) (option_copied pool.entry) }
{
    match found {
        Ok(()) => match pool {
            Some(_) => Some(Rule::L0),
            None => None,
        },
        Err(_) => Some(Rule::L0),
    }
}

/// A volume has no size although the project limits its disk, or its pool.
#[tactic(auto, using(crate::proofs::Refused::without_amount_told), unfolding(row_machine::specs::machine::LimitRules::volume_lacks_amount))]
fn volume_lacks_amount(project: &Project, row: &Volume) -> Option<Rule>
    ensures { result ≡ rule_of (volume_lacks_amount project.now row.now) }
{
    without_amount_by(
        volume_countable(&limits_of(&project.config), &row.config),
        volume_pool_without_size(&project.config, row.pool.view(), &row.config),
    )
}

/// An instance gives no number for a sum that the project limits, or has no size on a pool that it limits.
#[tactic(auto, using(crate::proofs::Refused::without_amount_told), unfolding(row_machine::specs::machine::LimitRules::instance_without_amount))]
fn instance_lacks_amount(
    alloc: Global,
    view: &StateRef<'_>,
    project: &Project,
    row: &Instance,
) -> Result<Option<Rule>, NoMemory>
    ensures { IfOk result (λ found. found ≡ rule_of (instance_without_amount view.now project.now row.now)) }
{
    let expanded = view.expansion(alloc, row)?;
    let limits = limits_of(&project.config);
    let found = without_amount_by(
        countable(&limits, row.kind, &expanded.config, &expanded.devices),
        pool_without_size(&project.config, &expanded.devices),
    );
    drop(expanded);
    Ok(found)
}

fn volume_without_amount(view: &StateRef<'_>, row: &Volume) -> Option<Rule>
    ensures { result ≡ row_lacks_amount view.now (row_of.Volume row.now) }
{
    match view.project_named(row.project.view()) {
        Some(project) => volume_lacks_amount(project, row),
        None => None,
    }
}

fn instance_without_amount(
    alloc: Global,
    view: &StateRef<'_>,
    row: &Instance,
) -> Result<Option<Rule>, NoMemory>
    ensures { IfOk result (λ found. found ≡ row_lacks_amount view.now (row_of.Instance row.now)) }
{
    match view.project_named(row.project.view()) {
        Some(project) => instance_lacks_amount(alloc, view, project, row),
        None => Ok(None),
    }
}

/// An instance or a volume is not countable for the limits of its project.
pub(crate) fn row_lacks_amount(
    alloc: Global,
    view: &StateRef<'_>,
    row: &Row,
) -> Result<Option<Rule>, NoMemory>
    ensures { IfOk result (λ found. found ≡ row_lacks_amount view.now row.now) }
{
    match row {
        Row::Volume(row) => Ok(volume_without_amount(view, row)),
        Row::Instance(row) => instance_without_amount(alloc, view, row),
        _ => Ok(None),
    }
}
