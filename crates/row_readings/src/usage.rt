ghost use Rattle.std.specs.Prelude.{◌≡◌, ◌+◌, ◌<◌, ◌≤◌, ◌^◌, IfOk};
ghost use Rattle.std.specs.List.{sum_by};
ghost use Rattle.size_values.specs.Amounts.{part};
ghost use Rattle.size_values.specs.declared.amounts.Part.{Part};
ghost use Rattle.row_machine.specs.machine.Usage.{usage_of};
ghost use Rattle.row_readings.specs.Counted.{volume_part, claim_part};

use crate::amounts::{amounts_of_share, project_of_row};
use crate::instances::add_instances;
use crate::places::rows_of;
use crate::state_ref::StateRef;
use operations::Operation;
use records::Volume;
use row_machine::Task;
use size_values::{Amounts, Boxed, NoMemory};
use std::alloc::Global;

/// What a project uses of its limits, with what live operations claim: the sum over its own rows and claims. No list of
/// them is made. The only error is that there is no memory.
pub fn usage_of(alloc: Global, view: &StateRef<'_>, project: &str) -> Result<Amounts, NoMemory>
    ensures usage { IfOk result (λ a. a ≡ usage_of view.now project.now) }
    ensures few { IfOk result (λ a. (k : Part) → part k a ≤ 2 ^ 127 + 2 ^ 126) }
{
    let instances = rows_of(view.instances, project);
    let used = add_instances(alloc, view, instances, project, Amounts::zero())?;
    let used = add_volumes(rows_of(view.volumes, project), project, used);
    add_claims(alloc, view, view.live, project, used)
}

/// The amounts with those of the volumes of the project.
fn add_volumes(rows: &[Boxed<Volume>], project: &str, used: Amounts) -> Amounts
    requires { (k : Part) → part k used ≤ 2 ^ 127 }
    ensures sums { (k : Part) → part k result ≡ part k used + sum_by (volume_part project.now k) rows.now }
    ensures few { (k : Part) → part k result ≤ part k used + 2 ^ 126 }
{
    let mut sum = used;
    for row in rows {
        sum = sum.plus(&volume_counts(row, project));
    }
    sum
}

/// What a volume adds to what a project uses: nothing if it is of another project.
fn volume_counts(row: &Volume, project: &str) -> Amounts
    ensures { (k : Part) → part k result ≡ volume_part project.now k row.now }
{
    if row.project.view() == project {
        project_limits::volume_amounts(&row.config)
    } else {
        Amounts::zero()
    }
}

/// The amounts with the shares of the live operations whose claimed row is of the project.
fn add_claims(
    alloc: Global,
    view: &StateRef<'_>,
    live: &[Operation<Task>],
    project: &str,
    used: Amounts,
) -> Result<Amounts, NoMemory>
    requires { (k : Part) → part k used ≤ 2 ^ 127 }
    ensures sums { IfOk result (λ a. (k : Part)
        → part k a ≡ part k used + sum_by (λ o. claim_part view.now project.now k o.work) live.now) }
    ensures few { IfOk result (λ a. (k : Part) → part k a ≤ part k used + 2 ^ 126) }
{
    let mut sum = used;
    for operation in live {
        let more = claim_counts(alloc, view, &operation.work, project)?;
        sum = sum.plus(&more);
    }
    Ok(sum)
}

/// What an operation adds to what a project uses: nothing if it claims no row, or a row of another project.
fn claim_counts(
    alloc: Global,
    view: &StateRef<'_>,
    work: &Task,
    project: &str,
) -> Result<Amounts, NoMemory>
    ensures { IfOk result (λ a. (k : Part) → part k a ≡ claim_part view.now project.now k work.now) }
{
    match &work.claim {
        Some(new) if project_of_row(new) == project => amounts_of_share(alloc, view, work),
        _ => Ok(Amounts::zero()),
    }
}
