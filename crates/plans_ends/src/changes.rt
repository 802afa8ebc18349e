//! The changes of rows at the success of an operation.
ghost use Rattle.std.specs.Prelude.{◌≡◌, [], IfOk, map};
ghost use Rattle.std.specs.Option.{option_map_or, option_to_list};
ghost use Rattle.row_machine.specs.declared.changes.RowChange.TheVariants as change;
ghost use Rattle.row_machine.specs.machine.Claims.{claimed_instance};
ghost use Rattle.row_machine.specs.machine.Operations.{renames_instance, success_changes};

use crate::removals::{removes_instance, removes_snapshot};
use crate::renames::renames_instance;
use row_machine::{RowChange, Task};
use row_readings::{StateRef, claimed_instance};
use size_values::{Action, Deed, NoMemory, Seq};
use std::alloc::Global;

/// The claimed row is put, where there is one.
fn puts_claim(alloc: Global, work: &Task) -> Result<Seq<RowChange>, NoMemory>
    ensures { IfOk result (λ cs. cs ≡ map change.Put (option_to_list work.now.claim)) }
{
    let mut changes = Seq::new(alloc);
    if let Some(row) = &work.claim {
        let row = row.copy(alloc)?;
        changes.push(RowChange::Put(row))?;
    }
    Ok(changes)
}

/// The claimed instance takes the place of the target, where one is claimed.
fn renames_target(
    alloc: Global,
    view: &StateRef<'_>,
    work: &Task,
) -> Result<Seq<RowChange>, NoMemory>
    ensures { IfOk result (λ cs. cs ≡
        option_map_or (renames_instance view.now work.now) (claimed_instance work.now) []) }
{
    match claimed_instance(work) {
        Some(row) => renames_instance(alloc, view, work, row),
        None => Ok(Seq::new(alloc)),
    }
}

/// The changes of rows at the success of an operation, in their order.
pub fn success_changes(
    alloc: Global,
    view: &StateRef<'_>,
    work: &Task,
) -> Result<Seq<RowChange>, NoMemory>
    ensures { IfOk result (λ cs. cs ≡ success_changes view.now work.now) }
{
    let project = work.project.view();
    let name = work.target.name.view();
    match work.deed {
        Deed::Create | Deed::Copy | Deed::Update | Deed::Restore | Deed::Snap | Deed::CopyVolume =>
            puts_claim(alloc, work),
        Deed::Rename => renames_target(alloc, view, work),
        Deed::Delete => removes_instance(alloc, view, project, name),
        Deed::Act {
            action: Action::Stop,
            ephemeral: true,
        } => removes_instance(alloc, view, project, name),
        Deed::Act { .. } => Ok(Seq::new(alloc)),
        Deed::Unsnap => removes_snapshot(alloc, view, work),
    }
}
