//! A command that begins an operation in the background.
ghost use Rattle.std.specs.Prelude.{◌≡◌, ◌<◌, ◌∷◌, [], true, false, None};
ghost use Rattle.plain_lists.specs.Firsts.{first};
ghost use Rattle.record_keeper.specs.Store.{Store};
ghost use Rattle.records.specs.Forms.{is_formed};
ghost use Rattle.row_machine.specs.machine.Rules.{names_broken, standing_broken};
ghost use Rattle.core_objects.specs.Commands.{is_object_command};
ghost use Rattle.core_objects.specs.core_rows.specs.Planned.{Follows};
ghost use Rattle.core_instances.specs.Ways.{way_of};
ghost use Rattle.core_instances.specs.declared.ways.Way.TheVariants as way;

use core_objects::Estate;
use plans_tasks::plan_task;
use records::{Command, Reply};
use size_values::MOMENT_LIMIT;
use std::alloc::Global;

/// Begins the operation of a command that breaks no rule on names and on what stands in the way. The store is not
/// asked.
pub(crate) fn begin_task(
    alloc: Global,
    estate: &mut Estate,
    command: &Command,
    moment: u64,
) -> Reply
    requires quiet { estate.old.untold ≡ [] }
    requires formed { is_formed command.now ≡ true }
    requires moment { moment < MOMENT_LIMIT }
    requires command { is_object_command command.now.what ≡ false }
    requires begins { way_of command.now.what ≡ way.Begin }
    requires free { first (names_broken estate.old.state command.now ∷ standing_broken
        estate.old.state command.now ∷ []) ≡ None }
    ensures { (store : Store) → Follows estate.old.state command.now moment estate.new.state
        estate.new.untold result store store }
{
    let Ok(planned) = plan_task(alloc, &estate.view(), command, moment) else {
        return Reply::NoMemory;
    };
    match planned {
        Some(work) => estate.start(alloc, command, moment, work),
        None => unreachable!(),
    }
}
