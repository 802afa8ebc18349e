ghost use Rattle.std.specs.Prelude.{◌≡◌, ◌<◌, [], true, false};
ghost use Rattle.records.specs.Forms.{is_formed};
ghost use Rattle.core_objects.specs.Commands.{is_object_command};
ghost use Rattle.core_objects.specs.core_rows.specs.Planned.{Follows};
ghost use Rattle.core_instances.specs.Waits.{is_held};

use crate::beginning::begin_task;
use crate::ways::{Way, way_of};
use core_objects::{Estate, answer_read, change_at_once, first_broken, refused_reply};
use record_keeper::Keeper;
use records::{Command, Reply};
use size_values::MOMENT_LIMIT;
use std::alloc::Global;

/// Carries one command out that is not about objects whose rows are changed at once. A command that
/// breaks a rule changes nothing, and neither does one whose changes the keeper did not commit. A
/// wait that is to be held is not asked here. The notices of a change are left with the estate. The
/// moment is in seconds since 1970 (<https://linuxcontainers.org/incus/docs/main/rest-api/>).
pub fn do_instance<R: Keeper>(
    alloc: Global,
    estate: &mut Estate,
    keeper: &mut R,
    command: &Command,
    moment: u64,
) -> Reply
    requires quiet { estate.old.untold ≡ [] }
    requires formed { is_formed command.now ≡ true }
    requires command { is_object_command command.now.what ≡ false }
    requires answered { is_held estate.old.state command.now.what ≡ false }
    requires moment { moment < MOMENT_LIMIT }
    ensures { Follows estate.old.state command.now moment estate.new.state estate.new.untold
        result (R.store keeper.old) (R.store keeper.new) }
{
    if let Err(why) = first_broken(alloc, &estate.view(), command) {
        return refused_reply(why);
    }
    match way_of(&command.what) {
        Way::Read => answer_read(alloc, &estate.view(), command),
        Way::Cancel(number) => estate.cancel_operation(alloc, command, number, moment),
        Way::Change => change_at_once(alloc, estate, keeper, command, moment),
        Way::Begin => begin_task(alloc, estate, command, moment),
    }
}
