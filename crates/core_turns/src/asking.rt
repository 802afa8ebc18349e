//! The turn of a client: a command, or a look at an operation.
ghost use Rattle.std.specs.Prelude.{◌≡◌, ◌&&◌, [], false, not, is_some};
ghost use Rattle.std.specs.Option.{option_copied};
ghost use Rattle.operations.specs.OperationTable.{live_at};
ghost use Rattle.record_keeper.specs.Store.{Store};
ghost use Rattle.row_machine.specs.declared.events.Event.TheVariants as event_of;
ghost use Rattle.core_instances.specs.Waits.{is_held, is_zero};
ghost use Rattle.core_instances.specs.core_rows.specs.Asked.{answered};
ghost use Rattle.core_instances.specs.core_rows.specs.Planned.{Follows};
ghost use Rattle.core_turns.specs.Commands.{held_for};
ghost use Rattle.core_turns.specs.Turns.{Comes, IsServed};

use core_instances::{Estate, do_instance, do_object, is_object_command};
use operations::Operation;
use record_keeper::Keeper;
use records::{Command, Reply, What};
use row_machine::{Answer, Task};
use row_readings::StateRef;
use std::alloc::Global;

/// The live operation of a number.
fn live_at<'x>(view: &StateRef<'x>, number: u64) -> Option<&'x Operation<Task>>
    ensures { option_copied result ≡ live_at view.now.operations number }
{
    view.live.iter().find(|o| o.number == number)
}

/// Whether the operation of a number is live.
pub(crate) fn is_live(view: &StateRef<'_>, number: u64) -> bool
    ensures { result ≡ is_some (live_at view.now.operations number) }
{
    match live_at(view, number) {
        Some(_) => true,
        None => false,
    }
}

fn is_zero(timeout: i64) -> bool
    ensures { result ≡ is_zero timeout }
{
    timeout == 0
}

/// Whether a wait is to be held: its operation is live, and it waits for some time.
fn is_held(view: &StateRef<'_>, number: u64, timeout: i64) -> bool
    ensures { result ≡ is_some (live_at view.now.operations number) && not (is_zero timeout) }
{
    is_live(view, number) && !is_zero(timeout)
}

/// The live operation for which a command is to wait.
fn held_for(view: &StateRef<'_>, asked: &What) -> Option<u64>
    ensures { result ≡ held_for view.now asked.now }
{
    match asked {
        What::Wait { op, timeout } => {
            if is_held(view, *op, *timeout) {
                Some(*op)
            } else {
                None
            }
        }
        _ => None,
    }
}

/// Carries out a command that is answered at once.
fn carry_out<R: Keeper>(
    alloc: Global,
    estate: &mut Estate,
    keeper: &mut R,
    command: &Command,
    moment: u64,
) -> Reply
    requires quiet { estate.old.untold ≡ [] }
    requires served { IsServed (event_of.Ask command.now moment) }
    requires answered { is_held estate.old.state command.now.what ≡ false }
    ensures { Follows estate.old.state command.now moment estate.new.state estate.new.untold
        result (R.store keeper.old) (R.store keeper.new) }
{
    if is_object_command(&command.what) {
        return do_object(alloc, estate, keeper, command, moment);
    }
    do_instance(alloc, estate, keeper, command, moment)
}

/// The answer that a reply is: out of memory is an answer of its own.
fn answered(reply: Reply) -> Answer
    ensures { result ≡ answered reply }
{
    match reply {
        Reply::NoMemory => Answer::NoMemory,
        _ => Answer::Reply(reply),
    }
}

/// A client asks for a command. A wait for a live operation is held, unless it waits for no time;
/// it breaks no rule.
pub(crate) fn ask<R: Keeper>(
    alloc: Global,
    estate: &mut Estate,
    keeper: &mut R,
    command: &Command,
    moment: u64,
) -> Answer
    requires quiet { estate.old.untold ≡ [] }
    requires served { IsServed (event_of.Ask command.now moment) }
    ensures { Comes estate.old.state (R.store keeper.old) (event_of.Ask command.now moment)
        result estate.new.state estate.new.untold (R.store keeper.new) }
{
    match held_for(&estate.view(), &command.what) {
        Some(number) => Answer::Hold(number),
        None => answered(carry_out(alloc, estate, keeper, command, moment)),
    }
}

/// A client that waits looks at its operation.
pub(crate) fn look(estate: &Estate, number: u64) -> Answer
    requires quiet { estate.now.untold ≡ [] }
    ensures { (store : Store) → Comes estate.now.state store (event_of.Look number) result
        estate.now.state estate.now.untold store }
{
    if is_live(&estate.view(), number) {
        Answer::NotYet(number)
    } else {
        Answer::Ended(number)
    }
}
