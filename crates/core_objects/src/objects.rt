ghost use Rattle.std.specs.Prelude.{◌≡◌, ◌≢◌, ◌<◌, ◌∷◌, [], true, None};
ghost use Rattle.size_values.specs.Causes.{Says};
ghost use Rattle.plain_lists.specs.Firsts.{first};
ghost use Rattle.records.specs.Forms.{is_formed};
ghost use Rattle.row_machine.specs.machine.Rules.{names_broken};
ghost use Rattle.row_machine.specs.machine.Rules.{standing_broken};
ghost use Rattle.row_machine.specs.machine.Plans.{plan_of};
ghost use Rattle.row_machine.specs.shown.Views.{read};
ghost use Rattle.plans_objects.specs.Planning.{changes_in};
ghost use Rattle.core_rows.specs.Planned.{Follows};
ghost use Rattle.core_objects.specs.Answers.{IsAnswer, is_read, speaks_of_no_row};
ghost use Rattle.core_objects.specs.Commands.{is_object_command};

use core_rows::{Estate, refused_reply};
use object_views::read;
use plans_objects::plan_change;
use record_keeper::Keeper;
use records::{Command, Refusal, Reply, What};
use row_readings::StateRef;
use rules_conflicts::standing_broken;
use rules_names::names_broken;
use size_values::{MOMENT_LIMIT, NoMemory, Or};
use std::alloc::Global;

/// Whether a command only reads, and is answered at once.
fn is_read(asked: &What) -> bool
    ensures { result ≡ is_read asked.now }
{
    match asked {
        What::Root
        | What::Server
        | What::List { .. }
        | What::Get { .. }
        | What::State { .. }
        | What::GetOp { .. } => true,
        What::Create { .. }
        | What::Put { .. }
        | What::Patch { .. }
        | What::Move { .. }
        | What::Delete { .. }
        | What::Act { .. }
        | What::Restore { .. }
        | What::Cancel { .. }
        | What::Wait { .. } => false,
    }
}

/// Whether a command speaks of no row.
fn speaks_of_no_row(asked: &What) -> bool
    ensures { result ≡ speaks_of_no_row asked.now }
{
    match asked {
        What::Root | What::Server => true,
        _ => false,
    }
}

/// The first rule that a command breaks on names and on what stands in the way. One that speaks of no row breaks none,
/// and most requests of those who only look whether the server is there are such.
#[tactic(auto, using(crate::proofs::FirstRules::unbroken))]
pub fn first_broken(
    alloc: Global,
    view: &StateRef<'_>,
    command: &Command,
) -> Result<(), Or<Refusal>>
    ensures { Says result (first (names_broken view.now command.now ∷ standing_broken view.now command.now ∷ [])) }
{
    if speaks_of_no_row(&command.what) {
        return Ok(());
    }
    names_broken(alloc, view, command)?;
    standing_broken(alloc, view, command)
}

/// What a read is answered, once it breaks no rule.
pub fn answer_read(alloc: Global, view: &StateRef<'_>, command: &Command) -> Reply
    ensures { IsAnswer result (read view.now command.now.project command.now.what) }
{
    match read(alloc, view, &command.project, &command.what) {
        Ok(reply) => reply,
        Err(NoMemory) => Reply::NoMemory,
    }
}

/// Makes the changes of a command that changes rows at once, and breaks no rule on names and on what stands in the way.
pub fn change_at_once<R: Keeper>(
    alloc: Global,
    estate: &mut Estate,
    keeper: &mut R,
    command: &Command,
    moment: u64,
) -> Reply
    requires quiet { estate.old.untold ≡ [] }
    requires formed { is_formed command.now ≡ true }
    requires moment { moment < MOMENT_LIMIT }
    requires free { first (names_broken estate.old.state command.now
        ∷ standing_broken estate.old.state command.now ∷ []) ≡ None }
    requires changes { changes_in (plan_of estate.old.state command.now moment) ≢ None }
    ensures { Follows estate.old.state command.now moment estate.new.state estate.new.untold result (R.store keeper.old)
        (R.store keeper.new) }
{
    let Ok(planned) = plan_change(alloc, &estate.view(), command, moment) else {
        return Reply::NoMemory;
    };
    match planned {
        Some(planned) => {
            let changes = planned.changes;
            let notice = planned.notice;
            estate.change_rows(alloc, keeper, command, moment, changes, notice)
        }
        None => unreachable!(),
    }
}

/// Carries out one command on projects, profiles, networks, pools or volumes. A command that breaks a rule changes
/// nothing, and neither does one whose changes the keeper did not commit. The notices of a change are left with the
/// estate. The moment is in seconds since 1970 (<https://linuxcontainers.org/incus/docs/main/rest-api/>).
pub fn do_object<R: Keeper>(
    alloc: Global,
    estate: &mut Estate,
    keeper: &mut R,
    command: &Command,
    moment: u64,
) -> Reply
    requires quiet { estate.old.untold ≡ [] }
    requires formed { is_formed command.now ≡ true }
    requires command { is_object_command command.now.what ≡ true }
    requires moment { moment < MOMENT_LIMIT }
    ensures { Follows estate.old.state command.now moment estate.new.state estate.new.untold result (R.store keeper.old)
        (R.store keeper.new) }
{
    if let Err(why) = first_broken(alloc, &estate.view(), command) {
        return refused_reply(why);
    }
    if is_read(&command.what) {
        return answer_read(alloc, &estate.view(), command);
    }
    change_at_once(alloc, estate, keeper, command, moment)
}
