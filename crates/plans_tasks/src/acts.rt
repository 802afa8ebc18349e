//! Changes of the state of an instance.
ghost use Rattle.std.specs.Prelude.{◌≡◌, IfOk, OnOk, ◌++◌, ◌∷◌, []};
ghost use Rattle.host_model.specs.declared.call.HostCall.TheVariants as call;
ghost use Rattle.row_machine.specs.machine.Expansions.{expanded_of};
ghost use Rattle.row_machine.specs.machine.HostCalls.{spec_of, act_calls};
ghost use Rattle.row_machine.specs.machine.Tasks.{act_task};

use crate::calls::{one_call, spec_of};
use crate::creation_calls::{place_of, push_clear};
use crate::pairs::both;
use crate::plain_tasks::{plain_task, project_and_target};
use host_model::{HostCall, Place};
use records::{Instance, Target};
use row_machine::Task;
use row_readings::StateRef;
use size_values::{Action, Deed, NoMemory, Seq, Text};
use std::alloc::Global;

/// Then an instance is started with what it has.
fn push_start(
    alloc: Global,
    view: &StateRef<'_>,
    calls: &mut Seq<HostCall>,
    at: &Place,
    row: &Instance,
) -> Result<(), NoMemory>
    ensures { OnOk result (calls.new
        ≡ calls.old
        ++ call.Start at.now (spec_of (expanded_of view.now.projects view.now.profiles row.now)) ∷ []) }
{
    let (at, spec) = both(at.copy(alloc), spec_of(alloc, view, row))?;
    calls.push(HostCall::Start { at, spec })
}

fn start_calls(
    alloc: Global,
    view: &StateRef<'_>,
    at: &Place,
    row: &Instance,
) -> Result<Seq<HostCall>, NoMemory>
    ensures { IfOk result (λ calls. calls
        ≡ call.Start at.now (spec_of (expanded_of view.now.projects view.now.profiles row.now)) ∷ []) }
{
    let mut calls = Seq::new(alloc);
    push_start(alloc, view, &mut calls, at, row)?;
    Ok(calls)
}

fn stop_calls(alloc: Global, at: &Place) -> Result<Seq<HostCall>, NoMemory>
    ensures { IfOk result (λ calls. calls ≡ call.Stop at.now ∷ []) }
{
    let at = at.copy(alloc)?;
    one_call(alloc, HostCall::Stop { at })
}

/// An ephemeral instance that stops is deleted.
fn last_stop_calls(alloc: Global, at: &Place) -> Result<Seq<HostCall>, NoMemory>
    ensures { IfOk result (λ calls. calls ≡ call.Stop at.now ∷ call.Clear at.now ∷ []) }
{
    let mut calls = stop_calls(alloc, at)?;
    push_clear(alloc, &mut calls, at)?;
    Ok(calls)
}

fn restart_calls(
    alloc: Global,
    view: &StateRef<'_>,
    at: &Place,
    row: &Instance,
) -> Result<Seq<HostCall>, NoMemory>
    ensures { IfOk result (λ calls. calls
        ≡ call.Stop at.now
        ∷ call.Start at.now (spec_of (expanded_of view.now.projects view.now.profiles row.now))
        ∷ []) }
{
    let mut calls = stop_calls(alloc, at)?;
    push_start(alloc, view, &mut calls, at, row)?;
    Ok(calls)
}

fn freeze_calls(alloc: Global, at: &Place) -> Result<Seq<HostCall>, NoMemory>
    ensures { IfOk result (λ calls. calls ≡ call.Freeze at.now ∷ []) }
{
    let at = at.copy(alloc)?;
    one_call(alloc, HostCall::Freeze { at })
}

fn thaw_calls(alloc: Global, at: &Place) -> Result<Seq<HostCall>, NoMemory>
    ensures { IfOk result (λ calls. calls ≡ call.Thaw at.now ∷ []) }
{
    let at = at.copy(alloc)?;
    one_call(alloc, HostCall::Thaw { at })
}

/// The calls of an action on an instance at this place.
fn calls_at(
    alloc: Global,
    view: &StateRef<'_>,
    action: Action,
    at: &Place,
    row: &Instance,
) -> Result<Seq<HostCall>, NoMemory>
    ensures { IfOk result (λ calls. calls
        ≡ act_calls action row.now.ephemeral at.now
        (spec_of (expanded_of view.now.projects view.now.profiles row.now))) }
{
    match action {
        Action::Start => start_calls(alloc, view, at, row),
        Action::Stop if row.ephemeral => last_stop_calls(alloc, at),
        Action::Stop => stop_calls(alloc, at),
        Action::Restart => restart_calls(alloc, view, at, row),
        Action::Freeze => freeze_calls(alloc, at),
        Action::Unfreeze => thaw_calls(alloc, at),
    }
}

/// The state of an instance is changed.
pub(crate) fn act_task(
    alloc: Global,
    view: &StateRef<'_>,
    project: &Text,
    of: &Target,
    action: Action,
    row: &Instance,
) -> Result<Task, NoMemory>
    ensures { IfOk result (λ w. w ≡ act_task view.now project.now of.now action row.now) }
{
    let at = place_of(alloc, project, &of.name)?;
    let calls = calls_at(alloc, view, action, &at, row);
    drop(at);
    let (about, calls) = both(project_and_target(alloc, project, of), calls)?;
    let deed = Deed::Act {
        action,
        ephemeral: row.ephemeral,
    };
    Ok(plain_task(deed, about, calls))
}
