//! The calls on the host of operations that make one call.
ghost use Rattle.std.specs.Prelude.{◌≡◌, IfOk, ◌∷◌, []};
ghost use Rattle.host_model.specs.declared.call.HostCall.TheVariants as call;
ghost use Rattle.row_machine.specs.machine.Expansions.{expanded_of};
ghost use Rattle.row_machine.specs.machine.HostCalls.{place_of, spec_of};

use crate::creation_calls::place_of;
use crate::pairs::both;
use host_model::{HostCall, Place, Spec};
use records::{Instance, Target};
use row_readings::StateRef;
use size_values::{NoMemory, Seq, Text};
use std::alloc::Global;

/// One call alone.
pub(crate) fn one_call(alloc: Global, only: HostCall) -> Result<Seq<HostCall>, NoMemory>
    ensures { IfOk result (λ calls. calls ≡ only ∷ []) }
{
    let mut calls = Seq::new(alloc);
    calls.push(only)?;
    Ok(calls)
}

/// What an instance is started with: what it has of its profiles and of its own.
pub(crate) fn spec_of(alloc: Global, view: &StateRef<'_>, row: &Instance) -> Result<Spec, NoMemory>
    ensures { IfOk result (λ s. s ≡ spec_of (expanded_of view.now.projects view.now.profiles row.now)) }
{
    let expanded = view.expansion(alloc, row)?;
    Ok(Spec {
        config: expanded.config,
        devices: expanded.devices,
    })
}

/// The root of an instance is taken away.
pub(crate) fn clear_calls(
    alloc: Global,
    project: &Text,
    name: &Text,
) -> Result<Seq<HostCall>, NoMemory>
    ensures { IfOk result (λ calls. calls ≡ call.Clear (place_of project.now name.now) ∷ []) }
{
    let at = place_of(alloc, project, name)?;
    one_call(alloc, HostCall::Clear { at })
}

/// A changed instance is told what it has.
pub(crate) fn apply_calls(
    alloc: Global,
    view: &StateRef<'_>,
    project: &Text,
    name: &Text,
    row: &Instance,
) -> Result<Seq<HostCall>, NoMemory>
    ensures { IfOk result (λ calls. calls
        ≡ call.Apply (place_of project.now name.now)
        (spec_of (expanded_of view.now.projects view.now.profiles row.now)) ∷ []) }
{
    let spec = spec_of(alloc, view, row);
    let (at, spec) = both(place_of(alloc, project, name), spec)?;
    one_call(alloc, HostCall::Apply { at, spec })
}

/// The root of an instance goes to another name.
pub(crate) fn rename_calls(
    alloc: Global,
    project: &Text,
    name: &Text,
    new: &Text,
) -> Result<Seq<HostCall>, NoMemory>
    ensures { IfOk result (λ calls. calls
        ≡ call.Rename (place_of project.now name.now) (place_of project.now new.now) ∷ []) }
{
    let from = place_of(alloc, project, name);
    let (from, to) = both(from, place_of(alloc, project, new))?;
    one_call(alloc, HostCall::Rename { from, to })
}

/// The root of an instance becomes that of its snapshot.
pub(crate) fn restore_calls(
    alloc: Global,
    project: &Text,
    name: &Text,
    snapshot: &Text,
) -> Result<Seq<HostCall>, NoMemory>
    ensures { IfOk result (λ calls. calls ≡ call.Restore (place_of project.now name.now) snapshot.now ∷ []) }
{
    let at = place_of(alloc, project, name);
    let (at, name) = both(at, snapshot.copy(alloc))?;
    one_call(alloc, HostCall::Restore { at, name })
}

/// Where the instance of a snapshot stands, and the snapshot's name.
pub(crate) fn snapshot_place(
    alloc: Global,
    project: &Text,
    of: &Target,
) -> Result<(Place, Text), NoMemory>
    ensures { IfOk result (λ p. p ≡ (place_of project.now of.now.instance, of.now.name)) }
{
    let at = place_of(alloc, project, &of.instance);
    both(at, of.name.copy(alloc))
}

/// A snapshot is made.
pub(crate) fn snap_calls(
    alloc: Global,
    project: &Text,
    of: &Target,
) -> Result<Seq<HostCall>, NoMemory>
    ensures { IfOk result (λ calls. calls ≡ call.Snap (place_of project.now of.now.instance) of.now.name ∷ []) }
{
    let (at, name) = snapshot_place(alloc, project, of)?;
    one_call(alloc, HostCall::Snap { at, name })
}

/// A snapshot is taken away.
pub(crate) fn unsnap_calls(
    alloc: Global,
    project: &Text,
    of: &Target,
) -> Result<Seq<HostCall>, NoMemory>
    ensures { IfOk result (λ calls. calls ≡ call.Unsnap (place_of project.now of.now.instance) of.now.name ∷ []) }
{
    let (at, name) = snapshot_place(alloc, project, of)?;
    one_call(alloc, HostCall::Unsnap { at, name })
}
