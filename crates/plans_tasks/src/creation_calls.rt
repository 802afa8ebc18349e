//! Where the roots of instances stand, and the calls that make new ones.
ghost use Rattle.std.specs.Prelude.{◌≡◌, IfOk, OnOk, ◌++◌, ◌∷◌, []};
ghost use Rattle.host_model.specs.declared.call.HostCall.TheVariants as call;
ghost use Rattle.row_machine.specs.machine.HostCalls.{place_of, create_calls, copy_calls};

use crate::pairs::both;
use host_model::{HostCall, Place};
use size_values::{NoMemory, Seq, Text};
use std::alloc::Global;

/// Where the root of an instance stands.
pub fn place_of(alloc: Global, project: &Text, name: &Text) -> Result<Place, NoMemory>
    ensures { IfOk result (λ p. p ≡ place_of project.now name.now) }
{
    let (project, name) = both(project.copy(alloc), name.copy(alloc))?;
    Ok(Place {
        volume: false,
        project,
        pool: Text::new(alloc),
        name,
    })
}

/// Then whatever stands at a place is taken away.
pub fn push_clear(alloc: Global, calls: &mut Seq<HostCall>, at: &Place) -> Result<(), NoMemory>
    ensures { OnOk result (calls.new ≡ calls.old ++ call.Clear at.now ∷ []) }
{
    let at = at.copy(alloc)?;
    calls.push(HostCall::Clear { at })
}

fn push_make(
    alloc: Global,
    calls: &mut Seq<HostCall>,
    at: &Place,
    image: &str,
) -> Result<(), NoMemory>
    ensures { OnOk result (calls.new ≡ calls.old ++ call.MakeRoot at.now image.now ∷ []) }
{
    let (at, origin) = both(at.copy(alloc), Text::from_text(alloc, image))?;
    calls.push(HostCall::MakeRoot { at, origin })
}

/// A new root of an image, or an empty one.
pub(crate) fn create_calls(
    alloc: Global,
    at: &Place,
    image: &str,
) -> Result<Seq<HostCall>, NoMemory>
    ensures { IfOk result (λ calls. calls ≡ create_calls at.now image.now) }
{
    let mut calls = Seq::new(alloc);
    push_clear(alloc, &mut calls, at)?;
    push_make(alloc, &mut calls, at, image)?;
    Ok(calls)
}

fn push_copy(
    alloc: Global,
    calls: &mut Seq<HostCall>,
    from: &Place,
    snapshot: &str,
    to: &Place,
) -> Result<(), NoMemory>
    ensures { OnOk result (calls.new ≡ calls.old ++ call.CopyRoot from.now snapshot.now to.now ∷ []) }
{
    let places = both(from.copy(alloc), to.copy(alloc));
    let (places, snapshot) = both(places, Text::from_text(alloc, snapshot))?;
    calls.push(HostCall::CopyRoot {
        from: places.0,
        snapshot,
        to: places.1,
    })
}

/// A new root with the content of another one, or of its snapshot.
pub fn copy_calls(
    alloc: Global,
    from: &Place,
    snapshot: &str,
    to: &Place,
) -> Result<Seq<HostCall>, NoMemory>
    ensures { IfOk result (λ calls. calls ≡ copy_calls from.now snapshot.now to.now) }
{
    let mut calls = Seq::new(alloc);
    push_clear(alloc, &mut calls, to)?;
    push_copy(alloc, &mut calls, from, snapshot, to)?;
    Ok(calls)
}
