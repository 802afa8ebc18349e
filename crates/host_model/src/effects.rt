ghost use Rattle.std.specs.Prelude.{◌≡◌, ◌<◌, ◌≤◌, ◌-◌, IfOk, OnOk, OnErr, vec_len, vec_capacity};
ghost use Rattle.std.specs.List.{find, position};
ghost use Rattle.std.specs.Option.{option_copied};
ghost use Rattle.size_values.specs.declared.kinds.Power.TheVariants as power_of;
ghost use Rattle.host_model.specs.Roots.{is_at, root_at, with_root, without_root, new_root, content_of};
ghost use Rattle.host_model.specs.Effects.{effect_of, with_power, with_spec, renamed, snapped, unsnapped, restored};

use crate::call::HostCall;
use crate::place::Place;
use crate::root::{HostRoot, Spec};
use plain_lists::push_reserved;
use size_values::{NoMemory, Power, Text};
use std::alloc::Global;

/// Makes of the roots what a call makes of them. Where memory is refused, they are as before: each call works
/// on a root of its own and puts it back at its end.
pub(crate) fn apply_call(
    alloc: Global,
    roots: &mut Vec<HostRoot>,
    call: &HostCall,
) -> Result<(), NoMemory>
    ensures ok { OnOk result (roots.new.items ≡ effect_of call.now roots.old.items) }
    ensures err { OnErr result (roots.new.items ≡ roots.old.items) }
{
    match call {
        HostCall::Clear { at } => {
            clear(roots, at);
            Ok(())
        }
        HostCall::MakeRoot { at, origin } => make_root(alloc, roots, at, origin),
        HostCall::CopyRoot { from, snapshot, to } => copy_content(alloc, roots, from, snapshot, to),
        HostCall::Start { at, spec } => start(alloc, roots, at, spec),
        HostCall::Stop { at } => set_power(alloc, roots, at, Power::Stopped),
        HostCall::Freeze { at } => set_power(alloc, roots, at, Power::Frozen),
        HostCall::Thaw { at } => set_power(alloc, roots, at, Power::Running),
        HostCall::Apply { at, spec } => apply(alloc, roots, at, spec),
        HostCall::Rename { from, to } => rename(alloc, roots, from, to),
        HostCall::Snap { at, name } => snap(alloc, roots, at, name),
        HostCall::Unsnap { at, name } => unsnap(alloc, roots, at, name),
        HostCall::Restore { at, name } => restore(alloc, roots, at, name),
    }
}

fn clear(roots: &mut Vec<HostRoot>, at: &Place)
    ensures items { roots.new.items ≡ without_root at.now roots.old.items }
    ensures room { vec_capacity roots.old - vec_len roots.old ≤ vec_capacity roots.new - vec_len roots.new }
{
    match index_of(roots, at) {
        Some(place) => {
            roots.remove(place);
        }
        None => {}
    }
}

/// Puts a stopped root with this content, nothing applied and no snapshots.
fn put_new_root(
    alloc: Global,
    roots: &mut Vec<HostRoot>,
    at: &Place,
    content: Text,
) -> Result<(), NoMemory>
    ensures ok { OnOk result (roots.new.items ≡ with_root (new_root at.now content) roots.old.items) }
    ensures err { OnErr result (roots.new.items ≡ roots.old.items) }
{
    let root = HostRoot::new_root(alloc, at, content)?;
    put_root(roots, root)
}

/// Puts a stopped root with the content of this origin.
fn make_root(
    alloc: Global,
    roots: &mut Vec<HostRoot>,
    at: &Place,
    origin: &Text,
) -> Result<(), NoMemory>
    ensures ok { OnOk result (roots.new.items ≡ with_root (new_root at.now origin.now) roots.old.items) }
    ensures err { OnErr result (roots.new.items ≡ roots.old.items) }
{
    let content = origin.copy(alloc)?;
    put_new_root(alloc, roots, at, content)
}

/// Puts a root with the content of another one, or of its named snapshot.
fn copy_content(
    alloc: Global,
    roots: &mut Vec<HostRoot>,
    from: &Place,
    snapshot: &Text,
    to: &Place,
) -> Result<(), NoMemory>
    ensures ok { OnOk result (roots.new.items
        ≡ with_root (new_root to.now (content_of from.now snapshot.now roots.old.items)) roots.old.items) }
    ensures err { OnErr result (roots.new.items ≡ roots.old.items) }
{
    let content = content_of(alloc, roots, from, snapshot)?;
    put_new_root(alloc, roots, to, content)
}

fn start(alloc: Global, roots: &mut Vec<HostRoot>, at: &Place, spec: &Spec) -> Result<(), NoMemory>
    ensures ok { OnOk result (roots.new.items
        ≡ with_root
        (with_power power_of.Running (with_spec spec.now (root_at at.now roots.old.items))) roots.old.items) }
    ensures err { OnErr result (roots.new.items ≡ roots.old.items) }
{
    let applied = spec.copy()?;
    let mut root = root_at(alloc, roots, at)?.with_applied(applied);
    root.power = Power::Running;
    put_root(roots, root)
}

fn set_power(
    alloc: Global,
    roots: &mut Vec<HostRoot>,
    at: &Place,
    power: Power,
) -> Result<(), NoMemory>
    ensures ok { OnOk result (roots.new.items
        ≡ with_root (with_power power (root_at at.now roots.old.items)) roots.old.items) }
    ensures err { OnErr result (roots.new.items ≡ roots.old.items) }
{
    let mut root = root_at(alloc, roots, at)?;
    root.power = power;
    put_root(roots, root)
}

fn apply(alloc: Global, roots: &mut Vec<HostRoot>, at: &Place, spec: &Spec) -> Result<(), NoMemory>
    ensures ok { OnOk result (roots.new.items
        ≡ with_root (with_spec spec.now (root_at at.now roots.old.items)) roots.old.items) }
    ensures err { OnErr result (roots.new.items ≡ roots.old.items) }
{
    let applied = spec.copy()?;
    let root = root_at(alloc, roots, at)?.with_applied(applied);
    put_root(roots, root)
}

fn rename(
    alloc: Global,
    roots: &mut Vec<HostRoot>,
    from: &Place,
    to: &Place,
) -> Result<(), NoMemory>
    ensures ok { OnOk result (roots.new.items
        ≡ with_root (renamed to.now (root_at from.now roots.old.items)) (without_root from.now roots.old.items)) }
    ensures err { OnErr result (roots.new.items ≡ roots.old.items) }
{
    roots.reserve(1)?;
    let place = to.copy(alloc)?;
    let root = root_at(alloc, roots, from)?.at_place(place);
    clear(roots, from);
    put_reserved(roots, root);
    Ok(())
}

fn snap(alloc: Global, roots: &mut Vec<HostRoot>, at: &Place, name: &Text) -> Result<(), NoMemory>
    ensures ok { OnOk result (roots.new.items
        ≡ with_root (snapped name.now (root_at at.now roots.old.items)) roots.old.items) }
    ensures err { OnErr result (roots.new.items ≡ roots.old.items) }
{
    let root = root_at(alloc, roots, at)?;
    let snapshots = root.more_snapshots(alloc, name)?;
    put_root(roots, root.with_snapshots(snapshots))
}

fn unsnap(alloc: Global, roots: &mut Vec<HostRoot>, at: &Place, name: &Text) -> Result<(), NoMemory>
    ensures ok { OnOk result (roots.new.items
        ≡ with_root (unsnapped name.now (root_at at.now roots.old.items)) roots.old.items) }
    ensures err { OnErr result (roots.new.items ≡ roots.old.items) }
{
    let root = root_at(alloc, roots, at)?;
    let snapshots = root.fewer_snapshots(alloc, name)?;
    put_root(roots, root.with_snapshots(snapshots))
}

fn restore(
    alloc: Global,
    roots: &mut Vec<HostRoot>,
    at: &Place,
    name: &Text,
) -> Result<(), NoMemory>
    ensures ok { OnOk result (roots.new.items
        ≡ with_root (restored name.now (root_at at.now roots.old.items)) roots.old.items) }
    ensures err { OnErr result (roots.new.items ≡ roots.old.items) }
{
    let root = root_at(alloc, roots, at)?;
    let content = root.restored_content(alloc, name)?;
    put_root(roots, root.with_content(content))
}

/// The content of a root, or of its named snapshot.
fn content_of(
    alloc: Global,
    roots: &[HostRoot],
    from: &Place,
    snapshot: &Text,
) -> Result<Text, NoMemory>
    ensures { IfOk result (λ t. t ≡ content_of from.now snapshot.now roots.now) }
{
    match find_root(roots, from) {
        Some(root) => root.content_in(alloc, snapshot),
        None => Ok(Text::new(alloc)),
    }
}

/// A copy of the root at a place, or what an absent one counts as.
fn root_at(alloc: Global, roots: &[HostRoot], at: &Place) -> Result<HostRoot, NoMemory>
    ensures { IfOk result (λ r. r ≡ root_at at.now roots.now) }
{
    match find_root(roots, at) {
        Some(root) => root.copy(alloc),
        None => HostRoot::new_root(alloc, at, Text::new(alloc)),
    }
}

fn find_root<'x>(roots: &'x [HostRoot], at: &Place) -> Option<&'x HostRoot>
    ensures { option_copied result ≡ find (is_at at.now) roots.now }
{
    roots.iter().find(|root| root.place.is(at))
}

fn index_of(roots: &[HostRoot], at: &Place) -> Option<usize>
    ensures { result ≡ position (is_at at.now) roots.now }
{
    roots.iter().position(|root| root.place.is(at))
}

/// Puts a root in place of the one at its place, or at the end.
fn put_root(roots: &mut Vec<HostRoot>, root: HostRoot) -> Result<(), NoMemory>
    ensures ok { OnOk result (roots.new.items ≡ with_root root roots.old.items) }
    ensures err { OnErr result (roots.new.items ≡ roots.old.items) }
{
    roots.reserve(1)?;
    put_reserved(roots, root);
    Ok(())
}

/// The same, in room that is there. It takes no memory.
fn put_reserved(roots: &mut Vec<HostRoot>, root: HostRoot)
    requires { vec_len roots.old < vec_capacity roots.old }
    ensures { roots.new.items ≡ with_root root roots.old.items }
{
    match index_of(roots, &root.place) {
        Some(place) => roots[place] = root,
        None => push_reserved(roots, root),
    }
}
