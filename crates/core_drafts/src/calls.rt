//! The calls that a task hands out.
ghost use Rattle.std.specs.Prelude.{◌≡◌, IsSome, Some};
ghost use Rattle.core_drafts.specs.Background.{handed, HasCount};
ghost use Rattle.core_drafts.specs.declared.calls.Handing.TheVariants as handing;

use host_model::HostCall;
use row_machine::Task;

/// Which call of a task is handed out: the first that is left; the same, once the one before it was done; or the one
/// that takes the deed back.
#[derive(Clone, Copy)]
pub enum Handing {
    First,
    Next,
    Undo,
}

/// The first call that is left.
fn first_call(work: &mut Task) -> HostCall
    requires { IsSome (handed handing.First work.old) }
    ensures { handed handing.First work.old ≡ Some (result, work.new) }
{
    match work.calls.take_first() {
        Some(call) => call,
        None => unreachable!(),
    }
}

/// The first call that is left, after one more was done.
fn next_call(work: &mut Task) -> HostCall
    requires call { IsSome (handed handing.Next work.old) }
    requires count { HasCount handing.Next work.old }
    ensures { handed handing.Next work.old ≡ Some (result, work.new) }
{
    work.done += 1;
    match work.calls.take_first() {
        Some(call) => call,
        None => unreachable!(),
    }
}

/// The call that takes the deed back.
fn undo_call(work: &mut Task) -> HostCall
    requires { IsSome (handed handing.Undo work.old) }
    ensures { handed handing.Undo work.old ≡ Some (result, work.new) }
{
    match work.undo.take() {
        Some(call) => call,
        None => unreachable!(),
    }
}

/// The call that a task hands out, which it has. It takes no memory.
pub(crate) fn hand_out(work: &mut Task, which: Handing) -> HostCall
    requires call { IsSome (handed which work.old) }
    requires count { HasCount which work.old }
    ensures { handed which work.old ≡ Some (result, work.new) }
{
    match which {
        Handing::First => first_call(work),
        Handing::Next => next_call(work),
        Handing::Undo => undo_call(work),
    }
}
