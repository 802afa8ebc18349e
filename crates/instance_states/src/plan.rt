ghost use Rattle.std.specs.Prelude.{◌≡◌, is_some};
ghost use Rattle.instance_states.specs.Plans.{calls_in, calls_of, calls_of_action, undo_of};

use size_values::{Action, Deed};

/// The names of a host's calls.
#[derive(Clone, Copy, PartialEq, Eq)]
pub enum CallName {
    Clear,
    MakeRoot,
    CopyRoot,
    Start,
    Stop,
    Freeze,
    Thaw,
    Apply,
    Rename,
    Snap,
    Unsnap,
    Restore,
}

/// The calls of a deed: one or two, and the one that takes them back where the deed may be cancelled.
#[derive(Clone, Copy, PartialEq, Eq)]
pub struct Plan {
    pub first: CallName,
    pub second: Option<CallName>,
    pub undo: Option<CallName>,
}

/// What a deed calls on the host, and the call that takes it back where the deed may be cancelled.
pub fn plan_of(deed: Deed) -> Plan
    ensures calls { calls_in result ≡ calls_of deed }
    ensures undo { result.undo ≡ undo_of deed }
{
    match deed {
        Deed::Create => cancellable_plan(
            CallName::Clear,
            Some(CallName::MakeRoot),
            CallName::Clear,
        ),
        Deed::Copy | Deed::CopyVolume => cancellable_plan(
            CallName::Clear,
            Some(CallName::CopyRoot),
            CallName::Clear,
        ),
        Deed::Snap => cancellable_plan(CallName::Snap, None, CallName::Unsnap),
        Deed::Update => uncancellable_plan(CallName::Apply, None),
        Deed::Restore => uncancellable_plan(CallName::Restore, None),
        Deed::Rename => uncancellable_plan(CallName::Rename, None),
        Deed::Delete => uncancellable_plan(CallName::Clear, None),
        Deed::Unsnap => uncancellable_plan(CallName::Unsnap, None),
        Deed::Act { action, ephemeral } => plan_of_action(action, ephemeral),
    }
}

fn plan_of_action(action: Action, ephemeral: bool) -> Plan
    ensures calls { calls_in result ≡ calls_of_action action ephemeral }
    ensures undo { result.undo ≡ None }
{
    match action {
        Action::Start => uncancellable_plan(CallName::Start, None),
        Action::Stop if ephemeral => uncancellable_plan(CallName::Stop, Some(CallName::Clear)),
        Action::Stop => uncancellable_plan(CallName::Stop, None),
        Action::Restart => uncancellable_plan(CallName::Stop, Some(CallName::Start)),
        Action::Freeze => uncancellable_plan(CallName::Freeze, None),
        Action::Unfreeze => uncancellable_plan(CallName::Thaw, None),
    }
}

/// The plan of a deed that may be cancelled.
fn cancellable_plan(first: CallName, second: Option<CallName>, undo: CallName) -> Plan
    ensures { result ≡ record { first = first; second = second; undo = Some undo } }
{
    Plan {
        first,
        second,
        undo: Some(undo),
    }
}

/// The plan of a deed that may not be cancelled.
fn uncancellable_plan(first: CallName, second: Option<CallName>) -> Plan
    ensures { result ≡ record { first = first; second = second; undo = None } }
{
    Plan {
        first,
        second,
        undo: None,
    }
}

/// Whether an operation of a deed may be cancelled.
pub fn may_cancel(deed: Deed) -> bool
    ensures { result ≡ is_some (undo_of deed) }
{
    plan_of(deed).undo.is_some()
}
