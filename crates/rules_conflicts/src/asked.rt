//! What a command speaks of: the object that it changes, and the instance.
ghost use Rattle.std.specs.Prelude.{◌≡◌};
ghost use Rattle.std.specs.Option.{option_copied};
ghost use Rattle.size_values.specs.declared.kinds.ObjectKind.TheVariants as kind_of;
ghost use Rattle.row_machine.specs.machine.Asked.{copied_from, instance_changed, instance_in, instance_made_from};
ghost use Rattle.row_machine.specs.machine.Asked.{renames_or_deletes};
ghost use Rattle.row_machine.specs.machine.StandingRules.{is_deletion, object_changed};

use records::{Body, Origin, Target, What};
use size_values::{ObjectKind, Text};

/// Whether a command renames or deletes the object of its path.
pub(crate) fn renames_or_deletes(what: &What) -> bool
    ensures { result ≡ renames_or_deletes what.now }
{
    matches!(what, What::Move { .. } | What::Delete { .. })
}

/// Whether a command deletes the object of its path.
pub(crate) fn is_deletion(what: &What) -> bool
    ensures { result ≡ is_deletion what.now }
{
    matches!(what, What::Delete { .. })
}

/// The object that a command changes, renames or deletes.
pub(crate) fn object_changed(what: &What) -> Option<&Target>
    ensures { option_copied result ≡ object_changed what.now }
{
    match what {
        What::Put { of, .. } => Some(of),
        What::Patch { of, .. } => Some(of),
        What::Move { of, .. } => Some(of),
        What::Delete { of } => Some(of),
        _ => None,
    }
}

/// The instance that a new instance is copied from.
fn copied_from(origin: &Origin) -> Option<&Text>
    ensures { option_copied result ≡ copied_from kind_of.Instance origin.now }
{
    match origin {
        Origin::Copy { from, .. } => Some(from),
        Origin::None | Origin::Image(_) => None,
    }
}

/// The instance that a request on an object of its own changes.
fn instance_in(of: &Target) -> Option<&Text>
    ensures { option_copied result ≡ instance_in of.now }
{
    match of.kind {
        ObjectKind::Instance => Some(&of.name),
        ObjectKind::Snapshot => Some(&of.instance),
        _ => None,
    }
}

/// The instance that a creation copies from, or to which it adds a snapshot.
fn instance_made_from<'x>(of: &'x Target, body: &'x Body) -> Option<&'x Text>
    ensures { option_copied result ≡ instance_made_from of.now body.now }
{
    match of.kind {
        ObjectKind::Instance => copied_from(&body.origin),
        ObjectKind::Snapshot => Some(&of.instance),
        _ => None,
    }
}

/// The instance that a command would change or copy from.
pub(crate) fn instance_changed(what: &What) -> Option<&Text>
    ensures { option_copied result ≡ instance_changed what.now }
{
    match what {
        What::Create { of, body } => instance_made_from(of, body),
        What::Put { of, .. } => instance_in(of),
        What::Patch { of, .. } => instance_in(of),
        What::Move { of, .. } => instance_in(of),
        What::Delete { of } => instance_in(of),
        What::Act { of, .. } => Some(&of.name),
        What::Restore { of, .. } => Some(&of.name),
        _ => None,
    }
}
