//! Which commands change or read objects whose rows are changed at once.
ghost use Rattle.std.specs.Prelude.{◌≡◌};
ghost use Rattle.core_objects.specs.Commands.{has_usage, is_made_at_once, is_object_command, is_object_kind};

use records::{Origin, What};
use size_values::ObjectKind;

/// The kinds of these objects.
fn is_object_kind(kind: ObjectKind) -> bool
    ensures { result ≡ is_object_kind kind }
{
    match kind {
        ObjectKind::Project
        | ObjectKind::Profile
        | ObjectKind::Network
        | ObjectKind::Pool
        | ObjectKind::Volume => true,
        ObjectKind::Instance | ObjectKind::Snapshot | ObjectKind::Operation => false,
    }
}

/// Whether an object has a state of its own: a project has its usage.
fn has_usage(kind: ObjectKind) -> bool
    ensures { result ≡ has_usage kind }
{
    match kind {
        ObjectKind::Project => true,
        ObjectKind::Profile
        | ObjectKind::Network
        | ObjectKind::Pool
        | ObjectKind::Volume
        | ObjectKind::Instance
        | ObjectKind::Snapshot
        | ObjectKind::Operation => false,
    }
}

/// Whether a new object is made at once: all but a copy.
fn is_made_at_once(origin: &Origin) -> bool
    ensures { result ≡ is_made_at_once origin.now }
{
    match origin {
        Origin::None | Origin::Image(_) => true,
        Origin::Copy { .. } => false,
    }
}

/// Whether a command is about objects whose rows are changed at once, or about the server as a whole.
pub fn is_object_command(asked: &What) -> bool
    ensures { result ≡ is_object_command asked.now }
{
    match asked {
        What::Root | What::Server => true,
        What::State { of } => has_usage(of.kind),
        What::Create { of, body } => is_object_kind(of.kind) && is_made_at_once(&body.origin),
        What::List { of, .. }
        | What::Get { of }
        | What::Put { of, .. }
        | What::Patch { of, .. }
        | What::Move { of, .. }
        | What::Delete { of } => is_object_kind(of.kind),
        What::Act { .. }
        | What::Restore { .. }
        | What::GetOp { .. }
        | What::Cancel { .. }
        | What::Wait { .. } => false,
    }
}
