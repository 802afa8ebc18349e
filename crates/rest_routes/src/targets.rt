//! The objects that the path of a request names.
ghost use Rattle.std.specs.Prelude.{◌≡◌, IfOk};
ghost use Rattle.rest_routes.specs.Answers.{Gives};
ghost use Rattle.rest_routes.specs.Targets.{target_at_path, object_of, objects_of, operation_at};

use crate::paths::{instance_of, name_of, path_names, pool_of};
use crate::refusals::no_operation;
use records::{Refusal, Target};
use rest_replies::number_of;
use size_values::{NoMemory, ObjectKind, Or, Text};
use std::alloc::Global;

/// The object of a kind and name that stands where the path says: a volume in its pool, a snapshot in its instance.
pub(crate) fn target_at_path(
    alloc: Global,
    kind: ObjectKind,
    path: &str,
    name: Text,
) -> Result<Target, NoMemory>
    ensures { IfOk result (λ of. of ≡ target_at_path kind path.now name) }
{
    let pool = Text::from_text(alloc, pool_of(kind, path))?;
    let instance = Text::from_text(alloc, instance_of(kind, path))?;
    Ok(Target {
        kind,
        pool,
        instance,
        name,
    })
}

/// The object of a kind that a path names.
pub(crate) fn object_of(alloc: Global, kind: ObjectKind, path: &str) -> Result<Target, NoMemory>
    ensures { IfOk result (λ of. of ≡ object_of kind path.now) }
{
    let names = path_names(kind, path);
    let pool = Text::from_text(alloc, names.pool)?;
    let instance = Text::from_text(alloc, names.instance)?;
    let name = Text::from_text(alloc, names.name)?;
    Ok(Target {
        kind,
        pool,
        instance,
        name,
    })
}

/// All objects of a kind at a path: volumes of its pool, snapshots of its instance.
pub(crate) fn objects_of(alloc: Global, kind: ObjectKind, path: &str) -> Result<Target, NoMemory>
    ensures { IfOk result (λ of. of ≡ objects_of kind path.now) }
{
    target_at_path(alloc, kind, path, Text::new(alloc))
}

/// The number of the operation that a path names by an id of this boot.
pub(crate) fn operation_at(alloc: Global, path: &str, boot: u64) -> Result<u64, Or<Refusal>>
    ensures { Gives result (operation_at path.now boot) }
{
    let id = name_of(ObjectKind::Operation, path);
    match number_of(id, boot) {
        Some(op) => Ok(op),
        None => Err(no_operation(alloc, id)),
    }
}
