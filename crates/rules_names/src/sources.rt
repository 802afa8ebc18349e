//! N2 of what a new object is copied from.
ghost use Rattle.size_values.specs.Causes.{Says};
ghost use Rattle.records.specs.declared.commands.Origin.TheVariants as origin_of;
ghost use Rattle.rules_names.specs.Pointed.{target_at};
ghost use Rattle.rules_names.specs.Sought.{instance_source_missing};
ghost use Rattle.row_machine.specs.machine.NameRules.{source_missing};

use crate::missing::{missing_unless, object_missing, snapshot_missing};
use crate::target_refs::{TargetRef, target_in_pool};
use records::{Origin, Refusal};
use row_readings::StateRef;
use size_values::{ObjectKind, Or};
use std::alloc::Global;

/// The instance or the snapshot that something is copied from is missing.
fn instance_source_missing(
    alloc: Global,
    view: &StateRef<'_>,
    project: &str,
    from: &str,
    snapshot: &str,
) -> Result<(), Or<Refusal>>
    ensures { Says result (instance_source_missing view.now project.now from.now snapshot.now) }
{
    let there = view.instance_named(project, from).is_some();
    missing_unless(alloc, there, ObjectKind::Instance, from)?;
    if snapshot.is_empty() {
        return Ok(());
    }
    snapshot_missing(alloc, view, project, from, snapshot)
}

/// What a copy is made from is missing: a volume in its pool, or an instance or a snapshot of it.
fn copied_missing(
    alloc: Global,
    view: &StateRef<'_>,
    project: &str,
    of: TargetRef<'_>,
    from: &str,
    snapshot: &str,
    pool: &str,
) -> Result<(), Or<Refusal>>
    ensures { Says result
        (source_missing view.now project.now (target_at of.entry) (origin_of.Copy from.now snapshot.now pool.now)) }
{
    match of.kind {
        ObjectKind::Volume => object_missing(alloc, view, project, target_in_pool(of, pool, from)),
        ObjectKind::Project
        | ObjectKind::Profile
        | ObjectKind::Network
        | ObjectKind::Pool
        | ObjectKind::Instance
        | ObjectKind::Snapshot
        | ObjectKind::Operation => instance_source_missing(alloc, view, project, from, snapshot),
    }
}

/// N2: what a new object is copied from is missing.
pub(crate) fn source_missing(
    alloc: Global,
    view: &StateRef<'_>,
    project: &str,
    of: TargetRef<'_>,
    origin: &Origin,
) -> Result<(), Or<Refusal>>
    ensures { Says result (source_missing view.now project.now (target_at of.entry) origin.now) }
{
    match origin {
        Origin::None => Ok(()),
        Origin::Image(_) => Ok(()),
        Origin::Copy {
            from,
            snapshot,
            pool,
        } => copied_missing(
            alloc,
            view,
            project,
            of,
            from.view(),
            snapshot.view(),
            pool.view(),
        ),
    }
}
