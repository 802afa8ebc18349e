//! What names a row.
ghost use Rattle.std.specs.Prelude.{◌≡◌, [], IfOk};
ghost use Rattle.records.specs.declared.rows.Row.TheVariants as row;
ghost use Rattle.row_machine.specs.shown.Urls.{target_of};

use records::{Row, Snapshot, Target, Volume};
use size_values::{NoMemory, ObjectKind, Text};
use std::alloc::Global;

/// What names an object that stands in no pool and in no instance.
pub fn target_named(alloc: Global, kind: ObjectKind, name: &Text) -> Result<Target, NoMemory>
    ensures { IfOk result (λ t. t ≡ record { kind = kind; pool = []; instance = []; name = name.now }) }
{
    let name = name.copy(alloc)?;
    Ok(Target {
        kind,
        pool: Text::new(alloc),
        instance: Text::new(alloc),
        name,
    })
}

/// What names a volume.
pub fn volume_target(alloc: Global, volume: &Volume) -> Result<Target, NoMemory>
    ensures { IfOk result (λ t. t ≡ target_of (row.Volume volume.now)) }
{
    let pool = volume.pool.copy(alloc)?;
    let name = volume.name.copy(alloc)?;
    Ok(Target {
        kind: ObjectKind::Volume,
        pool,
        instance: Text::new(alloc),
        name,
    })
}

/// What names a snapshot.
pub fn snapshot_target(alloc: Global, snapshot: &Snapshot) -> Result<Target, NoMemory>
    ensures { IfOk result (λ t. t ≡ target_of (row.Snapshot snapshot.now)) }
{
    let instance = snapshot.instance.copy(alloc)?;
    let name = snapshot.name.copy(alloc)?;
    Ok(Target {
        kind: ObjectKind::Snapshot,
        pool: Text::new(alloc),
        instance,
        name,
    })
}

/// What names a row.
pub fn target_of(alloc: Global, row: &Row) -> Result<Target, NoMemory>
    ensures { IfOk result (λ t. t ≡ target_of row.now) }
{
    match row {
        Row::Project(row) => target_named(alloc, ObjectKind::Project, &row.name),
        Row::Profile(row) => target_named(alloc, ObjectKind::Profile, &row.name),
        Row::Network(row) => target_named(alloc, ObjectKind::Network, &row.name),
        Row::Pool(row) => target_named(alloc, ObjectKind::Pool, &row.name),
        Row::Volume(row) => volume_target(alloc, row),
        Row::Instance(row) => target_named(alloc, ObjectKind::Instance, &row.name),
        Row::Snapshot(row) => snapshot_target(alloc, row),
    }
}
