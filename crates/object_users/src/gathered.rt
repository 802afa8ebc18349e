//! Rows of one kind that have something in common, as rows of any kind.
ghost use Rattle.std.specs.Prelude.{◌≡◌, ◌++◌, OnOk, map, filter};
ghost use Rattle.std.specs.Str.{bytes_eq};
ghost use Rattle.records.specs.declared.rows.Row.TheVariants as row;

use crate::row_ref::RowRef;
use records::{AnyRow, Instance, Network, Pool, Profile, Project, Snapshot, Volume};
use size_values::{Boxed, NoMemory};

/// Adds projects.
pub fn add_projects<'x>(rows: &'x [Project], all: &mut Vec<RowRef<'x>>) -> Result<(), NoMemory>
    ensures { OnOk result (all.new.items ≡ all.old.items ++ map row.Project rows.now) }
{
    for row in rows {
        all.push(RowRef {
            row: AnyRow::Project(row),
        })?;
    }
    Ok(())
}

/// Adds storage pools.
pub fn add_pools<'x>(rows: &'x [Pool], all: &mut Vec<RowRef<'x>>) -> Result<(), NoMemory>
    ensures { OnOk result (all.new.items ≡ all.old.items ++ map row.Pool rows.now) }
{
    for row in rows {
        all.push(RowRef {
            row: AnyRow::Pool(row),
        })?;
    }
    Ok(())
}

/// Adds profiles.
pub fn add_profiles<'x>(
    rows: &'x [Boxed<Profile>],
    all: &mut Vec<RowRef<'x>>,
) -> Result<(), NoMemory>
    ensures { OnOk result (all.new.items ≡ all.old.items ++ map row.Profile rows.now) }
{
    for row in rows {
        all.push(RowRef {
            row: AnyRow::Profile(row),
        })?;
    }
    Ok(())
}

/// Adds networks.
pub fn add_networks<'x>(rows: &'x [Network], all: &mut Vec<RowRef<'x>>) -> Result<(), NoMemory>
    ensures { OnOk result (all.new.items ≡ all.old.items ++ map row.Network rows.now) }
{
    for row in rows {
        all.push(RowRef {
            row: AnyRow::Network(row),
        })?;
    }
    Ok(())
}

/// Adds volumes.
pub fn add_volumes<'x>(rows: &'x [Boxed<Volume>], all: &mut Vec<RowRef<'x>>) -> Result<(), NoMemory>
    ensures { OnOk result (all.new.items ≡ all.old.items ++ map row.Volume rows.now) }
{
    for row in rows {
        all.push(RowRef {
            row: AnyRow::Volume(row),
        })?;
    }
    Ok(())
}

/// Adds instances.
pub fn add_instances<'x>(
    rows: &'x [Boxed<Instance>],
    all: &mut Vec<RowRef<'x>>,
) -> Result<(), NoMemory>
    ensures { OnOk result (all.new.items ≡ all.old.items ++ map row.Instance rows.now) }
{
    for row in rows {
        all.push(RowRef {
            row: AnyRow::Instance(row),
        })?;
    }
    Ok(())
}

/// Adds those of the volumes that stand in a storage pool.
pub fn add_volumes_in<'x>(
    rows: &'x [Boxed<Volume>],
    pool: &str,
    all: &mut Vec<RowRef<'x>>,
) -> Result<(), NoMemory>
    ensures { OnOk result (all.new.items ≡ all.old.items
        ++ map row.Volume (filter (λ r. bytes_eq r.pool pool.now) rows.now)) }
{
    for row in rows {
        if row.pool.view() == pool {
            all.push(RowRef {
                row: AnyRow::Volume(row),
            })?;
        }
    }
    Ok(())
}

/// Adds those of the snapshots that are of an instance of this name.
pub fn add_snapshots<'x>(
    rows: &'x [Boxed<Snapshot>],
    instance: &str,
    all: &mut Vec<RowRef<'x>>,
) -> Result<(), NoMemory>
    ensures { OnOk result (all.new.items ≡ all.old.items
        ++ map row.Snapshot (filter (λ r. bytes_eq r.instance instance.now) rows.now)) }
{
    for row in rows {
        if row.instance.view() == instance {
            all.push(RowRef {
                row: AnyRow::Snapshot(row),
            })?;
        }
    }
    Ok(())
}
