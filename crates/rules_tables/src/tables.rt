//! C1 and C2: tables that are full, and rows that are too large.
ghost use Rattle.std.specs.Prelude.{◌≡◌, ◌≤◌, ◌∷◌, [], length};
ghost use Rattle.std.specs.List.{filter_map};
ghost use Rattle.std.specs.Option.{option_copied, option_to_list};
ghost use Rattle.plain_lists.specs.Firsts.{first, first_of};
ghost use Rattle.size_values.specs.Causes.{Says};
ghost use Rattle.row_machine.specs.machine.Changes.{rows_put};
ghost use Rattle.row_machine.specs.machine.Claims.{claimed_instance, claimed_volume, claimed_snapshot};
ghost use Rattle.row_machine.specs.shown.Urls.{target_of};
ghost use Rattle.row_machine.specs.machine.TableRules.{count_of, row_kinds, too_many, too_large, tables_broken};

use operations::Operation;
use records::{Refusal, Row, Rule};
use row_codec::row_size;
use row_machine::{RowChange, Task};
use row_readings::{StateRef, claimed_instance, claimed_snapshot, claimed_volume};
use rows_made::{LARGEST_ROW, cap_of};
use rules_refusals::on_kind;
use size_values::{ObjectKind, Or};
use std::alloc::Global;

/// The kinds of rows.
const ROW_KINDS: [ObjectKind; 7] = [
    ObjectKind::Project,
    ObjectKind::Profile,
    ObjectKind::Network,
    ObjectKind::Pool,
    ObjectKind::Volume,
    ObjectKind::Instance,
    ObjectKind::Snapshot,
];

/// How many instances an operation claims, one or none.
fn instances_in(work: &Task) -> usize
    ensures is { result ≡ length (option_to_list (claimed_instance work.now)) }
    ensures few { result ≤ 1 }
{
    match claimed_instance(work) {
        Some(_) => 1,
        None => 0,
    }
}

/// How many instances live operations claim.
fn claimed_instances(live: &[Operation<Task>]) -> usize
    ensures { result ≡ length (filter_map (λ o. claimed_instance o.work) live.now) }
{
    let mut count = 0;
    for operation in live {
        count += instances_in(&operation.work);
    }
    count
}

/// How many volumes an operation claims, one or none.
fn volumes_in(work: &Task) -> usize
    ensures is { result ≡ length (option_to_list (claimed_volume work.now)) }
    ensures few { result ≤ 1 }
{
    match claimed_volume(work) {
        Some(_) => 1,
        None => 0,
    }
}

/// How many volumes live operations claim.
fn claimed_volumes(live: &[Operation<Task>]) -> usize
    ensures { result ≡ length (filter_map (λ o. claimed_volume o.work) live.now) }
{
    let mut count = 0;
    for operation in live {
        count += volumes_in(&operation.work);
    }
    count
}

/// How many snapshots an operation claims, one or none.
fn snapshots_in(work: &Task) -> usize
    ensures is { result ≡ length (option_to_list (claimed_snapshot work.now)) }
    ensures few { result ≤ 1 }
{
    match claimed_snapshot(work) {
        Some(_) => 1,
        None => 0,
    }
}

/// How many snapshots live operations claim.
fn claimed_snapshots(live: &[Operation<Task>]) -> usize
    ensures { result ≡ length (filter_map (λ o. claimed_snapshot o.work) live.now) }
{
    let mut count = 0;
    for operation in live {
        count += snapshots_in(&operation.work);
    }
    count
}

/// How many rows of a kind there are and are claimed. Operations are no rows.
fn count_of(view: &StateRef<'_>, kind: ObjectKind) -> u128
    ensures { result ≡ count_of view.now kind }
{
    match kind {
        ObjectKind::Project => view.projects.len() as u128,
        ObjectKind::Profile => view.profiles.len() as u128,
        ObjectKind::Network => view.networks.len() as u128,
        ObjectKind::Pool => view.pools.len() as u128,
        ObjectKind::Volume => view.volumes.len() as u128 + claimed_volumes(view.live) as u128,
        ObjectKind::Instance => view.instances.len() as u128 + claimed_instances(view.live) as u128,
        ObjectKind::Snapshot => view.snapshots.len() as u128 + claimed_snapshots(view.live) as u128,
        ObjectKind::Operation => 0,
    }
}

/// A table is full.
fn too_many(alloc: Global, view: &StateRef<'_>, kind: ObjectKind) -> Result<(), Or<Refusal>>
    ensures { Says result (too_many view.now kind) }
{
    let cap = cap_of(kind);
    if count_of(view, kind) <= cap as u128 {
        return Ok(());
    }
    Err(Or::Why(on_kind(alloc, Rule::C1, kind, cap)?))
}

/// The first table that is full.
fn tables_full(alloc: Global, view: &StateRef<'_>) -> Result<(), Or<Refusal>>
    ensures { Says result (first_of (too_many view.now) row_kinds) }
{
    for kind in ROW_KINDS {
        if let Err(why) = too_many(alloc, view, kind) {
            return Err(why);
        }
    }
    Ok(())
}

fn kind_of(row: &Row) -> ObjectKind
    ensures { result ≡ (target_of row.now).kind }
{
    match row {
        Row::Project(_) => ObjectKind::Project,
        Row::Profile(_) => ObjectKind::Profile,
        Row::Network(_) => ObjectKind::Network,
        Row::Pool(_) => ObjectKind::Pool,
        Row::Volume(_) => ObjectKind::Volume,
        Row::Instance(_) => ObjectKind::Instance,
        Row::Snapshot(_) => ObjectKind::Snapshot,
    }
}

/// C2: the row has more bytes than any kept row may have.
fn too_large(alloc: Global, row: &Row) -> Result<(), Or<Refusal>>
    ensures { Says result (too_large row.now) }
{
    let size = row_size(row);
    if size <= LARGEST_ROW {
        return Ok(());
    }
    Err(Or::Why(on_kind(alloc, Rule::C2, kind_of(row), size)?))
}

fn change_too_large(alloc: Global, change: &RowChange) -> Result<(), Or<Refusal>>
    ensures { Says result (first_of too_large (rows_put (change.now ∷ []))) }
{
    match change {
        RowChange::Put(row) => too_large(alloc, row),
        RowChange::Remove(_, _) => Ok(()),
    }
}

fn changes_too_large(alloc: Global, changes: &[RowChange]) -> Result<(), Or<Refusal>>
    ensures { Says result (first_of (λ c. first_of too_large (rows_put (c ∷ []))) changes.now) }
{
    for change in changes {
        if let Err(why) = change_too_large(alloc, change) {
            return Err(why);
        }
    }
    Ok(())
}

fn put_too_large(alloc: Global, changes: &[RowChange]) -> Result<(), Or<Refusal>>
    ensures { Says result (first_of too_large (rows_put changes.now)) }
{
    changes_too_large(alloc, changes)
}

fn claim_too_large(alloc: Global, claim: Option<&Row>) -> Result<(), Or<Refusal>>
    ensures { Says result (first_of too_large (option_to_list (option_copied claim.entry))) }
{
    match claim {
        Some(row) => too_large(alloc, row),
        None => Ok(()),
    }
}

/// The first table that is full after the changes, and then the first of the rows that they put that is too large.
#[tactic(auto, unfolding(row_machine::specs::machine::TableRules::tables_broken))]
pub fn tables_broken(
    alloc: Global,
    after: &StateRef<'_>,
    changes: &[RowChange],
) -> Result<(), Or<Refusal>>
    ensures { Says result (tables_broken after.now (rows_put changes.now)) }
{
    tables_full(alloc, after)?;
    put_too_large(alloc, changes)
}

/// The first table that is full with the claim of a new operation, and then that the claimed row is too large.
#[tactic(auto, unfolding(row_machine::specs::machine::TableRules::tables_broken))]
pub fn claim_tables_broken(
    alloc: Global,
    after: &StateRef<'_>,
    claim: Option<&Row>,
) -> Result<(), Or<Refusal>>
    ensures { Says result (tables_broken after.now (option_to_list (option_copied claim.entry))) }
{
    tables_full(alloc, after)?;
    claim_too_large(alloc, claim)
}
