//! A load: the file is settled and read. One of no byte or one byte gets its first gate.
ghost use Rattle.std.specs.Prelude.{◌≡◌, ◌≤◌, ◌<◌, [], List, length, is_some, None, IfOk, OnOk, OnErr, IfSome, IfNone, Some};
ghost use Rattle.record_keeper.specs.Entries.{IsOrderedEntries};
ghost use Rattle.size_values.specs.CallCounts.{CountsFailure};
ghost use Rattle.disk_model.specs.Disk.{disk_limit, MayStay};
ghost use Rattle.journal_keeper.specs.Chain.{HasBadRecord};
ghost use Rattle.journal_keeper.specs.Keeping.{IsSettled, IsMended, IsSound, Loads, CountsLoad, first_gate, read_gate};
ghost use Rattle.journal_keeper.specs.Keeping.{bad_after};

use crate::commits::mend;
use crate::device::{read_file, settle, write_through};
use crate::gate::Gate;
use crate::records::read_chain;
use disk_model::Disk;
use record_keeper::KeeperFailed;
use size_values::{Entry, Or, Seq};
use std::alloc::Global;

/// The gate of a journal, if it was loaded before, while the first gate is written.
fn first_gate(gate: Gate) -> Gate
    ensures { result ≡ first_gate gate }
{
    match gate {
        Gate::Unread => Gate::Unread,
        Gate::Closed(place) => Gate::Unsure(place),
        Gate::Unsure(place) => Gate::Unsure(place),
    }
}

/// The gate of a journal that was read up to a place; one that was loaded before has it there already.
fn read_gate(gate: Gate, place: u64) -> Gate
    ensures { result ≡ read_gate gate place }
{
    match gate {
        Gate::Unread => Gate::Closed(place),
        Gate::Closed(place) => Gate::Closed(place),
        Gate::Unsure(place) => Gate::Unsure(place),
    }
}

/// Writes the gate of an empty chain, and syncs.
fn begin<D: Disk>(
    alloc: Global,
    disk: &mut D,
    gate: &mut Gate,
    size: u64,
) -> Result<Seq<Entry>, Or<KeeperFailed>>
    requires settled { IsSettled (D.disk disk.old) size }
    requires short { size ≤ 1 }
    requires stays { MayStay (D.disk disk.old) }
    requires mended { IsMended gate.old }
    requires sound { IsSound (D.disk disk.old) gate.old }
    ensures loads { Loads (D.disk disk.old) (D.disk disk.new) gate.old gate.new result }
    ensures ordered { IfOk result IsOrderedEntries }
    ensures tells { is_some (D.disk disk.new).contents ≡ is_some (D.disk disk.old).contents }
    ensures failures { CountsFailure (D.disk disk.old).failures (D.disk disk.new).failures result }
{
    *gate = first_gate(*gate);
    write_through(disk, 0, &[0])?;
    *gate = Gate::Closed(0);
    Ok(Seq::new(alloc))
}

/// Reads a file of at least two bytes. Where it has a bad open record, its place is told.
fn read_on<D: Disk>(
    alloc: Global,
    disk: &mut D,
    gate: &mut Gate,
    size: u64,
    bad: &mut Option<u64>,
) -> Result<Seq<Entry>, Or<KeeperFailed>>
    requires settled { IsSettled (D.disk disk.old) size }
    requires long { 1 < size }
    requires limit { size ≤ disk_limit }
    requires stays { MayStay (D.disk disk.old) }
    requires mended { IsMended gate.old }
    requires sound { IsSound (D.disk disk.old) gate.old }
    requires none { bad.old ≡ None }
    ensures loads { Loads (D.disk disk.old) (D.disk disk.new) gate.old gate.new result }
    ensures ordered { IfOk result IsOrderedEntries }
    ensures bad { IfSome bad.new (λ place. IfSome (D.disk disk.new).contents (λ file. HasBadRecord file place)) }
    ensures tells { is_some (D.disk disk.new).contents ≡ is_some (D.disk disk.old).contents }
    ensures failures { CountsLoad (D.disk disk.old).failures (D.disk disk.new).failures bad.new result }
{
    let file = read_file(alloc, disk, size)?;
    let read = read_chain(alloc, &file);
    drop(file);
    match read {
        Ok((entries, place)) => {
            *gate = read_gate(*gate, place);
            Ok(entries)
        }
        Err(Or::NoMemory) => Err(Or::NoMemory),
        Err(Or::Why(place)) => {
            *bad = Some(place);
            Err(Or::Why(KeeperFailed))
        }
    }
}

/// Loads a journal whose gate is not unsure.
fn load_mended<D: Disk>(
    alloc: Global,
    disk: &mut D,
    gate: &mut Gate,
    bad: &mut Option<u64>,
) -> Result<Seq<Entry>, Or<KeeperFailed>>
    requires mended { IsMended gate.old }
    requires sound { IsSound (D.disk disk.old) gate.old }
    requires none { bad.old ≡ None }
    ensures loads { Loads (D.disk disk.old) (D.disk disk.new) gate.old gate.new result }
    ensures ordered { IfOk result IsOrderedEntries }
    ensures bad { IfSome bad.new (λ place. IfSome (D.disk disk.new).contents (λ file. HasBadRecord file place)) }
    ensures tells { is_some (D.disk disk.new).contents ≡ is_some (D.disk disk.old).contents }
    ensures failures { CountsLoad (D.disk disk.old).failures (D.disk disk.new).failures bad.new result }
{
    let size = settle(disk)?;
    if size <= 1 {
        begin(alloc, disk, gate, size)
    } else {
        read_on(alloc, disk, gate, size, bad)
    }
}

/// Loads a journal. Where it has a bad open record, its place is told.
pub fn load_from<D: Disk>(
    alloc: Global,
    disk: &mut D,
    gate: &mut Gate,
    bad: &mut Option<u64>,
) -> Result<Seq<Entry>, Or<KeeperFailed>>
    requires sound { IsSound (D.disk disk.old) gate.old }
    requires none { bad.old ≡ None }
    ensures loads { Loads (D.disk disk.old) (D.disk disk.new) gate.old gate.new result }
    ensures ordered { IfOk result IsOrderedEntries }
    ensures bad { IfSome bad.new (λ place. IfSome (D.disk disk.new).contents (λ file. HasBadRecord file place)) }
    ensures tells { is_some (D.disk disk.new).contents ≡ is_some (D.disk disk.old).contents }
    ensures failures { CountsLoad (D.disk disk.old).failures (D.disk disk.new).failures bad.new result }
{
    mend(disk, gate)?;
    load_mended(alloc, disk, gate, bad)
}

/// The count of loads that met a bad open record, after a load.
pub fn count_bad(bad_loads: u64, bad: Option<u64>) -> u64
    ensures { result ≡ bad_after bad_loads bad }
{
    match bad {
        Some(_) => bad_loads.saturating_add(1),
        None => bad_loads,
    }
}
