//! A commit: an unsure gate is closed first, then the record is written behind the closed gate, and then the gate is
//! opened. A gate stands closed on the disk before anything is written behind it.
ghost use Rattle.std.specs.Prelude.{◌≡◌, ◌∷◌, ◌++◌, [], List, length, true, is_some, OnOk, OnErr};
ghost use Rattle.size_values.specs.CallCounts.{CountsFailure};
ghost use Rattle.journal_keeper.specs.Texts.{Commit, is_short_commit};
ghost use Rattle.journal_keeper.specs.Keeping.{Stands, StandsOn, IsSound, IsLoaded, Commits, mended};
ghost use Rattle.journal_keeper.specs.declared.gate.Gate.TheVariants as gates;

use crate::device::write_through;
use crate::gate::Gate;
use crate::records::block_of;
use disk_model::Disk;
use record_keeper::KeeperFailed;
use size_values::{EntryChange, Or, Seq};
use std::alloc::Global;

/// Writes an unsure gate as closed, and syncs.
pub fn mend<D: Disk>(disk: &mut D, gate: &mut Gate) -> Result<(), Or<KeeperFailed>>
    requires { IsSound (D.disk disk.old) gate.old }
    ensures mended { OnOk result (gate.new ≡ mended gate.old) }
    ensures err { OnErr result (gate.new ≡ gate.old) }
    ensures stands { (base : List Commit) (doubts : List Commit) → Stands (D.disk disk.old) gate.old base doubts
        → StandsOn (D.disk disk.old) (D.disk disk.new) gate.new base doubts }
    ensures unread { gate.old ≡ gates.Unread → disk.new ≡ disk.old }
    ensures tells { is_some (D.disk disk.new).contents ≡ is_some (D.disk disk.old).contents }
    ensures failures { CountsFailure (D.disk disk.old).failures (D.disk disk.new).failures result }
{
    match *gate {
        Gate::Unsure(place) => {
            write_through(disk, place, &[0])?;
            *gate = Gate::Closed(place);
            Ok(())
        }
        Gate::Unread | Gate::Closed(_) => Ok(()),
    }
}

/// Writes the record of a commit behind the closed gate at a place, and opens the gate.
fn add_record<D: Disk>(
    alloc: Global,
    disk: &mut D,
    gate: &mut Gate,
    place: u64,
    changes: &Seq<EntryChange>,
) -> Result<(), Or<KeeperFailed>>
    requires short { is_short_commit changes.now ≡ true }
    requires gate { gate.old ≡ gates.Closed place }
    requires sound { IsSound (D.disk disk.old) (gates.Closed place) }
    ensures commits { (base : List Commit) (doubts : List Commit) → Stands (D.disk disk.old) (gates.Closed place) base doubts
        → Commits (D.disk disk.old) (D.disk disk.new) gate.new base doubts changes.now result }
    ensures tells { is_some (D.disk disk.new).contents ≡ is_some (D.disk disk.old).contents }
    ensures failures { CountsFailure (D.disk disk.old).failures (D.disk disk.new).failures result }
{
    let block = block_of(alloc, changes)?;
    write_through(disk, place + 1, &block)?;
    *gate = Gate::Unsure(place);
    write_through(disk, place, &[1])?;
    *gate = Gate::Closed(place + block.len() as u64);
    Ok(())
}

/// Makes a commit on a journal that was loaded.
pub fn commit_to<D: Disk>(
    alloc: Global,
    disk: &mut D,
    gate: &mut Gate,
    changes: &Seq<EntryChange>,
) -> Result<(), Or<KeeperFailed>>
    requires short { is_short_commit changes.now ≡ true }
    requires loaded { IsLoaded gate.old }
    requires sound { IsSound (D.disk disk.old) gate.old }
    ensures commits { (base : List Commit) (doubts : List Commit) → Stands (D.disk disk.old) gate.old base doubts
        → Commits (D.disk disk.old) (D.disk disk.new) gate.new base doubts changes.now result }
    ensures tells { is_some (D.disk disk.new).contents ≡ is_some (D.disk disk.old).contents }
    ensures failures { CountsFailure (D.disk disk.old).failures (D.disk disk.new).failures result }
{
    mend(disk, gate)?;
    match *gate {
        Gate::Closed(place) => add_record(alloc, disk, gate, place, changes),
        Gate::Unread | Gate::Unsure(_) => unreachable!(),
    }
}
