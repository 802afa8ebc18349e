//! A commit is taken where a load has succeeded and its changes can be written. Any other is refused without a call of
//! the disk, and is counted.
ghost use Rattle.std.specs.Prelude.{◌≡◌, ℕ, List, false, option_map, is_some, OnOk, OnErr};
ghost use Rattle.record_keeper.specs.Entries.{after_changes};
ghost use Rattle.size_values.specs.CallCounts.{CountsFailure};
ghost use Rattle.journal_keeper.specs.Texts.{Commit};
ghost use Rattle.journal_keeper.specs.Keeping.{IsSound, Stands, Commits, IsTaken, is_read, is_taken, entries_told, faults_of};

use crate::commits::commit_to;
use crate::gate::Gate;
use crate::texts::is_short_commit;
use disk_model::Disk;
use record_keeper::KeeperFailed;
use size_values::{EntryChange, Or, Seq};
use std::alloc::Global;

/// Whether a load has succeeded.
fn is_read(gate: Gate) -> bool
    ensures { result ≡ is_read gate }
{
    match gate {
        Gate::Unread => false,
        Gate::Closed(_) | Gate::Unsure(_) => true,
    }
}

/// Whether the changes can be taken.
fn is_taken(gate: Gate, changes: &[EntryChange]) -> bool
    ensures { result ≡ is_taken gate changes.now }
{
    is_read(gate) && is_short_commit(changes)
}

/// Makes a commit, or refuses it.
pub fn take_commit<D: Disk>(
    alloc: Global,
    disk: &mut D,
    gate: &mut Gate,
    refused: &mut u64,
    changes: &Seq<EntryChange>,
) -> Result<(), Or<KeeperFailed>>
    requires sound { IsSound (D.disk disk.old) gate.old }
    ensures commits { (base : List Commit) (doubts : List Commit) → Stands (D.disk disk.old) gate.old base doubts
        → Commits (D.disk disk.old) (D.disk disk.new) gate.new base doubts changes.now result }
    ensures taken { IsTaken gate.old changes.now refused.old refused.new result }
    ensures untouched { is_taken gate.old changes.now ≡ false → disk.new ≡ disk.old }
    ensures ok { OnOk result (entries_told gate.new (D.disk disk.new).contents
        ≡ option_map (after_changes changes.now) (entries_told gate.old (D.disk disk.old).contents)) }
    ensures err { OnErr result (entries_told gate.new (D.disk disk.new).contents
        ≡ entries_told gate.old (D.disk disk.old).contents) }
    ensures sound { IsSound (D.disk disk.new) gate.new }
    ensures tells { is_some (D.disk disk.new).contents ≡ is_some (D.disk disk.old).contents }
    ensures failures { (bad_loads : ℕ) → CountsFailure (faults_of (D.disk disk.old).failures bad_loads refused.old)
        (faults_of (D.disk disk.new).failures bad_loads refused.new) result }
{
    if !is_taken(*gate, changes.view()) {
        *refused = refused.saturating_add(1);
        return Err(Or::Why(KeeperFailed));
    }
    commit_to(alloc, disk, gate, changes)
}
