ghost use Rattle.std.specs.Prelude.{◌≡◌, List, length, is_some};
ghost use Rattle.journal_keeper.specs.Texts.{Commit};
ghost use Rattle.journal_keeper.specs.Keeping.{Stands};
ghost use Rattle.journal_keeper.specs.History.{Survives};

use crate::keeper::JournalKeeper;
use disk_model::Disk;
use record_keeper::Keeper;
use size_values::{EntryChange, Seq};

/// Makes commits one after the other, and says of each whether it was answered Ok. Whatever fails, a crash at any moment
/// leaves the commits that were answered Ok by then, in order, and at most one more.
pub fn commit_each<D: Disk>(
    keeper: &mut JournalKeeper<D>,
    commits: &[Seq<EntryChange>],
    answers: &mut [bool],
)
    requires { length answers.old ≡ length commits.now }
    ensures survives { (base : List Commit) (doubts : List Commit)
        → Stands (D.disk keeper.old.disk) keeper.old.gate base doubts
        → Survives (D.disk keeper.old.disk) (D.disk keeper.new.disk) keeper.new.gate base doubts commits.now answers.new }
{
    for (index, changes) in commits.iter().enumerate() {
        let done = keeper.commit(changes).is_ok();
        answers[index] = done;
    }
}
