ghost use Rattle.std.specs.Prelude.{◌≡◌, option_map, IfOk, IfSome, OnOk, OnErr};
ghost use Rattle.size_values.specs.CallCounts.{CountsFailure, called};
ghost use Rattle.record_keeper.specs.Entries.{IsOrderedEntries, after_changes};
ghost use Rattle.record_keeper.specs.Store.{Store};

use size_values::{Entry, EntryChange, Or, Seq};
use thiserror::Error;

/// A call of a keeper failed.
#[derive(Clone, Copy, Debug, PartialEq, Eq, Error)]
#[error("the keeper failed")]
pub struct KeeperFailed;

/// Keeps entries beyond a run: at most one for each kind and key. Each call of `load` and `commit` is counted. A
/// failure is answered only where the keeper's count of failures rose in that call, and any other answer leaves that
/// count as it was. Any call may be out of memory, which is no failure.
pub trait Keeper {
    /// What is seen of the keeper. Its entries are sorted by kind and key, each pair once; None where it doesn't tell
    /// them.
    ghost store: { Self → Store };

    /// The kept entries, sorted by kind and key, each pair once. Whatever it answers, they stay.
    fn load(&mut self) -> Result<Seq<Entry>, Or<KeeperFailed>>
        ensures found { IfOk result (λ found. IfSome (store self.old).contents (λ kept. found ≡ kept)) }
        ensures ordered { IfOk result IsOrderedEntries }
        ensures same { (store self.new).contents ≡ (store self.old).contents }
        ensures calls { (store self.new).calls ≡ called 1 (store self.old).calls }
        ensures failures { CountsFailure (store self.old).failures (store self.new).failures result };

    /// Makes all the changes, in their order, or none of them: where it is refused, the entries stay.
    fn commit(&mut self, changes: &Seq<EntryChange>) -> Result<(), Or<KeeperFailed>>
        ensures ok { OnOk result ((store self.new).contents
            ≡ option_map (after_changes changes.now) (store self.old).contents) }
        ensures err { OnErr result ((store self.new).contents ≡ (store self.old).contents) }
        ensures calls { (store self.new).calls ≡ called 1 (store self.old).calls }
        ensures failures { CountsFailure (store self.old).failures (store self.new).failures result };

    /// The count of failures so far.
    fn faults(&self) -> u64
        ensures { result ≡ (store self.now).failures };
}
