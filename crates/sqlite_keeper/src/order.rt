ghost use Rattle.std.specs.Prelude.{◌≡◌, ◌↔◌, IsTrue};
ghost use Rattle.std.specs.Ordering.{is_lt};
ghost use Rattle.record_keeper.specs.Entries.{IsOrderedEntries, entry_order};

use size_values::Entry;
use std::cmp::Ordering;

/// Whether an entry stands before another one: by its kind, and within the kind by its key.
fn stands_before(first: &Entry, second: &Entry) -> bool
    ensures { result ≡ is_lt (entry_order first.now second.now) }
{
    first
        .kind
        .cmp(&second.kind)
        .then(first.key.compare(&second.key))
        .is_lt()
}

/// Whether the entries are sorted by kind and key, each pair once.
pub(crate) fn are_ordered(entries: &[Entry]) -> bool
    ensures { IsTrue result ↔ IsOrderedEntries entries.now }
{
    entries.is_sorted_by(stands_before)
}
