ghost use Rattle.std.specs.Prelude.{◌≡◌, ℕ, List, Some, None, if◌then◌else◌};
ghost use Rattle.std.specs.Ordering.{is_eq};
ghost use Rattle.size_values.specs.declared.entry.Entry.{Entry as EntryValue};
ghost use Rattle.record_keeper.specs.Entries.{IsOrderedEntries, entry_at, is_place, put_entry, remove_entry, seen_from};

/// A put leaves its entry at its own place and a removal leaves its place empty; every other place keeps what
/// it has. A list in order is known by what stands at each place.
pub fn changes_by_place()
    ensures put { (kind : ℕ) (key : List ℕ) (e : EntryValue) (es : List EntryValue) →
        entry_at kind key (put_entry e es) ≡ (if is_eq (seen_from kind key e) then Some e else entry_at kind key es) }
    ensures removal { (kind : ℕ) (key : List ℕ) (kind' : ℕ) (key' : List ℕ) (es : List EntryValue) →
        entry_at kind key (remove_entry kind' key' es)
        ≡ (if is_place kind key kind' key' then None else entry_at kind key es) }
    ensures known { (xs ys : List EntryValue) → IsOrderedEntries xs → IsOrderedEntries ys →
        ((kind : ℕ) (key : List ℕ) → entry_at kind key xs ≡ entry_at kind key ys) → xs ≡ ys }
{}

/// A put and a removal keep the order of the list, and that each kind and key stands there once.
pub fn order_of_changes()
    ensures put { (e : EntryValue) (es : List EntryValue) → IsOrderedEntries es → IsOrderedEntries (put_entry e es) }
    ensures removal { (kind : ℕ) (key : List ℕ) (es : List EntryValue) → IsOrderedEntries es
        → IsOrderedEntries (remove_entry kind key es) }
{}
