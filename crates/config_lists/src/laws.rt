//! What a look-up finds after each change, and that look-ups tell all that there is to know. Each law is
//! the contract of a function that does nothing.
ghost use Rattle.std.specs.Prelude.{◌≡◌, ◌≢◌, ℕ, List, []};
ghost use Rattle.std.specs.Option.{option_or};
ghost use Rattle.config_lists.specs.Entries.{value_of, put, without, replaced, KeysRise};
ghost use Rattle.config_lists.specs.Settings.{Settings, setting, IsConfig};
ghost use Rattle.config_lists.specs.Changes.{patched, settled, value_after, IsChanges};

/// Entries with rising keys are determined by their look-ups.
pub fn look_ups_tell_entries<V>()
    ensures { (a b : List (List ℕ × V)) → KeysRise a → KeysRise b → ((key : List ℕ) → value_of a key ≡ value_of b key)
        → a ≡ b }
{}

/// A put gives its key the value, and leaves the other keys. Keys still rise.
pub fn value_after_put<V>()
    ensures here { (entries : List (List ℕ × V)) (key : List ℕ) (value : V)
        → value_of (put entries key value) key ≡ Some value }
    ensures others { (entries : List (List ℕ × V)) (key : List ℕ) (value : V) (other : List ℕ) → other ≢ key
        → value_of (put entries key value) other ≡ value_of entries other }
    ensures rising { (entries : List (List ℕ × V)) (key : List ℕ) (value : V) → KeysRise entries
        → KeysRise (put entries key value) }
{}

/// A removal leaves its key without a value, and leaves the other keys. Keys still rise.
pub fn value_after_removal<V>()
    ensures here { (entries : List (List ℕ × V)) (key : List ℕ) → value_of (without entries key) key ≡ None }
    ensures others { (entries : List (List ℕ × V)) (key other : List ℕ) → other ≢ key
        → value_of (without entries key) other ≡ value_of entries other }
    ensures rising { (entries : List (List ℕ × V)) (key : List ℕ) → KeysRise entries → KeysRise (without entries key) }
{}

/// A replacement gives each of its keys the new value, whole, and leaves the other keys. Keys still rise.
pub fn value_after_replacement<V>()
    ensures values { (entries by : List (List ℕ × V)) (key : List ℕ) → KeysRise by
        → value_of (replaced entries by) key ≡ option_or (value_of by key) (value_of entries key) }
    ensures rising { (entries by : List (List ℕ × V)) → KeysRise entries → KeysRise (replaced entries by) }
{}

/// A patch gives each key its changed value, takes out the keys whose change is empty, and leaves the
/// other keys. What it gives is a `Config`.
pub fn setting_after_patch()
    ensures values { (config changes : Settings) (key : List ℕ) → KeysRise changes
        → setting (patched config changes) key ≡ value_after (setting changes key) (setting config key) }
    ensures config { (config changes : Settings) → IsConfig config → IsChanges changes
        → IsConfig (patched config changes) }
{}

/// Changes by themselves give each key its changed value, unless that is empty.
pub fn setting_after_settling()
    ensures values { (changes : Settings) (key : List ℕ) → KeysRise changes
        → setting (settled changes) key ≡ value_after (setting changes key) None }
    ensures config { (changes : Settings) → IsChanges changes → IsConfig (settled changes) }
{}
