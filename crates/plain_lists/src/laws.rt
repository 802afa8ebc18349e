ghost use Rattle.std.specs.Prelude.{◌≡◌, ◌≢◌, ◌+◌, ◌<◌, ◌≤◌, ℕ, Bool, true, false, Some, List, [], ◌∷◌, ◌++◌, length};
ghost use Rattle.std.specs.Prelude.{drop};
ghost use Rattle.std.specs.List.{sum_by, find};
ghost use Rattle.plain_lists.specs.Members.{Each, Distinct};
ghost use Rattle.plain_lists.specs.Puts.{Puts};
ghost use Rattle.plain_lists.specs.Edits.{replaced};
ghost use Rattle.plain_lists.specs.Rings.{ring_push};

/// An element that is put in adds its own amount to every sum, wherever it is put.
pub fn sum_of_put<T>()
    ensures { (f : T → ℕ) (x : T) (xs ys : List T) → Puts x xs ys → sum_by f ys ≡ f x + sum_by f xs }
{}

/// An element that replaces those of its test is found by this test, and every test that neither it nor a
/// replaced one passes finds what it found before.
pub fn found_after_replaced<T>()
    ensures own { (test before : T → Bool) (x : T) (xs : List T) → test x ≡ true
        → find test (replaced test before x xs) ≡ Some x }
    ensures others { (test before other : T → Bool) (x : T) (xs : List T) → other x ≡ false →
        ((y : T) → test y ≡ true → other y ≡ false) → find other (replaced test before x xs) ≡ find other xs }
{}

/// A ring with room keeps all and gains one; a full one loses the oldest.
pub fn ring_of_pushes<T>()
    ensures room { (cap : ℕ) (x : T) (xs : List T) → length xs < cap → ring_push cap x xs ≡ xs ++ x ∷ [] }
    ensures full { (cap : ℕ) (x : T) (xs : List T) → length xs ≡ cap → 0 < cap
        → ring_push cap x xs ≡ drop 1 xs ++ x ∷ [] }
{}
