//! What is true of all spellings. Each law is the contract of a function that does nothing.
ghost use Rattle.std.specs.Prelude.{◌≡◌, ℕ, ◌++◌, [], List, Ok, Err};
ghost use Rattle.size_values.specs.declared.entry.Entry.{Entry};
ghost use Rattle.records.specs.declared.rows.Row.{Row};
ghost use Rattle.row_codec.specs.declared.damage.Damaged.{Damaged};
ghost use Rattle.row_codec.specs.Spelling.{entry_of};
ghost use Rattle.row_codec.specs.Rows.{IsRow, Spells};
ghost use Rattle.row_codec.specs.Reading.{row_of};

/// A row has one spelling at most, and an entry spells one row at most.
pub fn one_spelling()
    ensures entries { (r : Row) (a b : Entry) → Spells r a → Spells r b → a ≡ b }
    ensures rows { (a b : Row) (e : Entry) → Spells a e → Spells b e → a ≡ b }
{}

/// A row with good names, moments below the bound, and short texts and lists has a spelling.
pub fn each_row_is_spelled()
    ensures { (r : Row) → IsRow r → Spells r (entry_of r) }
{}

/// No spelling of a body is a prefix of another one of the same kind.
pub fn no_spelling_goes_on()
    ensures { (r s : Row) (a b : Entry) (more : List ℕ) → Spells r a → Spells s b → a.kind ≡ b.kind
        → b.body ≡ a.body ++ more → more ≡ [] }
{}

/// An entry of a spelling is read as its row, and one that has a damage spells no row.
pub fn spelled_or_damaged()
    ensures spelled { (r : Row) (e : Entry) → Spells r e → row_of e ≡ Ok r }
    ensures damaged { (r : Row) (e : Entry) (why : Damaged) → row_of e ≡ Err why → ¬ (Spells r e) }
{}
