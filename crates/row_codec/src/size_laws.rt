//! What a size tells. Each law is the contract of a function that does nothing.
ghost use Rattle.std.specs.Prelude.{ℕ, ◌≤◌, ◌<◌, length};
ghost use Rattle.records.specs.declared.rows.Row.{Row};
ghost use Rattle.row_codec.specs.Spelling.{body_of};
ghost use Rattle.row_codec.specs.Rows.{HasShortParts};
ghost use Rattle.row_codec.specs.Sizes.{capped, largest_body};

/// A row whose body has 65,536 bytes or less has a length of four bytes for each of its texts and lists.
pub fn small_rows_are_short()
    ensures { (r : Row) → length (body_of r) ≤ largest_body → HasShortParts r }
{}

/// A size of 65,536 or less is the number itself.
pub fn capped_small()
    ensures { (n : ℕ) → capped n ≤ largest_body → n ≤ largest_body }
{}

/// A size above 65,536 is one of more bytes than those.
pub fn capped_large()
    ensures { (n : ℕ) → largest_body < capped n → largest_body < n }
{}
