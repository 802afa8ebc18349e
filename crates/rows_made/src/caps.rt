//! How many rows of a kind there may be, and how large one may be.
ghost use Rattle.std.specs.Prelude.{◌≡◌};
ghost use Rattle.row_machine.specs.machine.TableRules.{largest_row};
ghost use Rattle.row_machine.specs.machine.Kinds.{cap_of};

use size_values::ObjectKind;

/// The most bytes that the body of a row may have.
pub const LARGEST_ROW: u64 = 65_536;

/// The constant is the number that the rules speak of.
pub fn largest_row_is_64_kib()
    ensures { LARGEST_ROW ≡ largest_row }
{}

/// How many rows of a kind there may be, with those that live operations claim. Operations are no rows.
pub fn cap_of(kind: ObjectKind) -> u64
    ensures { result ≡ cap_of kind }
{
    match kind {
        ObjectKind::Project => 1_024,
        ObjectKind::Profile => 16_384,
        ObjectKind::Network => 1_024,
        ObjectKind::Pool => 64,
        ObjectKind::Volume => 65_536,
        ObjectKind::Instance => 65_536,
        ObjectKind::Snapshot => 65_536,
        ObjectKind::Operation => 0,
    }
}
