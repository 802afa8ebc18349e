ghost use Rattle.std.specs.Prelude.{◌≡◌};
ghost use Rattle.size_values.specs.declared.memory.Or.TheVariants as or;

use size_values::Or;

/// Why an entry is no spelling of a row: its kind is none of 1 to 7; or its key is no key of this kind; or its
/// body is no spelling, from this place on. The place is the start of the first byte, number, text or count that
/// cannot be read or is out of order, or of the first byte left over.
#[derive(Clone, Copy, PartialEq, Eq)]
pub enum Damaged {
    Kind,
    Key,
    Body(u64),
}

impl From<Damaged> for Or<Damaged> {
    ghost from_gives = { λ d e. e ≡ or.Why d };

    fn from(damaged: Damaged) -> Self {
        Or::Why(damaged)
    }
}
