ghost use Rattle.std.specs.Prelude.{◌≡◌};
ghost use Rattle.size_values.specs.declared.memory.Or.TheVariants as or;

use size_values::Or;

/// A part that cannot be read, by how many bytes are left where it begins.
#[derive(Clone, Copy, PartialEq, Eq)]
pub struct Unreadable {
    pub left: usize,
}

impl From<Unreadable> for Or<Unreadable> {
    ghost from_gives = { λ u e. e ≡ or.Why u };

    fn from(unreadable: Unreadable) -> Self {
        Or::Why(unreadable)
    }
}
