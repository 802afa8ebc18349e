ghost use Rattle.std.specs.Prelude.{◌≡◌};
ghost use Rattle.size_values.specs.Fault.{fault_number};

/// Why a text is no value. Where several faults stand over one text, a reader answers the first of them in
/// the order of this list. A place counts bytes from 0.
#[derive(Clone, Copy, PartialEq, Eq)]
pub enum ValueFault {
    /// The text is empty.
    Empty,
    /// The text leaves its form at this place, which is its length where it ends too early.
    BadByte(u64),
    /// The suffix that begins at this place is none of those that are listed.
    UnknownSuffix(u64),
    /// A number has more than twenty digits, or is 2^63 or more.
    TooLarge,
    /// A number is outside its range, or a word is none of those that are listed.
    OutOfRange,
}

impl ValueFault {
    /// The number of the fault, from 1 to 5 in the order of the list, as replies carry it.
    pub fn number(&self) -> u64
        ensures { result ≡ fault_number self.now }
    {
        match self {
            ValueFault::Empty => 1,
            ValueFault::BadByte(_) => 2,
            ValueFault::UnknownSuffix(_) => 3,
            ValueFault::TooLarge => 4,
            ValueFault::OutOfRange => 5,
        }
    }
}

/// A text leaves its form at this place, which is its length where it ends too early.
#[derive(Clone, Copy)]
pub struct Stray {
    pub place: usize,
}

impl From<Stray> for ValueFault {
    ghost use Rattle.size_values.specs.declared.fault.ValueFault.TheVariants.{BadByte};

    ghost from_gives = { λ stray fault. fault ≡ BadByte stray.place };

    fn from(stray: Stray) -> Self {
        ValueFault::BadByte(stray.place as u64)
    }
}
