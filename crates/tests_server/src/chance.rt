//! Numbers that look like chance and follow from a seed alone (xorshift of 64 bits).

/// Where the numbers stand.
#[derive(Clone, Copy)]
pub(crate) struct Chance {
    state: u64,
}

impl Chance {
    /// The numbers of a seed. Of the seed 0 they would all be 0, so it counts as another one.
    pub(crate) fn of(seed: u64) -> Chance {
        Chance {
            state: seed.max(1).wrapping_mul(0x9E37_79B9_7F4A_7C15),
        }
    }

    fn next(&mut self) -> u64 {
        let mut state = self.state;
        state ^= state << 13;
        state ^= state >> 7;
        state ^= state << 17;
        self.state = state;
        state
    }

    /// The next number below this one, or 0.
    pub(crate) fn below(&mut self, limit: usize) -> usize {
        let number = usize::try_from(self.next() >> 33).unwrap_or(0);
        number % limit.max(1)
    }

    /// One of these texts.
    pub(crate) fn one_of(&mut self, texts: &[&'static str]) -> &'static str {
        let place = self.below(texts.len());
        texts.get(place).copied().unwrap_or("")
    }
}
