//! How many commands a server has answered, counted from what it asks of its clock and of its host.
ghost use Rattle.std.specs.Prelude.{◌≡◌};
ghost use Rattle.incus_run.specs.Counts.{after_call, after_reading, no_counts};

/// What a server asked of its outside last.
#[derive(Clone, Copy)]
pub enum Last {
    /// A reading of the clock, for a command or for a first call that the worker asks for: what is asked next shows
    /// which of them.
    Reading,
    /// A call of the host.
    Call,
    /// The reading of the clock for the report of a call, or nothing yet.
    Report,
}

/// How many commands a server on one thread has answered. It reads its clock once for each command; once for each
/// operation whose first call its worker asks for, right before that call; and once for the report of each call, right
/// after it.
#[derive(Clone, Copy)]
pub struct Counts {
    /// How many commands were answered and followed by one more reading or call; it stops at 2^64 - 1.
    pub answered: u64,
    pub last: Last,
}

impl Counts {
    /// Nothing was asked yet.
    pub fn new() -> Counts
        ensures { result ≡ no_counts }
    {
        Counts {
            answered: 0,
            last: Last::Report,
        }
    }

    /// After one more reading of the clock.
    pub fn after_reading(self) -> Counts
        ensures { result ≡ after_reading self }
    {
        match self.last {
            // No call followed the reading before: it was for a command, which is answered.
            Last::Reading => Counts {
                answered: self.answered.saturating_add(1),
                last: Last::Reading,
            },
            Last::Call => Counts {
                answered: self.answered,
                last: Last::Report,
            },
            Last::Report => Counts {
                answered: self.answered,
                last: Last::Reading,
            },
        }
    }

    /// After one more call of the host.
    pub fn after_call(self) -> Counts
        ensures { result ≡ after_call self }
    {
        Counts {
            answered: self.answered,
            last: Last::Call,
        }
    }
}
