ghost use Rattle.std.specs.Prelude.{◌≡◌, ℕ, IfSome, IfNone};
ghost use Rattle.size_values.specs.Causes.{Rose};

/// Two readings of a count of faults between which it rose. A count stops at 2^64 - 1, and there it counts
/// as risen though both readings are equal.
#[derive(Clone, Copy, PartialEq, Eq)]
pub struct Rise {
    pub before: u64,
    pub after: u64,
    ghost rose: { Rose before after },
}

impl Rise {
    /// The two readings, where the count rose between them.
    pub fn of(before: u64, after: u64) -> Option<Rise>
        ensures some { IfSome result (λ r. (r.before ≡ before) × (r.after ≡ after)) }
        ensures none { IfNone result (¬ Rose before after) }
    {
        if before.saturating_add(1) <= after {
            Some(Rise { before, after })
        } else {
            None
        }
    }
}
