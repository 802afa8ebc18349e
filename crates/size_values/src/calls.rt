ghost use Rattle.std.specs.Prelude.{◌≡◌, ◌≤◌};
ghost use Rattle.std.specs.Bool.{OnTrue};
ghost use Rattle.size_values.specs.Calls.{is_next_failing, after_call, no_calls};
ghost use Rattle.size_values.specs.Causes.{Rose};

use crate::seq::Seq;
use std::marker::Model;

/// Numbers the calls of an object from 1 and knows which of them are to fail. The number of a call and the
/// count of failures stop at 2^64 - 1, and no call after the one of that number fails.
#[derive(Drop)]
pub struct FailingCalls {
    fails: Seq<u64>,
    made: u64,
    failed: u64,
}

impl Model for FailingCalls {
    ghost use Rattle.size_values.specs.Calls.{Calls};

    ghost Value = { Calls };

    ghost view = { λ c. record { fails = c.fails; made = c.made; failed = c.failed } };
}

impl FailingCalls {
    /// No call was made yet; those of the listed numbers will fail.
    pub fn new(fails: Seq<u64>) -> FailingCalls
        ensures { result ≡ no_calls fails }
    {
        FailingCalls {
            fails,
            made: 0,
            failed: 0,
        }
    }

    /// Counts one more call, and says whether it fails.
    pub fn next(&mut self) -> bool
        ensures fails { result ≡ is_next_failing self.old }
        ensures counted { self.new ≡ after_call self.old }
        ensures later { self.old.failed ≤ self.new.failed }
        ensures rose { OnTrue result (Rose self.old.failed self.new.failed) }
    {
        if self.made == u64::MAX {
            return false;
        }
        self.made += 1;
        let fails = self.fails.view().contains(&self.made);
        if fails {
            self.failed = self.failed.saturating_add(1);
        }
        fails
    }

    /// How many of the calls failed.
    pub fn failed(&self) -> u64
        ensures { result ≡ self.now.failed }
    {
        self.failed
    }
}
