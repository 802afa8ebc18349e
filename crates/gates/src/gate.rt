ghost use Rattle.std.specs.Prelude.{◌≡◌, ◌+◌, ℕ, Option};
ghost use Rattle.serial_steps.specs.core_turns.specs.Turns.{IsServed};
ghost use Rattle.gates.specs.History.{MayAnswer, GateIdle, Contents, GateTurn, capped, idled_after};

use row_machine::{Answer, Event};
use turnstile::Bell;

/// A way to the server. Each turn is one event, which the server answers as one step. Between two
/// turns others may have theirs.
pub trait Gate {
    // The server, where the gate shows it.
    ghost contents: { Self → Option Contents };

    // How many turns were made at this gate, and how often it idled until its time was up.
    ghost turned: { Self → ℕ };

    ghost idled: { Self → ℕ };

    /// One event.
    fn turn(&mut self, event: Event) -> Answer
        requires served { IsServed event }
        ensures contents { GateTurn (contents self.old) event result (contents self.new) }
        ensures may { MayAnswer event result }
        ensures turned { turned self.new ≡ capped (turned self.old + 1) }
        ensures idled { idled self.new ≡ idled self.old };

    /// Waits a while, in which the server goes on, or until this bell rings: whether the time was up. An
    /// idle is time, so one that ends sooner is not counted.
    fn idle(&mut self, bell: Bell) -> bool
        ensures contents { GateIdle result (contents self.old) (contents self.new) }
        ensures turned { turned self.new ≡ turned self.old }
        ensures idled { idled self.new ≡ idled_after result (idled self.old) };

    /// How many turns were made at this gate; the count stops at 2^64 - 1.
    fn made(&self) -> u64
        ensures { result ≡ turned self.now };

    /// How often this gate idled until its time was up; the count stops at 2^64 - 1.
    fn idles(&self) -> u64
        ensures { result ≡ idled self.now };
}
