ghost use Rattle.std.specs.Prelude.{◌≡◌, ℕ, ◌+◌, ◌≤◌, Bool, true, false, IfOk};
ghost use Rattle.serving.specs.Slots.{KeepsSlot};

use crate::job::Job;
use crate::link::Link;
use size_values::NoMemory;

/// What makes the jobs of a server, and holds what they share. A job is made over a slot, which comes back when the job
/// has ended.
pub trait Jobs<J: Job> {
    type Source;

    type Sink;

    /// All that a job needs of the server.
    type Slot: Drop;

    // How many slots are free.
    ghost slots: { Self → ℕ };

    // How many slots there is room for.
    ghost room: { Self → ℕ };

    // Whether the workers were told to end.
    ghost closed: { Self → Bool };

    /// Takes a slot.
    fn slot(&mut self) -> Self::Slot
        requires left { 1 ≤ slots self.old }
        ensures slots { slots self.new + 1 ≡ slots self.old }
        ensures room { room self.old ≤ room self.new }
        ensures closed { closed self.new ≡ closed self.old };

    /// The job that serves a link.
    fn link_job(&mut self, slot: Self::Slot, link: Link<Self::Source, Self::Sink>) -> J
        ensures link { J.link result ≡ true }
        ensures slots { slots self.new ≡ slots self.old }
        ensures room { room self.old ≤ room self.new }
        ensures closed { closed self.new ≡ closed self.old };

    /// Tells a link that so many are served that it can't be, and lets it go. It waits for nobody.
    fn turn_away(&mut self, link: Link<Self::Source, Self::Sink>)
        ensures slots { slots self.new ≡ slots self.old }
        ensures room { room self.old ≤ room self.new }
        ensures closed { closed self.new ≡ closed self.old };

    /// The job of one worker.
    fn worker_job(&mut self, slot: Self::Slot) -> Result<J, NoMemory>
        requires room { slots self.old + 1 ≤ room self.old }
        ensures worker { IfOk result (λ job. J.link job ≡ false) }
        ensures slots { KeepsSlot (slots self.old) (slots self.new) result }
        ensures room { room self.old ≤ room self.new }
        ensures closed { closed self.new ≡ closed self.old };

    /// Takes in what is left of a job that has ended.
    fn take_back(&mut self, out: J::Out)
        requires room { slots self.old + 1 ≤ room self.old }
        ensures slots { slots self.new ≡ slots self.old + 1 }
        ensures room { room self.old ≤ room self.new }
        ensures closed { closed self.new ≡ closed self.old };

    /// Tells the workers to end once nothing is left to do.
    fn close(&mut self)
        requires left { 1 ≤ slots self.old }
        ensures slots { slots self.new ≡ slots self.old }
        ensures room { room self.old ≤ room self.new }
        ensures closed { closed self.new ≡ true };
}
