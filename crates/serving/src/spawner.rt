ghost use Rattle.std.specs.Prelude.{◌≡◌, ℕ, ◌≤◌, if◌then◌else◌};
ghost use Rattle.size_values.specs.Causes.{HasCause};
ghost use Rattle.serving.specs.Counts.{Counts, AreSmall, Starts, StartsOrDeclines, TakesEnded, without_task};

use crate::job::Job;
use thiserror::Error;

/// A job was not started.
#[derive(Clone, Copy, Debug, PartialEq, Eq, Error)]
#[error("the job was not started")]
pub struct StartFailed;

/// Starts jobs beside each other. A start that is refused raises the count of failures.
pub trait Spawner<J: Job> {
    /// A job that was started and not taken in yet.
    type Task: Drop;

    ghost counts: { Self → Counts };

    // How many starts were refused; the count stops at 2^64 - 1.
    ghost failures: { Self → ℕ };

    // It can start jobs.
    ghost ready: { Self → Type 0 };

    /// Starts the job. One that is refused is dropped.
    fn start(&mut self, job: J) -> Result<Self::Task, StartFailed>
        requires small { AreSmall (counts self.old) }
        requires ready { ready self.old }
        ensures counts { Starts (J.link job) (counts self.old) (counts self.new) result }
        ensures cause { HasCause (failures self.old) (failures self.new) result }
        ensures ready { ready self.new };

    /// Starts the job. One that is refused is declined, before the call returns.
    fn start_or_decline(&mut self, job: J) -> Result<Self::Task, J::Out>
        requires small { AreSmall (counts self.old) }
        requires ready { ready self.old }
        ensures counts { StartsOrDeclines (J.link job) (counts self.old) (counts self.new) result }
        ensures cause { HasCause (failures self.old) (failures self.new) result }
        ensures ready { ready self.new };

    /// Takes in what is left of a job that has ended, without waiting, or gives its task back.
    fn take_ended(&mut self, task: Self::Task) -> Result<J::Out, Self::Task>
        requires out { 1 ≤ (counts self.old).out }
        requires ready { ready self.old }
        ensures counts { TakesEnded (counts self.old) (counts self.new) result }
        ensures failures { failures self.new ≡ failures self.old }
        ensures ready { ready self.new };

    /// Waits for the end of a job, and takes in what is left of it.
    fn take(&mut self, task: Self::Task) -> J::Out
        requires out { 1 ≤ (counts self.old).out }
        requires ready { ready self.old }
        ensures counts { counts self.new ≡ without_task (counts self.old) }
        ensures failures { failures self.new ≡ failures self.old }
        ensures ready { ready self.new };

    /// How many link jobs were begun, or how many others.
    fn begun(&self, links: bool) -> u64
        ensures { result ≡ (if links then (counts self.now).links else (counts self.now).others) };

    /// How many tasks were given and not taken in.
    fn out(&self) -> u64
        ensures { result ≡ (counts self.now).out };

    /// How many starts were refused; the count stops at 2^64 - 1.
    fn faults(&self) -> u64
        ensures { result ≡ failures self.now };
}
