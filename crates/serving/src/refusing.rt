ghost use Rattle.std.specs.Prelude.{◌≡◌, is_ok, not};
ghost use Rattle.size_values.specs.Causes.{HasCause};
ghost use Rattle.size_values.specs.Calls.{after_call, is_next_failing, no_calls};
ghost use Rattle.serving.specs.Counts.{AreSmall, Starts, StartsOrDeclines, none_begun};

use crate::job::Job;
use crate::spawner::{Spawner, StartFailed};
use crate::tally::Tally;
use size_values::{FailingCalls, Seq};
use std::marker::Model;

/// A job that waits to be taken in.
#[derive(Drop)]
pub struct Kept<J> {
    job: J,
}

/// A spawner without threads. It keeps each job and runs it when it is taken in. Its starts are numbered from 1, and
/// those of the listed numbers are refused, and no others.
#[derive(Drop)]
pub struct RefusingSpawner {
    calls: FailingCalls,
    tally: Tally,
}

impl Model for RefusingSpawner {
    ghost use Rattle.serving.specs.Counts.{KeptJobs};

    ghost Value = { KeptJobs };

    ghost view = { λ s. record { calls = s.calls; counts = s.tally } };
}

impl RefusingSpawner {
    /// A spawner that has begun nothing.
    pub fn new(fails: Seq<u64>) -> RefusingSpawner
        ensures { result ≡ record { calls = no_calls fails; counts = none_begun } }
    {
        RefusingSpawner {
            calls: FailingCalls::new(fails),
            tally: Tally::new(),
        }
    }
}

impl<J: Job + Drop> Spawner<J> for RefusingSpawner {
    type Task = Kept<J>;

    ghost counts = { λ s. s.counts };

    ghost failures = { λ s. s.calls.failed };

    ghost ready = { λ _. Unit {0} };

    fn start(&mut self, job: J) -> Result<Kept<J>, StartFailed>
        requires small { AreSmall self.old.counts }
        ensures counts { Starts (J.link job) self.old.counts self.new.counts result }
        ensures cause { HasCause self.old.calls.failed self.new.calls.failed result }

        // Which start is refused.
        ensures fails { is_ok result ≡ not (is_next_failing self.old.calls) }
        ensures calls { self.new.calls ≡ after_call self.old.calls }
    {
        if self.calls.next() {
            return Err(StartFailed);
        }
        self.tally.start(job.is_link());
        Ok(Kept { job })
    }

    fn start_or_decline(&mut self, job: J) -> Result<Kept<J>, J::Out>
        requires small { AreSmall self.old.counts }
        ensures counts { StartsOrDeclines (J.link job) self.old.counts self.new.counts result }
        ensures cause { HasCause self.old.calls.failed self.new.calls.failed result }
        ensures fails { is_ok result ≡ not (is_next_failing self.old.calls) }
        ensures calls { self.new.calls ≡ after_call self.old.calls }
    {
        if self.calls.next() {
            self.tally.decline();
            return Err(job.decline());
        }
        self.tally.start(job.is_link());
        Ok(Kept { job })
    }

    /// No job has ended before it is taken in.
    fn take_ended(&mut self, task: Kept<J>) -> Result<J::Out, Kept<J>> {
        Err(task)
    }

    fn take(&mut self, task: Kept<J>) -> J::Out {
        self.tally.take();
        task.job.run()
    }

    fn begun(&self, links: bool) -> u64 {
        self.tally.begun(links)
    }

    fn out(&self) -> u64 {
        self.tally.out()
    }

    fn faults(&self) -> u64 {
        self.calls.failed()
    }
}
