ghost use Rattle.std.specs.Prelude.{◌≡◌, ◌+◌, ◌≤◌, vec_len, vec_capacity};
ghost use Rattle.serving.specs.Serves.{TakesEndedOnes, TakesIn};

use crate::job::Job;
use crate::jobs::Jobs;
use crate::spawner::Spawner;

/// Waits for the end of each of these tasks, and takes in what is left of its job.
pub(crate) fn take_in<J: Job, B: Jobs<J>, P: Spawner<J>>(
    jobs: &mut B,
    spawner: &mut P,
    mut tasks: Vec<P::Task>,
)
    requires out { vec_len tasks ≤ (P.counts spawner.old).out }
    requires room { B.slots jobs.old + vec_len tasks ≤ B.room jobs.old }
    requires ready { P.ready spawner.old }
    ensures counts { TakesIn (vec_len tasks) (P.counts spawner.old) (P.counts spawner.new) }
    ensures failures { P.failures spawner.new ≡ P.failures spawner.old }
    ensures slots { B.slots jobs.new ≡ B.slots jobs.old + vec_len tasks }
    ensures room { B.room jobs.old ≤ B.room jobs.new }
    ensures closed { B.closed jobs.new ≡ B.closed jobs.old }
    ensures ready { P.ready spawner.new }
{
    while let Some(task) = tasks.pop() {
        let out = spawner.take(task);
        jobs.take_back(out);
    }
}

/// Takes in what is left of those jobs of these tasks that have ended, without waiting for any.
pub(crate) fn take_ended<J: Job, B: Jobs<J>, P: Spawner<J>>(
    jobs: &mut B,
    spawner: &mut P,
    tasks: &mut Vec<P::Task>,
)
    requires out { vec_len tasks.old ≤ (P.counts spawner.old).out }
    requires room { B.slots jobs.old + vec_len tasks.old ≤ B.room jobs.old }
    requires ready { P.ready spawner.old }
    ensures counts { TakesEndedOnes (P.counts spawner.old) (P.counts spawner.new) (vec_len tasks.old) (vec_len tasks.new) }
    ensures failures { P.failures spawner.new ≡ P.failures spawner.old }
    ensures slots { B.slots jobs.new + vec_len tasks.new ≡ B.slots jobs.old + vec_len tasks.old }
    ensures room { B.room jobs.old ≤ B.room jobs.new }
    ensures capacity { vec_capacity tasks.old ≤ vec_capacity tasks.new }
    ensures closed { B.closed jobs.new ≡ B.closed jobs.old }
    ensures ready { P.ready spawner.new }
{
    // From the last one on, so that what takes a place was looked at before.
    let mut left = tasks.len();
    while left > 0 {
        left -= 1;
        let task = tasks.swap_remove(left);
        match spawner.take_ended(task) {
            Ok(out) => jobs.take_back(out),
            Err(task) => tasks.push_reserved(task),
        }
    }
}
