ghost use Rattle.std.specs.Prelude.{◌≡◌, ◌+◌, ◌≤◌, OnOk, vec_len};
ghost use Rattle.size_values.specs.Causes.{HasCauseOrMemory};
ghost use Rattle.serving.specs.Serves.{HasRoom, StartsWorkers};

use crate::job::Job;
use crate::jobs::Jobs;
use crate::spawner::{Spawner, StartFailed};
use size_values::Or;

/// Starts so many workers, one after the other, and holds their tasks.
#[tactic(auto, using(crate::proofs::Beginning::workers_more, crate::proofs::Beginning::room_for_worker,))]
pub(crate) fn start_workers<J: Job, B: Jobs<J>, P: Spawner<J>>(
    jobs: &mut B,
    spawner: &mut P,
    tasks: &mut Vec<P::Task>,
    workers: u32,
) -> Result<(), Or<StartFailed>>
    requires slots { workers ≤ B.slots jobs.old }
    requires room { B.slots jobs.old ≤ B.room jobs.old }
    requires small { HasRoom (P.counts spawner.old) workers }
    requires ready { P.ready spawner.old }
    ensures started { StartsWorkers (P.counts spawner.old) (P.counts spawner.new) (vec_len tasks.old)
        (vec_len tasks.new) }
    ensures all { OnOk result (vec_len tasks.new ≡ vec_len tasks.old + workers) }
    ensures few { vec_len tasks.new ≤ vec_len tasks.old + workers }
    ensures cause { HasCauseOrMemory (P.failures spawner.old) (P.failures spawner.new) result }
    ensures slots { B.slots jobs.old ≤ B.slots jobs.new + workers }
    ensures used { B.slots jobs.new + vec_len tasks.new ≤ B.slots jobs.old + vec_len tasks.old }
    ensures room { B.room jobs.old ≤ B.room jobs.new }
    ensures ready { P.ready spawner.new }
{
    for _i in 0..workers {
        match start_worker(jobs, spawner, tasks) {
            Ok(()) => {}
            Err(why) => return Err(why),
        }
    }
    Ok(())
}

/// Starts one more worker. Room for its task is taken first, so that none is lost.
#[tactic(auto, using(crate::proofs::Beginning::room_is_small))]
fn start_worker<J: Job, B: Jobs<J>, P: Spawner<J>>(
    jobs: &mut B,
    spawner: &mut P,
    tasks: &mut Vec<P::Task>,
) -> Result<(), Or<StartFailed>>
    requires slots { 1 ≤ B.slots jobs.old }
    requires room { B.slots jobs.old ≤ B.room jobs.old }
    requires small { HasRoom (P.counts spawner.old) 1 }
    requires ready { P.ready spawner.old }
    ensures started { StartsWorkers (P.counts spawner.old) (P.counts spawner.new) (vec_len tasks.old)
        (vec_len tasks.new) }
    ensures one { OnOk result (vec_len tasks.new ≡ vec_len tasks.old + 1) }
    ensures few { vec_len tasks.new ≤ vec_len tasks.old + 1 }
    ensures cause { HasCauseOrMemory (P.failures spawner.old) (P.failures spawner.new) result }
    ensures slots { B.slots jobs.old ≤ B.slots jobs.new + 1 }
    ensures used { B.slots jobs.new + vec_len tasks.new ≤ B.slots jobs.old + vec_len tasks.old }
    ensures room { B.room jobs.old ≤ B.room jobs.new }
    ensures ready { P.ready spawner.new }
{
    tasks.reserve(1)?;
    let slot = jobs.slot();
    let job = jobs.worker_job(slot)?;
    match spawner.start(job) {
        Ok(task) => {
            tasks.push_reserved(task);
            Ok(())
        }
        Err(why) => Err(Or::Why(why)),
    }
}
