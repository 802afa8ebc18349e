ghost use Rattle.std.specs.Prelude.{◌≡◌, ◌+◌, ◌<◌, ◌≤◌, ◌^◌, true, OnOk, vec_len, vec_capacity};
ghost use Rattle.size_values.specs.Causes.{HasCauseOrMemory};
ghost use Rattle.serving.specs.Serves.{AcceptsOne, BeginsLinks, BeginsOne, GivesFirst, HandlesOne, HasRoom};
ghost use Rattle.serving.specs.Serves.{IsEnough};

use crate::door::{Doors, DoorsFailed};
use crate::ends::take_ended;
use crate::job::Job;
use crate::jobs::Jobs;
use crate::link::Link;
use crate::spawner::Spawner;
use size_values::Or;

/// Accepts so many links, or all that there are, and begins a job for each, `at_once` of them beside each other at most:
/// above that a link is turned away. Jobs that have ended are taken in as links come.
#[tactic(auto, using(crate::proofs::Beginning::links_more, crate::proofs::Beginning::room_for_link, crate::proofs::Beginning::first_more))]
pub(crate) fn accept_links<
    J: Job,
    B: Jobs<J>,
    D: Doors<Source = B::Source, Sink = B::Sink>,
    P: Spawner<J>,
>(
    jobs: &mut B,
    doors: &mut D,
    spawner: &mut P,
    tasks: &mut Vec<P::Task>,
    connections: u64,
    at_once: usize,
) -> Result<(), Or<DoorsFailed>>
    requires slots { at_once + 1 ≤ B.slots jobs.old + vec_len tasks.old }
    requires room { B.slots jobs.old + vec_len tasks.old ≤ B.room jobs.old }
    requires held { (vec_len tasks.old ≤ at_once) × (at_once ≤ vec_capacity tasks.old) }
    requires out { vec_len tasks.old ≤ (P.counts spawner.old).out }
    requires small { HasRoom (P.counts spawner.old) connections }
    requires few { (D.seen doors.old).given + connections ≤ 2 ^ 62 }
    requires ready { P.ready spawner.old }
    ensures begun { BeginsLinks at_once (P.counts spawner.old) (P.counts spawner.new) (vec_len tasks.old)
        (vec_len tasks.new) (D.seen doors.old).given (D.seen doors.new).given }
    ensures enough { OnOk result (IsEnough (D.seen doors.old).given connections (D.seen doors.new)) }
    ensures few { (D.seen doors.new).given ≤ (D.seen doors.old).given + connections }
    ensures first { GivesFirst (D.seen doors.old).given (D.seen doors.new).given (D.left doors.old) (D.left doors.new) }
    ensures cause { HasCauseOrMemory (D.seen doors.old).failed (D.seen doors.new).failed result }
    ensures later { P.failures spawner.old ≤ P.failures spawner.new }
    ensures slots { B.slots jobs.new + vec_len tasks.new ≡ B.slots jobs.old + vec_len tasks.old }
    ensures room { B.room jobs.old ≤ B.room jobs.new }
    ensures held { vec_len tasks.new ≤ at_once }
    ensures ready { P.ready spawner.new }
{
    for _i in 0..connections {
        match accept_one(jobs, doors, spawner, tasks, at_once) {
            Ok(true) => {}
            Ok(false) => return Ok(()),
            Err(why) => return Err(why),
        }
    }
    Ok(())
}

/// Accepts one link and begins its job, or turns it away, and says whether there was one.
#[tactic(auto, using(crate::proofs::Beginning::first_none, crate::proofs::Beginning::first_one, crate::proofs::Beginning::no_link))]
fn accept_one<J: Job, B: Jobs<J>, D: Doors<Source = B::Source, Sink = B::Sink>, P: Spawner<J>>(
    jobs: &mut B,
    doors: &mut D,
    spawner: &mut P,
    tasks: &mut Vec<P::Task>,
    at_once: usize,
) -> Result<bool, Or<DoorsFailed>>
    requires slots { at_once + 1 ≤ B.slots jobs.old + vec_len tasks.old }
    requires room { B.slots jobs.old + vec_len tasks.old ≤ B.room jobs.old }
    requires held { (vec_len tasks.old ≤ at_once) × (at_once ≤ vec_capacity tasks.old) }
    requires out { vec_len tasks.old ≤ (P.counts spawner.old).out }
    requires small { HasRoom (P.counts spawner.old) 1 }
    requires few { (D.seen doors.old).given < 2 ^ 63 }
    requires ready { P.ready spawner.old }
    ensures begun { BeginsLinks at_once (P.counts spawner.old) (P.counts spawner.new) (vec_len tasks.old)
        (vec_len tasks.new) (D.seen doors.old).given (D.seen doors.new).given }
    ensures given { AcceptsOne (D.seen doors.old) (D.seen doors.new) result }
    ensures first { GivesFirst (D.seen doors.old).given (D.seen doors.new).given (D.left doors.old) (D.left doors.new) }
    ensures cause { HasCauseOrMemory (D.seen doors.old).failed (D.seen doors.new).failed result }
    ensures later { P.failures spawner.old ≤ P.failures spawner.new }
    ensures slots { B.slots jobs.new + vec_len tasks.new ≡ B.slots jobs.old + vec_len tasks.old }
    ensures room { B.room jobs.old ≤ B.room jobs.new }
    ensures held { (vec_len tasks.new ≤ at_once) × (at_once ≤ vec_capacity tasks.new) }
    ensures ready { P.ready spawner.new }
{
    match doors.accept() {
        Ok(Some(link)) => {
            admit(jobs, spawner, tasks, at_once, link);
            Ok(true)
        }
        Ok(None) => Ok(false),
        Err(why) => Err(Or::Why(why)),
    }
}

/// Begins the job of one link, once the jobs that have ended were taken in; or turns it away, where `at_once` jobs are out.
#[tactic(auto, using(crate::proofs::Beginning::room_is_small, crate::proofs::Beginning::ended_then))]
fn admit<J: Job, B: Jobs<J>, P: Spawner<J>>(
    jobs: &mut B,
    spawner: &mut P,
    tasks: &mut Vec<P::Task>,
    at_once: usize,
    link: Link<B::Source, B::Sink>,
)
    requires slots { at_once + 1 ≤ B.slots jobs.old + vec_len tasks.old }
    requires room { B.slots jobs.old + vec_len tasks.old ≤ B.room jobs.old }
    requires held { (vec_len tasks.old ≤ at_once) × (at_once ≤ vec_capacity tasks.old) }
    requires out { vec_len tasks.old ≤ (P.counts spawner.old).out }
    requires small { HasRoom (P.counts spawner.old) 1 }
    requires ready { P.ready spawner.old }
    ensures begun { BeginsLinks at_once (P.counts spawner.old) (P.counts spawner.new) (vec_len tasks.old)
        (vec_len tasks.new) 0 1 }
    ensures later { P.failures spawner.old ≤ P.failures spawner.new }
    ensures slots { B.slots jobs.new + vec_len tasks.new ≡ B.slots jobs.old + vec_len tasks.old }
    ensures room { B.room jobs.old ≤ B.room jobs.new }
    ensures held { (vec_len tasks.new ≤ at_once) × (at_once ≤ vec_capacity tasks.new) }
    ensures ready { P.ready spawner.new }
{
    take_ended(jobs, spawner, tasks);
    begin_or_turn_away(jobs, spawner, tasks, at_once, link);
}

/// Begins the job of one link, or turns it away.
fn begin_or_turn_away<J: Job, B: Jobs<J>, P: Spawner<J>>(
    jobs: &mut B,
    spawner: &mut P,
    tasks: &mut Vec<P::Task>,
    at_once: usize,
    link: Link<B::Source, B::Sink>,
)
    requires slots { at_once + 1 ≤ B.slots jobs.old + vec_len tasks.old }
    requires room { B.slots jobs.old + vec_len tasks.old ≤ B.room jobs.old }
    requires held { (vec_len tasks.old ≤ at_once) × (at_once ≤ vec_capacity tasks.old) }
    requires small { HasRoom (P.counts spawner.old) 1 }
    requires ready { P.ready spawner.old }
    ensures begun { HandlesOne at_once (P.counts spawner.old) (P.counts spawner.new) (vec_len tasks.old)
        (vec_len tasks.new) }
    ensures later { P.failures spawner.old ≤ P.failures spawner.new }
    ensures slots { B.slots jobs.new + vec_len tasks.new ≡ B.slots jobs.old + vec_len tasks.old }
    ensures room { B.room jobs.old ≤ B.room jobs.new }
    ensures held { (vec_len tasks.new ≤ at_once) × (at_once ≤ vec_capacity tasks.new) }
    ensures ready { P.ready spawner.new }
{
    if tasks.len() < at_once {
        let slot = jobs.slot();
        let job = jobs.link_job(slot, link);
        begin(jobs, spawner, tasks, job);
    } else {
        jobs.turn_away(link);
    }
}

/// Begins the job of one link, over a slot that was taken. Where it can't be started, it was declined when this returns.
#[tactic(auto, using(crate::proofs::Beginning::room_is_small))]
fn begin<J: Job, B: Jobs<J>, P: Spawner<J>>(
    jobs: &mut B,
    spawner: &mut P,
    tasks: &mut Vec<P::Task>,
    job: J,
)
    requires link { J.link job ≡ true }
    requires room { B.slots jobs.old + 1 ≤ B.room jobs.old }
    requires held { vec_len tasks.old < vec_capacity tasks.old }
    requires small { HasRoom (P.counts spawner.old) 1 }
    requires ready { P.ready spawner.old }
    ensures begun { BeginsOne (P.counts spawner.old) (P.counts spawner.new) (vec_len tasks.old) (vec_len tasks.new) }
    ensures later { P.failures spawner.old ≤ P.failures spawner.new }
    ensures slots { B.slots jobs.new + vec_len tasks.new ≡ B.slots jobs.old + vec_len tasks.old + 1 }
    ensures room { B.room jobs.old ≤ B.room jobs.new }
    ensures capacity { vec_capacity tasks.old ≤ vec_capacity tasks.new }
    ensures ready { P.ready spawner.new }
{
    match spawner.start_or_decline(job) {
        Ok(task) => tasks.push_reserved(task),
        Err(out) => jobs.take_back(out),
    }
}
