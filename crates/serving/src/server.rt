ghost use Rattle.std.specs.Prelude.{◌≡◌, ◌+◌, ◌≤◌, ◌^◌, true, false, OnOk, IfErr, vec_len, vec_capacity};
ghost use Rattle.serving.specs.Counts.{none_begun};
ghost use Rattle.serving.specs.Serves.{AreHandled, BeginsAll, GivesFirst, IsServed, IsEnough};
ghost use Rattle.serving.specs.Troubles.{IsCaused};

use crate::door::Doors;
use crate::ends::take_in;
use crate::job::Job;
use crate::jobs::Jobs;
use crate::links::accept_links;
use crate::spawner::Spawner;
use crate::trouble::Trouble;
use crate::workers::start_workers;
use std::alloc::Global;

/// Starts the workers, serves so many links, or all that there are, each by a job of its own, `at_once` of them beside
/// each other at most, and takes in all that was started: links that have ended as others come, the other links at the
/// end, which may wait for what the workers do, and the workers after they were told to end.
pub fn serve<J: Job, B: Jobs<J>, D: Doors<Source = B::Source, Sink = B::Sink>, P: Spawner<J>>(
    alloc: Global,
    jobs: &mut B,
    doors: &mut D,
    spawner: &mut P,
    connections: u64,
    at_once: usize,
    workers: u32,
) -> Result<(), Trouble>
    requires few { connections ≤ 2 ^ 62 }
    requires slots { at_once + workers + 1 ≤ B.slots jobs.old }
    requires room { B.slots jobs.old ≤ B.room jobs.old }
    requires doors { (D.seen doors.old).given ≡ 0 }
    requires idle { P.counts spawner.old ≡ none_begun }
    requires ready { P.ready spawner.old }
    ensures served { OnOk result (IsServed connections at_once workers (D.seen doors.new) (P.counts spawner.new)) }
    ensures cause { IfErr result (λ t. IsCaused t (D.seen doors.old).failed (D.seen doors.new).failed
        (P.failures spawner.old) (P.failures spawner.new)) }

    // Of every end: a job was begun or declined for each link that was given, or it was turned away; those given were
    // the first of those that the doors told, all that were started ran beside each other, and nothing that was started
    // is left.
    ensures handled { AreHandled at_once (D.seen doors.new).given (P.counts spawner.new) }
    ensures first { GivesFirst 0 (D.seen doors.new).given (D.left doors.old) (D.left doors.new) }
    ensures few { (D.seen doors.new).given ≤ connections }
    ensures workers { (P.counts spawner.new).others ≤ workers }
    ensures beside { (P.counts spawner.new).late ≡ false }
    ensures out { (P.counts spawner.new).out ≡ 0 }
    ensures closed { B.closed jobs.new ≡ true }
{
    let mut links = Vec::new(alloc);
    let mut others = Vec::new(alloc);
    let served = begin_all(
        jobs,
        doors,
        spawner,
        &mut links,
        &mut others,
        connections,
        at_once,
        workers,
    );
    take_in(jobs, spawner, links);
    jobs.close();
    take_in(jobs, spawner, others);
    served
}

/// Starts the workers, and then begins the jobs of the links as they come.
#[tactic(auto, using(crate::proofs::Beginning::begins_workers, crate::proofs::Beginning::begins_all, crate::proofs::Beginning::first_none, crate::proofs::Beginning::start_caused, crate::proofs::Beginning::accept_caused))]
fn begin_all<J: Job, B: Jobs<J>, D: Doors<Source = B::Source, Sink = B::Sink>, P: Spawner<J>>(
    jobs: &mut B,
    doors: &mut D,
    spawner: &mut P,
    links: &mut Vec<P::Task>,
    others: &mut Vec<P::Task>,
    connections: u64,
    at_once: usize,
    workers: u32,
) -> Result<(), Trouble>
    requires few { connections ≤ 2 ^ 62 }
    requires slots { at_once + workers + 1 ≤ B.slots jobs.old }
    requires room { B.slots jobs.old ≤ B.room jobs.old }
    requires doors { (D.seen doors.old).given ≡ 0 }
    requires idle { P.counts spawner.old ≡ none_begun }
    requires empty { (vec_len links.old ≡ 0) × (vec_len others.old ≡ 0) }
    requires ready { P.ready spawner.old }
    ensures begun { BeginsAll at_once (P.counts spawner.new) (vec_len links.new) (vec_len others.new)
        (D.seen doors.new).given }
    ensures enough { OnOk result (IsEnough 0 connections (D.seen doors.new) × (vec_len others.new ≡ workers)) }
    ensures few { ((D.seen doors.new).given ≤ connections) × (vec_len others.new ≤ workers) }
    ensures first { GivesFirst 0 (D.seen doors.new).given (D.left doors.old) (D.left doors.new) }
    ensures cause { IfErr result (λ t. IsCaused t (D.seen doors.old).failed (D.seen doors.new).failed
        (P.failures spawner.old) (P.failures spawner.new)) }
    ensures slots { 1 ≤ B.slots jobs.new }
    ensures room { B.slots jobs.new + vec_len links.new + vec_len others.new ≤ B.room jobs.new }
    ensures ready { P.ready spawner.new }
{
    if links.reserve(at_once).is_err() {
        return Err(Trouble::NoMemory);
    }
    start_workers(jobs, spawner, others, workers)?;
    accept_links(jobs, doors, spawner, links, connections, at_once)?;
    Ok(())
}
