ghost use Rattle.std.specs.Prelude.{◌≡◌};
ghost use Rattle.serving.specs.Counts.{none_begun};

use crate::job::Job;
use crate::spawner::{Spawner, StartFailed};
use crate::tally::Tally;
use std::alloc::Global;
use std::sync::Arc;
use std::sync::atomic::{AtomicU64, Ordering};
use std::thread;
use std::thread::{JoinHandle, Threads};

/// What a thread and its spawner share: 1 once the job has ended, or 1 where it is to be declined.
type Mark = Arc<AtomicU64, Global>;

/// A job that runs on a thread of its own. Its thread is joined when it is taken in.
#[derive(Drop)]
pub struct ThreadTask<O> {
    handle: JoinHandle<O>,
    ended: Mark,
}

/// A spawner over two functions that start a thread for a job: the one drops a job that is refused, the other declines
/// it. They are `start_thread` and `start_thread_or_decline`.
#[derive(Drop)]
pub struct ThreadSpawner<R, F, G> {
    rt: R,
    start: F,
    start_or_decline: G,
    tally: Tally,
    faults: u64,
}

impl<R, F, G> ThreadSpawner<R, F, G> {
    /// A spawner that has begun nothing.
    pub fn new(rt: R, start: F, start_or_decline: G) -> ThreadSpawner<R, F, G>
        ensures start { result.start ≡ start }
        ensures start_or_decline { result.start_or_decline ≡ start_or_decline }
        ensures none { result.tally ≡ none_begun }
        ensures faults { result.faults ≡ 0 }
    {
        ThreadSpawner {
            rt,
            start,
            start_or_decline,
            tally: Tally::new(),
            faults: 0,
        }
    }
}

impl<J, R, F, G> Spawner<J> for ThreadSpawner<R, F, G>
where
    J: Job,
    R: Threads,
    F: Fn(J) -> Option<ThreadTask<J::Out>>,
    G: Fn(J) -> Result<ThreadTask<J::Out>, J::Out>,
{
    type Task = ThreadTask<J::Out>;

    ghost counts = { λ s. s.tally };

    ghost failures = { λ s. s.faults };

    ghost ready = { λ s. F.IsAlwaysCallable s.start × G.IsAlwaysCallable s.start_or_decline };

    fn start(&mut self, job: J) -> Result<ThreadTask<J::Out>, StartFailed> {
        let link = job.is_link();
        let Some(task) = (self.start)(job) else {
            self.faults = self.faults.saturating_add(1);
            return Err(StartFailed);
        };
        self.tally.start(link);
        Ok(task)
    }

    fn start_or_decline(&mut self, job: J) -> Result<ThreadTask<J::Out>, J::Out> {
        let link = job.is_link();
        match (self.start_or_decline)(job) {
            Ok(task) => {
                self.tally.start(link);
                Ok(task)
            }
            Err(out) => {
                self.faults = self.faults.saturating_add(1);
                self.tally.decline();
                Err(out)
            }
        }
    }

    fn take_ended(&mut self, task: ThreadTask<J::Out>) -> Result<J::Out, ThreadTask<J::Out>> {
        if task.ended.load(Ordering::SeqCst) == 0 {
            return Err(task);
        }
        self.tally.take_ended();
        Ok(task.handle.join(&self.rt))
    }

    fn take(&mut self, task: ThreadTask<J::Out>) -> J::Out {
        self.tally.take();
        task.handle.join(&self.rt)
    }

    fn begun(&self, links: bool) -> u64 {
        self.tally.begun(links)
    }

    fn out(&self) -> u64 {
        self.tally.out()
    }

    fn faults(&self) -> u64 {
        self.faults
    }
}

/// Two marks that are not set, for two who share each; None where memory is refused.
fn marks(alloc: Global) -> Option<(Mark, Mark)> {
    let mark = Arc::new(alloc, AtomicU64::new(0)).ok()?;
    let twin = Arc::try_clone(&mark).ok()?;
    Some((mark, twin))
}

/// Starts a thread that runs the job. Where there is none, the job is dropped.
pub fn start_thread<R: Threads, J: Job + Drop + Send + 'static>(
    rt: &R,
    alloc: Global,
    job: J,
) -> Option<ThreadTask<J::Out>>
where
    J::Out: Send + 'static,
{
    let (ended, twin) = marks(alloc)?;
    match thread::spawn(rt, move || {
        let out = job.run();
        twin.store(1, Ordering::SeqCst);
        out
    }) {
        Ok(handle) => Some(ThreadTask { handle, ended }),
        Err(_) => None,
    }
}

/// Starts a thread that runs the job. Where there is none, it is declined here.
pub fn start_thread_or_decline<R: Threads, J: Job + Drop + Send + 'static>(
    rt: &R,
    alloc: Global,
    job: J,
) -> Result<ThreadTask<J::Out>, J::Out>
where
    J::Out: Send + 'static,
{
    let Some((ended, twin)) = marks(alloc) else {
        return Err(job.decline());
    };
    match thread::spawn(rt, move || {
        // The mark is set before the job begins only where no thread was had for it.
        if twin.load(Ordering::SeqCst) != 0 {
            return job.decline();
        }
        let out = job.run();
        twin.store(1, Ordering::SeqCst);
        out
    }) {
        Ok(handle) => Ok(ThreadTask { handle, ended }),
        Err(refused) => {
            ended.store(1, Ordering::SeqCst);
            Err((refused.value)())
        }
    }
}
