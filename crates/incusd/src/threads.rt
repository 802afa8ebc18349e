//! Jobs that are threads.
ghost use Rattle.std.specs.Prelude.{◌≡◌};
ghost use Rattle.serving.specs.Counts.{none_begun};

use serving::{Job, Spawner, ThreadSpawner, ThreadTask, start_thread, start_thread_or_decline};
use std::alloc::Global;
use std::thread::Threads;

/// What is done with a spawner that has begun nothing.
pub(crate) trait Spawning<J: Job> {
    type Out;

    // Whether it may be done.
    ghost is_sound: { Self → Type 0 };

    fn run<P: Spawner<J>>(self, spawner: &mut P) -> Self::Out
        requires sound { is_sound self }
        requires idle { P.counts spawner.old ≡ none_begun }
        requires ready { P.ready spawner.old };
}

/// Does it with a spawner whose jobs are threads.
pub(crate) fn on_threads<J, T, S>(system: T, alloc: Global, spawning: S) -> S::Out
where
    J: Job + Drop + Send + 'static,
    J::Out: Send + 'static,
    T: Threads + Copy + Drop,
    S: Spawning<J>,
    requires { S.is_sound spawning }
{
    let start = move |job: J| -> Option<ThreadTask<J::Out>> { start_thread(&system, alloc, job) };
    let start_or_decline = move |job: J| -> Result<ThreadTask<J::Out>, J::Out> {
        start_thread_or_decline(&system, alloc, job)
    };
    let mut spawner = ThreadSpawner::new(system, start, start_or_decline);
    spawning.run(&mut spawner)
}
