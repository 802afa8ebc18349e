ghost use Rattle.std.specs.Prelude.{◌≡◌, IfOk};
ghost use Rattle.serving.specs.Passing.{counted};

use crate::passing::{counted, pass_on};
use host_model::{Host, HostCall, HostFailed};
use size_values::{NoMemory, Or};
use std::alloc::Global;
use std::marker::Model;
use std::sync::{Arc, Mutex, Wait};

/// What lies under the lock: the host, and how many of its calls failed.
#[derive(Drop)]
struct Shared<H> {
    host: H,
    count: u64,
}

impl<H: Host> Shared<H> {
    /// Passes one call on, and answers the count after it too.
    fn pass_on(&mut self, call: &HostCall) -> (Result<(), Or<HostFailed>>, u64)
        ensures counted { self.new.count ≡ counted self.old.count result.0 }
        ensures after { result.1 ≡ self.new.count }
    {
        let answer = pass_on(&mut self.host, &mut self.count, call);
        (answer, self.count)
    }
}

/// A handle of a host that others share. It tells no roots. Contracts see it as the greatest count of failures that
/// it has seen: the host's count as of the last call that was made by this handle.
#[derive(Drop)]
pub struct LockedHost<H, R> {
    rt: R,
    shared: Arc<Mutex<Shared<H>>, Global>,
    seen: u64,
}

impl<H, R> Model for LockedHost<H, R> {
    ghost use Rattle.std.specs.Prelude.{ℕ};

    ghost Value = { ℕ };

    ghost view = { λ h. h.seen };
}

impl<H: Host + Drop, R: Wait + Copy> LockedHost<H, R> {
    /// The first handle of the host. None of its calls was made by a handle yet.
    pub fn new(rt: R, alloc: Global, host: H) -> Result<LockedHost<H, R>, NoMemory>
        ensures { IfOk result (λ h. h ≡ 0) }
    {
        let shared = Arc::new(alloc, Mutex::new(Shared { host, count: 0 }))?;
        Ok(LockedHost {
            rt,
            shared,
            seen: 0,
        })
    }

    /// One more handle of the same host, which has seen what this one has.
    pub fn share(&self) -> Result<LockedHost<H, R>, NoMemory>
        ensures { IfOk result (λ h. h ≡ self.now) }
    {
        let shared = Arc::try_clone(&self.shared)?;
        Ok(LockedHost {
            rt: self.rt,
            shared,
            seen: self.seen,
        })
    }
}

impl<H: Host, R: Wait> Host for LockedHost<H, R> {
    ghost use Rattle.std.specs.Prelude.{None};

    ghost contents = { λ _. None };

    ghost failures = { λ h. h };

    /// One call of the shared host, under the lock.
    fn call(&mut self, call: &HostCall) -> Result<(), Or<HostFailed>> {
        let (answer, count) = self.shared.lock(&self.rt).pass_on(call);
        // The handle's own count rises by a failure whatever the lock gave, so that its cause is seen here.
        self.seen = counted(self.seen, &answer).max(count);
        answer
    }

    fn faults(&self) -> u64 {
        self.seen
    }
}
