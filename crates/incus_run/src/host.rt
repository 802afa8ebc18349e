ghost use Rattle.std.specs.Prelude.{◌≡◌};

use crate::progress::Progress;
use host_model::{Host, HostCall, HostFailed};
use size_values::Or;
use std::marker::Model;

/// A host that is watched. Contracts see it as the host in it, on which it makes each call.
#[derive(Drop)]
pub struct WatchedHost<'a, T, H> {
    progress: &'a Progress<'a, T>,
    host: H,
}

impl<'a, T, H> Model for WatchedHost<'a, T, H> {
    ghost Value = { H };

    ghost view = { λ w. w.host };
}

impl<'a, T: Eprint, H: Host> WatchedHost<'a, T, H> {
    /// This host, watched for the progress.
    pub fn new(progress: &'a Progress<'a, T>, host: H) -> WatchedHost<'a, T, H>
        ensures { result ≡ host }
    {
        WatchedHost { progress, host }
    }
}

impl<T: Eprint, H: Host> Host for WatchedHost<'_, T, H> {
    ghost contents = { λ h. H.contents h };

    ghost failures = { λ h. H.failures h };

    fn call(&mut self, call: &HostCall) -> Result<(), Or<HostFailed>> {
        self.progress.see_call();
        self.host.call(call)
    }

    fn faults(&self) -> u64 {
        self.host.faults()
    }
}
