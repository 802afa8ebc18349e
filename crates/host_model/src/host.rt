ghost use Rattle.std.specs.Prelude.{◌≡◌, ℕ, List, Option, option_map, OnOk, OnErr};
ghost use Rattle.size_values.specs.Causes.{HasCauseOrMemory};
ghost use Rattle.host_model.specs.declared.root.HostRoot.{HostRoot as HostRootValue};
ghost use Rattle.host_model.specs.Effects.{effect_of};

use crate::call::HostCall;
use size_values::Or;
use thiserror::Error;

/// A call of a host failed.
#[derive(Clone, Copy, Debug, PartialEq, Eq, Error)]
#[error("the host failed")]
pub struct HostFailed;

/// Runs the instances. A failure is answered only where the host's count of faults rose in that call. Want of
/// memory may be answered by any call and is no failure.
pub trait Host {
    /// The roots; None where the host doesn't show them.
    ghost contents: { Self → Option (List HostRootValue) };

    /// How many calls failed. The count stops at 2^64 - 1.
    ghost failures: { Self → ℕ };

    /// Makes one call. Where it failed or was refused memory, the roots are as before.
    fn call(&mut self, call: &HostCall) -> Result<(), Or<HostFailed>>
        ensures ok { OnOk result (contents self.new ≡ option_map (effect_of call.now) (contents self.old)) }
        ensures err { OnErr result (contents self.new ≡ contents self.old) }
        ensures cause { HasCauseOrMemory (failures self.old) (failures self.new) result };

    /// The count of failures so far.
    fn faults(&self) -> u64
        ensures { result ≡ failures self.now };
}
