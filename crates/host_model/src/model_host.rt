ghost use Rattle.std.specs.Prelude.{◌≡◌, [], Some, is_ok, if◌then◌else◌};
ghost use Rattle.size_values.specs.Causes.{HasCauseOrMemory};
ghost use Rattle.size_values.specs.Calls.{no_calls, after_call, is_next_failing, has_failed};
ghost use Rattle.host_model.specs.Effects.{effect_of};

use crate::call::HostCall;
use crate::effects;
use crate::host::{Host, HostFailed};
use crate::root::HostRoot;
use size_values::{FailingCalls, Or, Seq};
use std::alloc::Global;
use std::marker::Model;

/// A host whose roots are in memory and end with it. Its calls are numbered from 1, and those of the listed
/// numbers fail. Every other call is done, or wants memory.
#[derive(Drop)]
pub struct ModelHost {
    alloc: Global,
    roots: Vec<HostRoot>,
    calls: FailingCalls,
}

impl Model for ModelHost {
    ghost use Rattle.host_model.specs.ModelHost.{Modelled};

    ghost Value = { Modelled };

    ghost view = { λ h. record { roots = h.roots.items; calls = h.calls } };
}

impl ModelHost {
    /// A host without roots. It takes no memory.
    pub fn new(alloc: Global, fails: Seq<u64>) -> ModelHost
        ensures { result ≡ record { roots = []; calls = no_calls fails } }
    {
        ModelHost {
            alloc,
            roots: Vec::new(alloc),
            calls: FailingCalls::new(fails),
        }
    }

    /// The roots so far.
    pub fn roots(&self) -> &[HostRoot]
        ensures { result.now ≡ self.now.roots }
    {
        &self.roots
    }
}

impl Host for ModelHost {
    ghost contents = { λ h. Some h.roots };

    ghost failures = { λ h. h.calls.failed };

    fn call(&mut self, call: &HostCall) -> Result<(), Or<HostFailed>>
        ensures cause { HasCauseOrMemory self.old.calls.failed self.new.calls.failed result }
        ensures state { self.new
            ≡ record {
              roots = if is_ok result
                  then effect_of call.now self.old.roots else self.old.roots;
              calls = after_call self.old.calls;
            } }
        ensures fails { has_failed result ≡ is_next_failing self.old.calls }
    {
        if self.calls.next() {
            return Err(Or::Why(HostFailed));
        }
        effects::apply_call(self.alloc, &mut self.roots, call)?;
        Ok(())
    }

    fn faults(&self) -> u64 {
        self.calls.failed()
    }
}
