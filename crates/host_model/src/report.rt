ghost use Rattle.std.specs.Prelude.{◌≡◌, ◌≤◌};
ghost use Rattle.host_model.specs.Reports.{roots_after, CarriesCounts};

use crate::call::HostCall;
use crate::host::Host;
use size_values::{Or, Rise};

/// What became of a host's call. A failed one carries the host's counts of faults before and after it.
#[derive(Clone, Copy, PartialEq, Eq)]
pub enum Report {
    Done,
    Failed(Rise),
    NoMemory,
}

/// Makes one call on a host and reports its answer: `Done` exactly where the call was Ok.
pub fn perform<H: Host>(host: &mut H, call: &HostCall) -> Report
    ensures roots { H.contents host.new ≡ roots_after result call.now (H.contents host.old) }
    ensures counts { CarriesCounts result (H.failures host.old) (H.failures host.new) }
    ensures later { H.failures host.old ≤ H.failures host.new }
{
    let before = host.faults();
    match host.call(call) {
        Ok(()) => Report::Done,
        Err(Or::NoMemory) => Report::NoMemory,
        Err(Or::Why(_)) => match Rise::of(before, host.faults()) {
            Some(rise) => Report::Failed(rise),
            None => unreachable!(),
        },
    }
}
