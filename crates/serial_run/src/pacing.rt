//! The steps of the worker between two requests.
ghost use Rattle.std.specs.Prelude.{List};
ghost use Rattle.serial_steps.specs.Steps.{hosted, serial_world, Step};
ghost use Rattle.serial_run.specs.Exchanges.{MakesUpTo};

use host_model::Host;
use http_front::Clock;
use record_keeper::Keeper;
use serial_steps::SerialDaemon;
use std::alloc::Global;

/// So many steps of the worker, or fewer, where nothing is left to do.
pub(crate) fn make_up_to<R: Keeper, H: Host, C: Clock>(
    alloc: Global,
    daemon: &mut SerialDaemon,
    keeper: &mut R,
    host: &mut H,
    clock: &mut C,
    count: u32,
)
    ensures { (steps : List Step) × MakesUpTo count
        (serial_world daemon.old (R.store keeper.old) (hosted H.contents H.failures host.old)
        (C.readings clock.old)) steps
        (serial_world daemon.new (R.store keeper.new) (hosted H.contents H.failures host.new)
        (C.readings clock.new)) }
{
    for made in 0..count {
        if daemon.is_idle() {
            return;
        }
        daemon.step(alloc, keeper, host, clock);
    }
}
