ghost use Rattle.std.specs.Prelude.{◌≤◌};
ghost use Rattle.serial_run.specs.Commands.{Tells};
ghost use Rattle.serial_run.specs.Worlds.{outlet};
ghost use Rattle.workload.specs.Stream.{stream_of};

use crate::telling::{OUT_OF_MEMORY, tell};
use http_front::Sink;
use size_values::NoMemory;
use std::alloc::Global;
use workload::make_stream;

/// Writes the requests that a number stands for: three that make a pool, a project and its profile, and so many
/// creations of instances. It gives the exit status.
pub fn make<K: Sink>(alloc: Global, sink: &mut K, seed: u64, count: u32) -> u8
    requires { count ≤ 10000 }
    ensures { Tells result (stream_of seed count) (outlet K.held K.failures sink.old)
        (outlet K.held K.failures sink.new) }
{
    match make_stream(alloc, seed, count) {
        Ok(stream) => {
            let status = tell(sink, stream.view());
            drop(stream);
            status
        }
        Err(NoMemory) => OUT_OF_MEMORY,
    }
}
