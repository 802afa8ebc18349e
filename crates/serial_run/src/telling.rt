//! How a command writes what it tells.
ghost use Rattle.std.specs.Prelude.{◌≡◌};
ghost use Rattle.serial_run.specs.Commands.{Tells, open_status};
ghost use Rattle.serial_run.specs.Worlds.{outlet};

use http_front::{Sink, SinkFailed};
use start_faults::OpenFault;

/// The exit status where memory was refused.
pub(crate) const OUT_OF_MEMORY: u8 = 9;

/// Writes a text, and gives the exit status.
pub(crate) fn tell<K: Sink>(sink: &mut K, text: &[u8]) -> u8
    ensures { Tells result text.now (outlet K.held K.failures sink.old) (outlet K.held K.failures sink.new) }
{
    match sink.write(text) {
        Ok(()) => 0,
        Err(SinkFailed) => 5,
    }
}

/// The exit status of a command whose rows were not opened.
pub(crate) fn open_status(why: &OpenFault) -> u8
    ensures { result ≡ open_status why.now }
{
    match why {
        OpenFault::KeeperFailed => 6,
        OpenFault::Damaged { .. } => 7,
        OpenFault::Broken { .. } => 7,
        OpenFault::NoMemory => OUT_OF_MEMORY,
    }
}
