ghost use Rattle.std.specs.Prelude.{◌≡◌};
ghost use Rattle.start_faults.specs.Starts.{Explains, start_fault, start_status};

use core_rows::{OpenFault, load_rows};
use record_keeper::Keeper;
use std::alloc::Global;

/// Why a server is not begun.
#[derive(Clone, Copy, PartialEq, Eq)]
pub enum StartFault {
    /// The words of the command line are not read.
    Words,
    KeeperFailed,
    /// The keeper's entries open to no rows: one is damaged, or the rows break a rule.
    Unopened,
    NoMemory,
}

impl StartFault {
    /// The exit status.
    pub fn status(self) -> u8
        ensures { result ≡ start_status self }
    {
        match self {
            StartFault::KeeperFailed => 6,
            StartFault::Unopened => 7,
            StartFault::Words => 8,
            StartFault::NoMemory => 9,
        }
    }

    /// A refused opening, as a reason.
    pub fn of(fault: OpenFault) -> StartFault
        ensures { result ≡ start_fault fault }
    {
        match fault {
            OpenFault::KeeperFailed => StartFault::KeeperFailed,
            OpenFault::Damaged { .. } => StartFault::Unopened,
            OpenFault::Broken { .. } => StartFault::Unopened,
            OpenFault::NoMemory => StartFault::NoMemory,
        }
    }
}

/// Why the entries of a keeper open to no rows, for a person to read after a run that ended with
/// status 7; none where they open.
pub fn opening_fault<R: Keeper>(alloc: Global, keeper: &mut R) -> Option<OpenFault>
    ensures { Explains result (R.store keeper.old) (R.store keeper.new) }
{
    match load_rows(alloc, keeper) {
        Ok(estate) => {
            drop(estate);
            None
        }
        Err(fault) => Some(fault),
    }
}
