ghost use Rattle.std.specs.Prelude.{◌≡◌};
ghost use Rattle.serving.specs.Troubles.{status_of};

use crate::door::DoorsFailed;
use crate::spawner::StartFailed;
use size_values::Or;

/// Why a server stopped before all of its links had come.
#[derive(Clone, Copy, PartialEq, Eq)]
pub enum Trouble {
    NoMemory,
    /// An accept failed.
    Accept,
    /// The start of a worker was refused.
    Start,
}

/// The exit status: 0 where the links were served, 9 where memory was refused, 11 where an accept failed, 12 where the
/// start of a worker was refused.
pub fn status_of(served: Result<(), Trouble>) -> u8
    ensures { result ≡ status_of served }
{
    match served {
        Ok(()) => 0,
        Err(Trouble::NoMemory) => 9,
        Err(Trouble::Accept) => 11,
        Err(Trouble::Start) => 12,
    }
}

impl From<Or<DoorsFailed>> for Trouble {
    ghost use Rattle.serving.specs.Troubles.{of_doors};

    ghost from_gives = { λ e t. t ≡ of_doors e };

    fn from(fault: Or<DoorsFailed>) -> Self {
        match fault {
            Or::NoMemory => Trouble::NoMemory,
            Or::Why(DoorsFailed) => Trouble::Accept,
        }
    }
}

impl From<Or<StartFailed>> for Trouble {
    ghost use Rattle.serving.specs.Troubles.{of_spawner};

    ghost from_gives = { λ e t. t ≡ of_spawner e };

    fn from(fault: Or<StartFailed>) -> Self {
        match fault {
            Or::NoMemory => Trouble::NoMemory,
            Or::Why(StartFailed) => Trouble::Start,
        }
    }
}
