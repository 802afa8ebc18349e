//! What the jobs of a server take from the door of their link.
ghost use Rattle.std.specs.Prelude.{◌≡◌};
ghost use Rattle.server_main.specs.Doors.{log_at, terms_at};

use rest_json::{Dialect, Terms};
use serving::DoorKind;

/// The terms of a link, by its door: a socket file speaks to the command `incus`, and is reached by no web page. The boot
/// word is that of the ids of operations.
pub(crate) fn terms_at(boot: u64, door: DoorKind) -> Terms
    ensures { result ≡ terms_at boot door }
{
    match door {
        DoorKind::Port => Terms {
            boot,
            dialect: Dialect::Plain,
            refuses_origin: true,
        },
        DoorKind::Socket => Terms {
            boot,
            dialect: Dialect::Client,
            refuses_origin: false,
        },
    }
}

/// What the jobs of a server tell: those of the links of each door, and the workers.
#[derive(Clone, Copy)]
pub struct ServerLogs<O> {
    pub port: O,
    pub socket: O,
    pub workers: O,
}

/// The log of a link, by its door.
pub(crate) fn log_at<O: Copy>(logs: ServerLogs<O>, door: DoorKind) -> O
    ensures { result ≡ log_at logs door }
{
    match door {
        DoorKind::Port => logs.port,
        DoorKind::Socket => logs.socket,
    }
}
