//! The doors of a server.
ghost use Rattle.std.specs.Prelude.{◌≡◌, IfOk};

use crate::telling::DoorNotes;
use serving::{LinkTimes, NetDoors, Places, Stop, Trouble, stop_at_end};
use size_values::{NoMemory, Text};
use std::alloc::Global;
use std::fs::Files;
use std::net::Net;
use std::thread::Threads;
use std::time;
use std::time::Duration;

/// How many seconds a link waits for the other end to take some bytes.
const PATIENCE: u64 = 60;

/// How many seconds the links of a server that stops are given to end.
const GRACE: u64 = 2;

/// What a server listens with: its port and its socket file, for how many seconds a request is waited for, whether the
/// end of standard input stops it, whether standard error tells of each request, and how many tickets there are through
/// the lock of the server.
#[derive(Drop)]
pub(crate) struct Listening {
    pub(crate) port: Option<u16>,
    pub(crate) socket: Option<Text>,
    pub(crate) idle: u32,
    pub(crate) stops: bool,
    pub(crate) logs: bool,
    pub(crate) tickets: u32,
}

impl Listening {
    /// How long its links are waited for.
    fn times(&self) -> LinkTimes {
        LinkTimes {
            idle: Duration::from_secs(u64::from(self.idle)),
            patience: Duration::from_secs(PATIENCE),
        }
    }

    /// Where its doors are.
    fn places(&self, alloc: Global) -> Result<Places, NoMemory> {
        let socket = match &self.socket {
            Some(path) => Some(path.copy(alloc)?),
            None => None,
        };
        Ok(Places {
            port: self.port,
            socket,
        })
    }
}

/// Stops a server once standard input ends, where that is asked for.
fn watch_input<T>(rt: HostRuntime, system: T, setup: &Listening, stop: &Stop) -> Result<(), Trouble>
where
    T: Threads + time::Clock + Copy + Drop + Send + 'static,
{
    if !setup.stops {
        return Ok(());
    }
    let Ok(twin) = stop.share() else {
        return Err(Trouble::NoMemory);
    };
    if stop_at_end(system, rt.stdin(), Duration::from_secs(GRACE), twin) {
        Ok(())
    } else {
        Err(Trouble::Start)
    }
}

/// Doors that have given no link yet. They give none any more once the server stops, also by the end of standard input,
/// where that is asked for.
pub(crate) fn doors_of<T>(
    rt: HostRuntime,
    system: T,
    setup: &Listening,
    stop: Stop,
) -> Result<NetDoors<T, DoorNotes>, Trouble>
where
    T: Net + Files + Threads + time::Clock + Copy + Drop + Send + 'static,
    ensures { IfOk result (λ d. d.given ≡ 0) }
{
    watch_input(rt, system, setup, &stop)?;
    match doors_at(rt, system, setup, stop) {
        Ok(doors) => Ok(doors),
        Err(NoMemory) => Err(Trouble::NoMemory),
    }
}

fn doors_at<T>(
    rt: HostRuntime,
    system: T,
    setup: &Listening,
    stop: Stop,
) -> Result<NetDoors<T, DoorNotes>, NoMemory>
where
    T: Net + Files + Copy + Drop,
    ensures { IfOk result (λ d. d.given ≡ 0) }
{
    let alloc = rt.alloc();
    let notes = DoorNotes::new(rt, setup.places(alloc)?);
    let places = setup.places(alloc)?;
    NetDoors::at(system, alloc, places, setup.times(), stop, notes)
}
