//! What standard error tells a person of a server.
use program_start::{tell, tell_line};
use serving::{DoorEvents, DoorFault, Places};
use size_values::{NoMemory, Text};
use std::alloc::Global;
use std::io::ErrorKind;
use std::thread;
use std::time::{Duration, Instant};

/// The name of the program.
pub(crate) const PROGRAM: &str = "incusd";

/// How many milliseconds the doors rest after an accept that failed.
const REST: u64 = 100;

/// How many seconds nothing is told of failed accepts after a line that told of one.
const QUIET: u64 = 60;

/// The lines that say where the server listens.
fn port_line(alloc: Global, port: u16) -> Result<String, NoMemory> {
    Ok(format!(in alloc; "{PROGRAM}: listening on http://127.0.0.1:{port}\n")?)
}

fn socket_line(alloc: Global, path: &Text) -> Result<String, NoMemory> {
    Ok(format!(in alloc; "{PROGRAM}: listening on the socket {}\n", path.view())?)
}

/// The line that says why it doesn't.
fn fault_line(alloc: Global, places: &Places, fault: DoorFault) -> Result<String, NoMemory> {
    let why = fault_text(fault);
    match (fault, &places.port, &places.socket) {
        (DoorFault::Port, Some(port), _) => {
            Ok(format!(in alloc; "{PROGRAM}: the port {port} can't be listened on\n")?)
        }
        (_, _, Some(path)) => {
            let path = path.view();
            Ok(format!(in alloc; "{PROGRAM}: the socket {path} can't be listened on: {why}\n")?)
        }
        _ => Ok(format!(in alloc; "{PROGRAM}: it can't listen: {why}\n")?),
    }
}

/// Why a place can't be listened on.
fn fault_text(fault: DoorFault) -> &'static str {
    match fault {
        DoorFault::LongPath => "its path is longer than the system takes",
        DoorFault::NoFolder => "its folder is missing",
        DoorFault::NoSocket => "a file that is no socket is there",
        DoorFault::Live => "a server listens there",
        DoorFault::Denied => "this user may not make or use it",
        DoorFault::Port | DoorFault::System => "the system refuses it",
    }
}

/// Tells standard error what becomes of the doors: where they listen, and once a minute that connections can't be
/// accepted.
#[derive(Drop)]
pub(crate) struct DoorNotes {
    rt: HostRuntime,
    places: Places,
    told: Option<Instant>,
}

impl DoorNotes {
    pub(crate) fn new(rt: HostRuntime, places: Places) -> DoorNotes {
        DoorNotes {
            rt,
            places,
            told: None,
        }
    }

    /// Whether a failed accept is to be told of at this moment.
    fn is_due(&self, now: Instant) -> bool {
        match self.told {
            Some(told) => now.duration_since(told) >= Duration::from_secs(QUIET),
            None => true,
        }
    }
}

impl DoorEvents for DoorNotes {
    fn opened(&mut self) {
        let alloc = self.rt.alloc();
        if let Some(port) = self.places.port {
            tell_line(self.rt, port_line(alloc, port));
        }
        if let Some(path) = &self.places.socket {
            tell_line(self.rt, socket_line(alloc, path));
        }
    }

    fn refused(&mut self, fault: DoorFault) {
        tell_line(self.rt, fault_line(self.rt.alloc(), &self.places, fault));
    }

    fn failed(&mut self, kind: ErrorKind) {
        match Instant::now(&self.rt) {
            Ok(now) if self.is_due(now) => {
                self.told = Some(now);
                tell(self.rt, failure_text(kind));
            }
            _ => {}
        }
        thread::sleep(&self.rt, Duration::from_millis(REST));
    }
}

/// What is told of a connection that could not be accepted.
fn failure_text(kind: ErrorKind) -> &'static str {
    match kind {
        ErrorKind::OutOfMemory => {
            "incusd: out of memory for the next connection; trying again\n"
        }
        _ => "incusd: no handle for the next connection; trying again\n",
    }
}

/// Why a server ended with this status, where nothing was told of it yet.
pub fn tell_end(rt: HostRuntime, status: u8) {
    match status {
        9 => tell(rt, "incusd: out of memory\n"),
        12 => tell(rt, "incusd: a thread could not be started\n"),
        _ => {}
    }
}
