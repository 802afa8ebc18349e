ghost use Rattle.std.specs.Prelude.{◌≡◌, false, IfOk};

use crate::door::{Doors, DoorsFailed};
use crate::link::{DoorKind, Link};
use crate::net_sink::NetSink;
use crate::net_source::NetSource;
use crate::open_doors::{Came, OpenDoors};
use crate::places::{DoorFault, Places};
use crate::replies::Replies;
use crate::stop::Stop;
use mio::Events;
use size_values::NoMemory;
use std::alloc::Global;
use std::fs::Files;
use std::io::ErrorKind;
use std::marker::Model;
use std::net::{Net, SocketAddr, TcpStream};
use std::time::{Clock, Duration};

/// What is told of doors to a person, and how long they rest after a failure.
pub trait DoorEvents {
    /// All doors were opened, and listen.
    fn opened(&mut self);

    /// This is why none was opened.
    fn refused(&mut self, fault: DoorFault);

    /// A connection could not be accepted, for want of handles or memory, say. The doors try again once this returns,
    /// so it lets some time go by.
    fn failed(&mut self, kind: ErrorKind);
}

/// How long the links of doors are waited for.
#[derive(Clone, Copy)]
pub struct LinkTimes {
    /// A read fails where no request has come whole so long after the reply before it.
    pub idle: Duration,
    /// A write fails where the other end takes nothing for as long.
    pub patience: Duration,
}

/// What the ends of a link are made with.
#[derive(Drop)]
struct Making<N> {
    net: N,
    alloc: Global,
    times: LinkTimes,
    stop: Stop,
}

/// Doors over a port, a socket file or both, which are listened on from the first accept on. They tell no links. None is
/// left once the server stops. An accept fails only where one of the places can't be had.
#[derive(Drop)]
pub struct NetDoors<N: Files + Drop, E> {
    making: Making<N>,
    /// Where they are, until that was tried.
    places: Option<Places>,
    doors: Option<OpenDoors<N>>,
    events: E,
    /// Room for what is told of the listeners.
    signs: Events,
    given: u64,
    none_left: bool,
    faults: u64,
}

impl<N: Files + Drop, E> Model for NetDoors<N, E> {
    ghost use Rattle.serving.specs.Accepts.{Seen};

    ghost Value = { Seen };

    ghost view = { λ d. record { given = d.given; none_left = d.none_left; failed = d.faults } };
}

impl<N: Net + Files + Drop, E: DoorEvents + Drop> NetDoors<N, E> {
    /// Doors at these places, which are not open yet. Once the server stops, they give no link any more, and
    /// the sources of the links that they gave end.
    pub fn at(
        net: N,
        alloc: Global,
        places: Places,
        times: LinkTimes,
        stop: Stop,
        events: E,
    ) -> Result<NetDoors<N, E>, NoMemory>
        ensures { IfOk result (λ d. d ≡ record { given = 0; none_left = false; failed = 0 }) }
    {
        let signs = Events::with_capacity(alloc, 2)?;
        Ok(NetDoors {
            making: Making {
                net,
                alloc,
                times,
                stop,
            },
            places: Some(places),
            doors: None,
            events,
            signs,
            given: 0,
            none_left: false,
            faults: 0,
        })
    }
}

impl<N: Net + Files + Copy + Drop, E: DoorEvents> NetDoors<N, E> {
    /// Where the door at the port is; None where there is none, or that can't be had.
    pub fn address(&mut self) -> Option<SocketAddr>
        ensures { self.new ≡ self.old }
    {
        self.open();
        match &self.doors {
            Some(doors) => doors.address(),
            None => None,
        }
    }

    /// Listens at the places, where that was not tried yet.
    fn open(&mut self)
        ensures { self.new ≡ self.old }
    {
        let Some(places) = self.places.take() else {
            return;
        };
        match OpenDoors::at(self.making.net, places) {
            Ok(doors) => {
                self.doors = Some(doors);
                self.events.opened();
            }
            Err(fault) => self.events.refused(fault),
        }
    }
}

/// The ends of a connection: where its requests come from, and where its replies go.
type NetLink<N> = Link<NetSource<TcpStream, N>, NetSink<TcpStream>>;

impl<N: Net + Files + Clock + Copy + Drop, E: DoorEvents> Doors for NetDoors<N, E> {
    type Source = NetSource<TcpStream, N>;

    type Sink = NetSink<TcpStream>;

    ghost use Rattle.std.specs.Prelude.{None};

    ghost seen = { λ d. d };

    ghost left = { λ _. None };

    fn accept(
        &mut self,
    ) -> Result<Option<Link<NetSource<TcpStream, N>, NetSink<TcpStream>>>, DoorsFailed> {
        self.open();
        let next = next_link(
            &mut self.doors,
            &mut self.signs,
            &self.making,
            &mut self.events,
        );
        match &next {
            Ok(Some(_)) => self.given += 1,
            Ok(None) => self.none_left = true,
            Err(DoorsFailed) => self.faults = self.faults.saturating_add(1),
        }
        if self.none_left {
            // Who comes now is refused by the system, and the socket file is gone.
            self.doors = None;
        }
        next
    }

    fn given(&self) -> u64 {
        self.given
    }

    fn faults(&self) -> u64 {
        self.faults
    }
}

/// The next connection, or None once the server stops.
fn next_link<N: Net + Files + Clock + Copy + Drop, E: DoorEvents>(
    doors: &mut Option<OpenDoors<N>>,
    signs: &mut Events,
    making: &Making<N>,
    events: &mut E,
) -> Result<Option<NetLink<N>>, DoorsFailed> {
    let Some(doors) = doors else {
        return Err(DoorsFailed);
    };
    for _ in 0..u64::MAX {
        if making.stop.is_set() {
            return Ok(None);
        }
        match doors.next(signs) {
            Ok(Some(came)) => return Ok(link_over(came, making, events)),
            Ok(None) => {}
            Err(error) if breaks_off(error.kind()) => {}
            Err(error) => events.failed(error.kind()),
        }
    }
    Err(DoorsFailed)
}

/// The two ends of a stream, once a second handle can be had for it; None where the server stops before that.
fn link_over<N: Net + Clock + Copy + Drop, E: DoorEvents>(
    came: Came,
    making: &Making<N>,
    events: &mut E,
) -> Option<NetLink<N>> {
    let Came { door, stream } = came;
    // Each reply and each event is one write, which is not to wait for the client's answer to the one
    // before. Where this can't be had, they are slower. At a socket file no write waits so.
    if door == DoorKind::Port {
        let _at_once = stream.set_nodelay(true);
    }
    let Handles {
        twin,
        at_source,
        at_sink,
        replies,
        counted,
    } = handles_for(&stream, making, events)?;
    let Making { net, times, .. } = making;
    Some(Link {
        door,
        source: NetSource::new(twin, times.idle, at_source, *net, replies),
        sink: NetSink::new(stream, times.patience, at_sink, counted),
    })
}

/// What the ends of a stream need besides it: a second handle, two handles of the stop, and two of the count of replies.
struct Handles {
    twin: TcpStream,
    at_source: Stop,
    at_sink: Stop,
    replies: Replies,
    counted: Replies,
}

/// These, once they can be had; None where the server stops before that.
fn handles_for<N, E: DoorEvents>(
    stream: &TcpStream,
    making: &Making<N>,
    events: &mut E,
) -> Option<Handles> {
    for _ in 0..u64::MAX {
        match handles_of(stream, making) {
            Ok(handles) => return Some(handles),
            Err(kind) => events.failed(kind),
        }
        if making.stop.is_set() {
            return None;
        }
    }
    None
}

fn handles_of<N>(stream: &TcpStream, making: &Making<N>) -> Result<Handles, ErrorKind> {
    let at_source = making.stop.share().map_err(|_| ErrorKind::OutOfMemory)?;
    let at_sink = making.stop.share().map_err(|_| ErrorKind::OutOfMemory)?;
    let replies = Replies::new(making.alloc).map_err(|_| ErrorKind::OutOfMemory)?;
    let counted = replies.share().map_err(|_| ErrorKind::OutOfMemory)?;
    let twin = stream.try_clone().map_err(|error| error.kind())?;
    Ok(Handles {
        twin,
        at_source,
        at_sink,
        replies,
        counted,
    })
}

/// Whether an accept failed for the sake of one connection, or of a signal, and not of the listener.
fn breaks_off(kind: ErrorKind) -> bool {
    matches!(
        kind,
        ErrorKind::ConnectionAborted
            | ErrorKind::ConnectionReset
            | ErrorKind::HostUnreachable
            | ErrorKind::Interrupted
            | ErrorKind::NetworkDown
            | ErrorKind::NetworkUnreachable
    )
}
