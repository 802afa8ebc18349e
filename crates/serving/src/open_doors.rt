//! The places that are listened on.
use crate::link::DoorKind;
use crate::places::{DoorFault, Places};
use crate::socket_file::SocketFile;
use mio::{Events, Interest, Poll, Token};
use size_values::Text;
use std::fs::Files;
use std::io;
use std::io::ErrorKind;
use std::net::{Ipv4Addr, Net, SocketAddr, TcpListener, TcpStream};
use std::time::Duration;

/// The longest that one look for a connection waits, in milliseconds. So the doors see within this time that the server
/// stops.
const LOOK: u64 = 100;

/// The names by which the doors are registered.
const AT_PORT: Token = Token(0);

const AT_SOCKET: Token = Token(1);

/// A connection that came, and the door that it came through.
pub(crate) struct Came {
    pub(crate) door: DoorKind,
    pub(crate) stream: TcpStream,
}

/// Listeners, with as many connections in their queues as the system allows, and what tells that one came.
#[derive(Drop)]
pub(crate) struct OpenDoors<N: Files + Drop> {
    port: Option<TcpListener>,
    socket: Option<SocketFile<N>>,
    poll: Poll,
    /// The door that is looked at first, in turn.
    first: DoorKind,
}

impl<N: Files + Net + Copy + Drop> OpenDoors<N> {
    /// Listens at these places: at all of them, or at none.
    pub(crate) fn at(net: N, places: Places) -> Result<OpenDoors<N>, DoorFault> {
        let Ok(poll) = Poll::new(&net) else {
            return Err(DoorFault::System);
        };
        let Places { port, socket } = places;
        let port = match port {
            Some(port) => Some(listener_at(&net, &poll, port)?),
            None => None,
        };
        let socket = match socket {
            Some(path) => Some(socket_at(net, &poll, path)?),
            None => None,
        };
        Ok(OpenDoors {
            port,
            socket,
            poll,
            first: DoorKind::Port,
        })
    }

    /// The address of the port that is listened on.
    pub(crate) fn address(&self) -> Option<SocketAddr> {
        match &self.port {
            Some(listener) => listener.local_addr().ok(),
            None => None,
        }
    }

    /// The next connection, whose reads and writes wait; or None where none was there, once one came or 100 ms have
    /// gone by. Where many wait at both doors, they come from each in turn.
    pub(crate) fn next(&mut self, signs: &mut Events) -> io::Result<Option<Came>> {
        let first = self.first;
        self.first = other_than(first);
        for door in [first, other_than(first)] {
            if let Some(stream) = self.accept_at(door)? {
                return Ok(Some(Came { door, stream }));
            }
        }
        self.poll.poll(signs, Some(Duration::from_millis(LOOK)))?;
        Ok(None)
    }

    /// The next connection of this door, where one is there.
    fn accept_at(&self, door: DoorKind) -> io::Result<Option<TcpStream>> {
        let accepted = match door {
            DoorKind::Port => match &self.port {
                Some(listener) => listener.accept().map(|(stream, _)| stream),
                None => return Ok(None),
            },
            DoorKind::Socket => match &self.socket {
                Some(socket) => socket.accept(),
                None => return Ok(None),
            },
        };
        match accepted {
            Ok(stream) => Ok(Some(stream)),
            Err(error) if error.kind() == ErrorKind::WouldBlock => Ok(None),
            Err(error) => Err(error),
        }
    }
}

fn other_than(door: DoorKind) -> DoorKind {
    match door {
        DoorKind::Port => DoorKind::Socket,
        DoorKind::Socket => DoorKind::Port,
    }
}

/// Listens on this port of 127.0.0.1.
fn listener_at<N: Net>(net: &N, poll: &Poll, port: u16) -> Result<TcpListener, DoorFault> {
    let address = SocketAddr::from((Ipv4Addr::LOCALHOST, port));
    let Ok(mut listener) = mio::net::TcpListener::bind(net, address) else {
        return Err(DoorFault::Port);
    };
    match poll
        .registry()
        .register(&mut listener, AT_PORT, Interest::READABLE)
    {
        Ok(()) => Ok(TcpListener::from(listener)),
        Err(_) => Err(DoorFault::Port),
    }
}

/// Listens on the socket file at this path.
fn socket_at<N: Files + Net + Copy + Drop>(
    net: N,
    poll: &Poll,
    path: Text,
) -> Result<SocketFile<N>, DoorFault> {
    let file = SocketFile::at(net, path)?;
    match file.register(poll, AT_SOCKET) {
        Ok(()) => Ok(file),
        Err(_) => Err(DoorFault::System),
    }
}
