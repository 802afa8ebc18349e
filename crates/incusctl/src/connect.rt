//! The connection to a server.
use client_words::Door;
use std::io;
use std::net::{Ipv4Addr, SocketAddr, TcpStream};
use std::os::fd::OwnedFd;
use std::os::unix::net::UnixStream;

/// Connects to the server. The reads and writes of a socket file go through the same calls as those of TCP.
pub(crate) fn connect(net: &HostRuntime, door: &Door) -> io::Result<TcpStream> {
    match door {
        Door::Port(port) => connect_port(net, *port),
        Door::Socket(path) => {
            let stream = UnixStream::connect(net, path.view())?;
            Ok(TcpStream::from(OwnedFd::from(stream)))
        }
    }
}

fn connect_port(net: &HostRuntime, port: u16) -> io::Result<TcpStream> {
    let stream = TcpStream::connect(net, SocketAddr::from((Ipv4Addr::LOCALHOST, port)))?;
    // Each request is one write, which is not to wait for the server's answer to the one before. Where this can't be had,
    // they are slower.
    let _at_once = stream.set_nodelay(true);
    Ok(stream)
}
