//! A socket file that is listened on.
use crate::places::DoorFault;
use mio::unix::SourceFd;
use mio::{Interest, Poll, Token};
use size_values::Text;
use std::fs::{Files, Permissions};
use std::io::ErrorKind;
use std::net::{Net, TcpStream};
use std::os::fd::{AsRawFd, OwnedFd};
use std::os::unix::fs::{FileTypeExt, MetadataExt, PermissionsExt};
use std::os::unix::net::{SocketAddr, UnixListener};
use std::{fs, io};

/// Who may connect: the user and the group of the file.
const MODE: u32 = 0o660;

/// A listener at a socket file. The file goes with it, if it is still the one that was made.
pub(crate) struct SocketFile<N: Files + Drop> {
    files: N,
    path: Text,
    /// The device and the number of the file that was made.
    node: (u64, u64),
    listener: UnixListener,
}

impl<N: Files + Drop> Drop for SocketFile<N> {
    fn drop(self) {
        let SocketFile {
            files,
            path,
            node,
            listener,
        } = self;
        // While it is listened on, another server leaves it alone.
        if node_at(&files, path.view()) == Some(node) {
            let _removed = fs::remove_file(&files, path.view());
        }
        drop(listener);
    }
}

impl<N: Files + Net + Copy + Drop> SocketFile<N> {
    /// Makes the file and listens there. The file of a server that is gone is replaced; any other that is there stays.
    pub(crate) fn at(net: N, path: Text) -> Result<SocketFile<N>, DoorFault> {
        let Ok(address) = SocketAddr::from_pathname(path.view()) else {
            return Err(DoorFault::LongPath);
        };
        make_room(&net, path.view(), &address)?;
        let listener = match UnixListener::bind_addr(&net, &address) {
            Ok(listener) => listener,
            Err(error) => return Err(fault_of(error.kind())),
        };
        let Some(node) = node_at(&net, path.view()) else {
            return Err(DoorFault::System);
        };
        let file = SocketFile {
            files: net,
            path,
            node,
            listener,
        };
        match file.guard() {
            Ok(()) => Ok(file),
            Err(error) => Err(fault_of(error.kind())),
        }
    }

    /// Lets its user and its group connect, and nobody else. Who came before that is let go. From then on an accept waits
    /// for nobody.
    fn guard(&self) -> io::Result<()> {
        self.listener.set_nonblocking(true)?;
        fs::set_permissions(&self.files, self.path.view(), Permissions::from_mode(MODE))?;
        for _ in 0..u64::MAX {
            match self.listener.accept() {
                Ok((early, _)) => drop(early),
                Err(error) if error.kind() == ErrorKind::WouldBlock => return Ok(()),
                Err(error) => return Err(error),
            }
        }
        Ok(())
    }

    /// Lets the poll tell when a connection comes.
    pub(crate) fn register(&self, poll: &Poll, token: Token) -> io::Result<()> {
        let handle = self.listener.as_raw_fd();
        poll.registry()
            .register(&mut SourceFd(&handle), token, Interest::READABLE)
    }

    /// The next connection. Its reads and writes wait, as those of a stream of TCP, whose calls it serves by.
    pub(crate) fn accept(&self) -> io::Result<TcpStream> {
        let (stream, _) = self.listener.accept()?;
        Ok(TcpStream::from(OwnedFd::from(stream)))
    }
}

/// The device and the number of the file at a path, where there is one.
fn node_at<N: Files>(files: &N, path: &str) -> Option<(u64, u64)> {
    match fs::symlink_metadata(files, path) {
        Ok(file) => Some((file.dev(), file.ino())),
        Err(_) => None,
    }
}

/// Takes away the file of a server that is gone.
fn make_room<N: Files + Net>(net: &N, path: &str, address: &SocketAddr) -> Result<(), DoorFault> {
    match fs::symlink_metadata(net, path) {
        Ok(file) if file.file_type().is_socket() => {}
        Ok(_) => return Err(DoorFault::NoSocket),
        // Where the folder is missing, the bind says so.
        Err(error) if error.kind() == ErrorKind::NotFound => return Ok(()),
        Err(error) => return Err(fault_of(error.kind())),
    }
    match mio::net::UnixStream::connect_addr(net, address) {
        Ok(stream) => {
            drop(stream);
            Err(DoorFault::Live)
        }
        Err(error) => match error.kind() {
            ErrorKind::ConnectionRefused => remove(net, path),
            // Its queue is full.
            ErrorKind::WouldBlock => Err(DoorFault::Live),
            kind => Err(fault_of(kind)),
        },
    }
}

fn remove<N: Files>(files: &N, path: &str) -> Result<(), DoorFault> {
    match fs::remove_file(files, path) {
        Ok(()) => Ok(()),
        Err(error) => Err(fault_of(error.kind())),
    }
}

/// Why a file can't be made, looked at or removed.
fn fault_of(kind: ErrorKind) -> DoorFault {
    match kind {
        ErrorKind::NotFound | ErrorKind::NotADirectory => DoorFault::NoFolder,
        ErrorKind::PermissionDenied | ErrorKind::ReadOnlyFilesystem => DoorFault::Denied,
        ErrorKind::AddrInUse => DoorFault::Live,
        ErrorKind::InvalidFilename => DoorFault::LongPath,
        _ => DoorFault::System,
    }
}
