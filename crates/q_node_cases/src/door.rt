//! The door of a node of a case. It does not wait for clients, so that nothing has to wake it.

use q_doors::{Door, DoorAddress, PATIENCE, Stream};
use std::fs::Files;
use std::io;
use std::io::{Read, Write};
use std::net::{Net, SocketAddr, TcpListener, TcpStream};
use std::os::unix::net::{UnixListener, UnixStream};
use std::time::Duration;

/// What a door listens at.
#[derive(Drop)]
enum Listener {
    Tcp(TcpListener),
    Unix(UnixListener),
}

/// A door at which a client comes in, or none is there.
#[derive(Drop)]
pub struct PolledDoor {
    listener: Listener,
}

/// The stream of a client.
#[derive(Drop)]
pub enum Visitor {
    Tcp(TcpStream),
    Unix(UnixStream),
}

impl PolledDoor {
    /// The door at a place.
    pub fn open<R>(rt: &R, place: DoorAddress<'_>) -> io::Result<PolledDoor>
    where
        R: Net<Listener = TcpListener, Stream = TcpStream> + Files,
    {
        let listener = match place {
            DoorAddress::Tcp(address) => {
                let listener = TcpListener::bind(rt, address)?;
                listener.set_nonblocking(true)?;
                Listener::Tcp(listener)
            }
            DoorAddress::Unix(path) => {
                let listener = UnixListener::bind(rt, path)?;
                listener.set_nonblocking(true)?;
                Listener::Unix(listener)
            }
        };
        Ok(PolledDoor { listener })
    }

    /// Where it is, if that is no Unix socket.
    pub fn address(&self) -> Option<SocketAddr> {
        match &self.listener {
            Listener::Tcp(listener) => listener.local_addr().ok(),
            Listener::Unix(_) => None,
        }
    }
}

/// The stream of a new TCP connection.
fn over_tcp(stream: TcpStream) -> io::Result<Visitor> {
    let patience = Some(Duration::from_millis(PATIENCE));
    stream.set_read_timeout(patience)?;
    stream.set_write_timeout(patience)?;
    Ok(Visitor::Tcp(stream))
}

/// The stream of a new connection at a Unix socket.
fn over_unix(stream: UnixStream) -> io::Result<Visitor> {
    let patience = Some(Duration::from_millis(PATIENCE));
    stream.set_read_timeout(patience)?;
    stream.set_write_timeout(patience)?;
    Ok(Visitor::Unix(stream))
}

impl Door for PolledDoor {
    type Stream = Visitor;

    fn next(&self) -> io::Result<Visitor> {
        match &self.listener {
            Listener::Tcp(listener) => over_tcp(listener.accept()?.0),
            Listener::Unix(listener) => over_unix(listener.accept()?.0),
        }
    }

    fn wake(&self) {}
}

impl Stream for Visitor {
    fn read(&self, buf: &mut [u8]) -> io::Result<usize> {
        match self {
            Visitor::Tcp(stream) => (&*stream).read(buf),
            Visitor::Unix(stream) => (&*stream).read(buf),
        }
    }

    fn write(&self, buf: &[u8]) -> io::Result<usize> {
        match self {
            Visitor::Tcp(stream) => (&*stream).write(buf),
            Visitor::Unix(stream) => (&*stream).write(buf),
        }
    }
}
