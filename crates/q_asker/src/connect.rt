//! Connections with nodes. What a socket gives or takes no contract says.

use std::io;
use std::io::ErrorKind;
use std::net::{Net, OpenStream, SocketAddr, TcpStream, ToSocketAddrs};
use std::os::unix::net::UnixStream;
use std::time::Duration;

/// For how many seconds a connection is waited for at one address.
const PATIENCE: u64 = 5;

/// For how many seconds a reply is waited for.
const REPLY_PATIENCE: u64 = 30;

/// A stream twice: once to read from and once to write to.
#[derive(Drop)]
pub struct Both<S> {
    /// Where replies are read from.
    pub replies: S,
    /// Where requests are written to.
    pub requests: S,
}

/// Whether a place is the path of a Unix socket: it has a slash, and no address has one.
pub fn is_path(place: &str) -> bool {
    place.contains('/')
}

/// A TCP stream whose requests leave at once, and whose reads wait for so long.
fn prepared<S: OpenStream + Drop>(stream: S) -> io::Result<Both<S>> {
    stream.set_nodelay(true)?;
    stream.set_read_timeout(Some(Duration::from_secs(REPLY_PATIENCE)))?;
    let replies = stream.try_clone()?;
    Ok(Both {
        replies,
        requests: stream,
    })
}

/// A stream to a host and a port, as `node7:8000` or `10.88.0.1:8000`, by the first of the host's addresses that
/// answers.
pub fn connect_tcp<R: Net>(rt: &R, place: &str) -> io::Result<Both<R::Stream>> {
    let mut last = io::Error::from(ErrorKind::AddrNotAvailable);
    for address in place.to_socket_addrs(rt)? {
        match TcpStream::connect_timeout(rt, &address, Duration::from_secs(PATIENCE)) {
            Ok(stream) => return prepared(stream),
            Err(error) => last = error,
        }
    }
    Err(last)
}

/// A stream to the Unix socket of this path.
pub fn connect_unix<R: Net>(rt: &R, path: &str) -> io::Result<Both<UnixStream>> {
    let stream = UnixStream::connect(rt, path)?;
    stream.set_read_timeout(Some(Duration::from_secs(REPLY_PATIENCE)))?;
    let replies = stream.try_clone()?;
    Ok(Both {
        replies,
        requests: stream,
    })
}
