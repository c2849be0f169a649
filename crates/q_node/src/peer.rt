//! What somebody sends and takes over a connection, within the times that a connection has.

ghost use Rattle.std.specs.Io.{ReadsAtMost};

use crate::clock::has_passed;
use crate::entrance::Entrance;
use crate::process::Process;
use crate::start::Start;
use q_doors::{PATIENCE, Stream};
use q_kept::JournalFile;
use std::cell::Cell;
use std::io;
use std::io::{ErrorKind, Read, Write};
use std::sync::Wait;
use std::time::{Clock, Duration, Instant};

/// For how many milliseconds a client may send nothing before a request.
pub(crate) const CLIENT_SILENCE: u64 = 60_000;

/// For how many milliseconds a console may send nothing before a line: as long as it likes.
pub(crate) const CONSOLE_SILENCE: u64 = u64::MAX;

/// Within how many seconds after its first byte a request has to be there, whole.
const REQUEST_PATIENCE: u64 = 10;

/// For how many milliseconds a peer may take nothing.
const DEAFNESS: u64 = 10_000;

/// A connection: its stream, the seat that it has at its door, and since when a request is on its way.
#[derive(Drop)]
pub(crate) struct Connection<'c, C> {
    entrance: &'c Entrance,
    stream: &'c C,
    place: usize,
    silence: u64,
    /// When the first byte of a request came that was not replied to yet.
    begun: Cell<Option<Instant>>,
}

impl<'c, C> Connection<'c, C> {
    /// A connection over which nothing came yet, and that may be silent for this many milliseconds before a request.
    pub(crate) fn new(entrance: &'c Entrance, stream: &'c C, place: usize, silence: u64) -> Self {
        Connection {
            entrance,
            stream,
            place,
            silence,
            begun: Cell::new(None),
        }
    }
}

/// An end of a connection. A read fails where the peer is silent for too long, does not send a whole request in time,
/// or loses its seat; a write where it takes nothing for too long; and both where the node ends.
#[derive(Drop)]
pub(crate) struct Peer<'p, 'c, 'a, 'b, C, R, P, J: JournalFile, S: Start> {
    process: &'p Process<'a, 'b, R, P, J, S>,
    connection: &'p Connection<'c, C>,
}

impl<'p, 'c, 'a, 'b, C, R, P, J: JournalFile, S: Start> Peer<'p, 'c, 'a, 'b, C, R, P, J, S> {
    /// An end of this connection.
    pub(crate) fn new(
        process: &'p Process<'a, 'b, R, P, J, S>,
        connection: &'p Connection<'c, C>,
    ) -> Self {
        Peer {
            process,
            connection,
        }
    }

    /// Whether a call is made again: it only waited for long enough, and the node goes on.
    fn may_wait(&self, error: &io::Error) -> bool {
        let is_slow = matches!(
            error.kind(),
            ErrorKind::WouldBlock | ErrorKind::TimedOut | ErrorKind::Interrupted
        );
        is_slow && !self.process.is_over()
    }
}

impl<C, R: Wait + Clock, P, J: JournalFile, S: Start> Peer<'_, '_, '_, '_, C, R, P, J, S> {
    /// Whether the wait for the first byte of a request goes on after this error.
    fn may_rest(&self, error: &io::Error) -> bool {
        self.may_wait(error)
            && !self
                .connection
                .entrance
                .is_lost(self.process.rt, self.connection.place)
    }

    /// Whether the wait for the rest of a request that began then goes on after this error.
    fn may_go_on(&self, error: &io::Error, begun: Option<Instant>) -> bool {
        self.may_wait(error)
            && !has_passed(
                self.process.rt,
                begun,
                Duration::from_secs(REQUEST_PATIENCE),
            )
    }

    /// The peer waits for the first byte of a request.
    fn rest(&self) {
        self.connection
            .entrance
            .rest(self.process.rt, self.connection.place);
    }

    /// The first byte of a request came. Whether the peer still has its seat.
    fn begin_request(&self) -> bool {
        let rt = self.process.rt;
        self.connection.begun.set(Instant::now(rt).ok());
        self.connection.entrance.rouse(rt, self.connection.place)
    }
}

/// A call, made again while the peer may wait, this many times at most.
macro_rules! patiently {
    ($calls:lifetime: $most:expr, $error:ident: $may_wait:expr, $call:expr) => {{
        $calls: for _ in 0..$most {
            match $call {
                Err($error) if $may_wait => {}
                done => return done,
            }
        }
        Err(io::Error::from(ErrorKind::TimedOut))
    }};
}

impl<C: Stream, R: Wait + Clock, P, J: JournalFile, S: Start> Peer<'_, '_, '_, '_, C, R, P, J, S> {
    /// The first bytes of a request.
    fn read_first(&mut self, buf: &mut [u8]) -> io::Result<usize>
        ensures { ReadsAtMost result buf.new }
    {
        patiently!('reads: self.connection.silence / PATIENCE, error: self.may_rest(&error), self.connection.stream.read(buf))
    }

    /// More bytes of a request that began then.
    fn read_more(&mut self, buf: &mut [u8], begun: Option<Instant>) -> io::Result<usize>
        ensures { ReadsAtMost result buf.new }
    {
        if has_passed(
            self.process.rt,
            begun,
            Duration::from_secs(REQUEST_PATIENCE),
        ) {
            return Err(io::Error::from(ErrorKind::TimedOut));
        }
        patiently!('reads: u64::MAX, error: self.may_go_on(&error, begun), self.connection.stream.read(buf))
    }
}

impl<C: Stream, R: Wait + Clock, P, J: JournalFile, S: Start> Read
    for Peer<'_, '_, '_, '_, C, R, P, J, S> {
    fn read(&mut self, buf: &mut [u8]) -> io::Result<usize> {
        let begun = self.connection.begun.get();
        if begun.is_some() {
            return self.read_more(buf, begun);
        }
        self.rest();
        let read = self.read_first(buf)?;
        if !self.begin_request() {
            return Err(io::Error::from(ErrorKind::ConnectionAborted));
        }
        Ok(read)
    }
}

impl<C: Stream, R: Wait + Clock, P, J: JournalFile, S: Start> Write
    for Peer<'_, '_, '_, '_, C, R, P, J, S> {
    fn write(&mut self, buf: &[u8]) -> io::Result<usize> {
        // What is written is a reply, so the request before it was whole.
        self.connection.begun.set(None);
        patiently!('writes: DEAFNESS / PATIENCE, error: self.may_wait(&error), self.connection.stream.write(buf))
    }

    fn flush(&mut self) -> io::Result<()> {
        Ok(())
    }
}
