//! The clients of a case: scripts, and connections whose bytes are in the steps.

use crate::console::{MAILBOXES, end_at};
use crate::masks::spelled;
use crate::plan::first;
use crate::stage::{LOOKS, NAP, Stage, place_of};
use q_asker::run_text;
use q_outside::{Counted, Hub, Transport};
use std::alloc::{AllocError, Global};
use std::fs::Files;
use std::io::{Eprint, ErrorKind, Read, Write};
use std::net::{Net, Shutdown, TcpListener, TcpStream};
use std::sync::Wait;
use std::thread::{Scope, Threads};
use std::time::{Clock, Duration};
use std::{io, str, thread};

/// For how many seconds a connection waits for bytes.
const PATIENCE: u64 = 30;

/// For how many milliseconds is looked whether a connection has ended.
const GLANCE: u64 = 10;

/// The most bytes that a client prints.
pub const MOST: usize = 4096;

/// What a client prints that is done when its connection fails.
const LOST: &[u8] = b"refused 86 TransportFailed\n";

/// What a client prints for which the node has no seat.
const FULL: &[u8] = b"refused 61 RowFull\n";

/// How often a node is asked for an answer. Each time it waits for a second.
const QUESTIONS: u32 = 30;

/// The kind of a request for an answer, and the bytes before an answer in the reply.
const ANSWER: u8 = 4;

const ANSWERED: &[u8] = &[0, 1];

/// Whether a client printed last that it was not served.
fn is_unserved(printed: &[u8]) -> bool {
    printed.ends_with(LOST) || printed.ends_with(FULL)
}

/// What the run of a script at a place prints.
fn ask<R: Net + Clock>(rt: &R, alloc: Global, place: &str, script: &str) -> Vec<u8> {
    let mut out = Counted::new(Vec::new(alloc));
    let mut notes = Vec::new(alloc);
    run_text(rt, alloc, place, script, &mut out, &mut notes);
    out.inner
}

/// Writes each line that a client printed.
fn tell_client<W: Write>(id: u64, printed: &[u8], out: &mut W) -> io::Result<()> {
    for line in str::from_utf8(printed).unwrap_or("no text").lines() {
        writeln!(out, "at {id}: {line}")?;
    }
    Ok(())
}

/// The bytes that a text spells: hexadecimal digits, repeated COUNT times after `COUNT*`.
pub fn bytes_of(alloc: Global, text: &str) -> io::Result<Vec<u8>> {
    let (count, digits) = match text.split_once('*') {
        Some((count, digits)) => (first(count).0, digits),
        None => (1, text),
    };
    let Ok(piece) = hex::decode(alloc, digits) else {
        return Err(io::Error::from(ErrorKind::InvalidInput));
    };
    let mut bytes = Vec::new(alloc);
    for _ in 0..count {
        bytes.extend_from_slice(piece.as_slice())?;
    }
    Ok(bytes)
}

/// Reads this many bytes, fewer where the connection ends before. Whether it ended.
fn read_some<S: Read>(stream: &mut S, count: u64, into: &mut Vec<u8>) -> Result<bool, AllocError> {
    for _ in 0..count {
        let mut byte = [0u8; 1];
        match stream.read(&mut byte) {
            Ok(1) => into.push(byte[0])?,
            _ => return Ok(true),
        }
    }
    Ok(false)
}

/// Whether the other end of a connection over which nothing comes was closed.
fn is_closed(stream: &mut TcpStream) -> io::Result<bool> {
    stream.set_read_timeout(Some(Duration::from_millis(GLANCE)))?;
    let mut byte = [0u8; 1];
    let is_closed = match stream.read(&mut byte) {
        Ok(count) => count == 0,
        Err(error) => !matches!(error.kind(), ErrorKind::WouldBlock | ErrorKind::TimedOut),
    };
    stream.set_read_timeout(Some(Duration::from_secs(PATIENCE)))?;
    Ok(is_closed)
}

/// The mailbox of the client at this place.
pub fn mailbox(nodes: usize, place: usize) -> u64 {
    let nodes = (nodes as u64).wrapping_mul(MAILBOXES);
    nodes.wrapping_add(place as u64).wrapping_add(1)
}

/// What came at the mailbox of a client.
pub fn heard<R: Wait>(rt: &R, hub: &Hub, from: u64, into: &mut [u8]) -> usize {
    let mut end = end_at(rt, hub, from);
    for _ in 0..LOOKS {
        if let Ok(Some(len)) = end.receive(into) {
            return len;
        }
    }
    0
}

impl<'s, R> Stage<'s, R>
where
    R: Net<Listener = TcpListener, Stream = TcpStream> + Sync,
    R: Files + Wait + Threads + Clock + Eprint,
{
    /// Where the clients of a node connect.
    pub fn place(&self, id: u64) -> &str {
        match self.places.get(place_of(id)) {
            Some(place) => place.as_str(),
            None => "",
        }
    }

    /// Starts a client in a thread of its own, and puts what it prints into a mailbox.
    fn start_client<E>(&self, scope: &Scope<'s, E>, to: u64, words: &str) -> io::Result<()> {
        let (rt, alloc, common) = (self.rt, self.alloc, self.common);
        let (id, script) = first(words);
        let place = String::from_str(alloc, self.place(id))?;
        let script = spelled(alloc, script, "", "")?;
        scope.spawn(move || {
            let printed = ask(rt, alloc, place.as_str(), script.as_str());
            let _ = end_at(rt, &common.hub, to).send(to, printed.as_slice());
        })?;
        Ok(())
    }

    /// Runs clients at once, and writes in turn what they print.
    pub fn run_clients<E, W: Write>(
        &self,
        scope: &Scope<'s, E>,
        rest: &str,
        out: &mut W,
    ) -> io::Result<()> {
        let nodes = self.places.len();
        for (place, words) in rest.split('|').enumerate() {
            self.start_client(scope, mailbox(nodes, place), words)?;
        }
        let mut buffer = vec![in self.alloc; 0u8; MOST]?;
        for (place, words) in rest.split('|').enumerate() {
            let from = mailbox(nodes, place);
            let len = heard(self.rt, &self.common.hub, from, &mut buffer);
            tell_client(first(words).0, buffer.get(..len).unwrap_or(&[]), out)?;
        }
        Ok(())
    }

    /// Runs a client again and again until it is not served, or until it is, and writes what it prints then.
    fn insist<W: Write>(&self, words: &str, is_lost: bool, out: &mut W) -> io::Result<()> {
        let (id, script) = first(words);
        let script = spelled(self.alloc, script, "", "")?;
        for _ in 0..LOOKS {
            let printed = ask(self.rt, self.alloc, self.place(id), script.as_str());
            if is_unserved(printed.as_slice()) == is_lost {
                let last = if is_lost { LOST } else { printed.as_slice() };
                return tell_client(id, last, out);
            }
            thread::sleep(self.rt, Duration::from_millis(NAP));
        }
        writeln!(out, "at {id}: no end")
    }

    /// Opens this many connections with a node, and writes these bytes over each.
    fn connect(&mut self, words: &str) -> io::Result<()> {
        let (id, rest) = first(words);
        let (count, bytes) = first(rest);
        let bytes = bytes_of(self.alloc, bytes)?;
        for _ in 0..count {
            let mut stream = self.connection(id)?;
            stream.write_all(bytes.as_slice())?;
            self.streams.push(stream)?;
        }
        Ok(())
    }

    /// Does a step over the connection with this number.
    fn step_over<W: Write>(&mut self, word: &str, words: &str, out: &mut W) -> io::Result<()> {
        let (number, rest) = first(words);
        let alloc = self.alloc;
        let Some(stream) = self.streams.get_mut(place_of(number)) else {
            return writeln!(out, "no connection {number}");
        };
        match word {
            "write" => stream.write_all(bytes_of(alloc, rest)?.as_slice()),
            "shut" => stream.shutdown(Shutdown::Write),
            _ => {
                let mut bytes = Vec::new(alloc);
                let is_ended = read_some(stream, first(rest).0, &mut bytes)?;
                let digits = hex::encode(alloc, bytes.as_slice())?;
                let end = if is_ended { "the end" } else { "open" };
                writeln!(out, "connection {number}: [{digits}] {end}")
            }
        }
    }

    /// A connection with a node.
    fn connection(&self, id: u64) -> io::Result<TcpStream> {
        let stream = TcpStream::connect(self.rt, self.place(id))?;
        stream.set_read_timeout(Some(Duration::from_secs(PATIENCE)))?;
        Ok(stream)
    }

    /// Asks a node for the answer of a query until it is there, over one connection, and writes the bytes of the reply.
    fn await_answer<W: Write>(&self, words: &str, out: &mut W) -> io::Result<()> {
        let (id, rest) = first(words);
        let query = first(rest).0;
        let mut stream = self.connection(id)?;
        for _ in 0..QUESTIONS {
            stream.write_all(&[ANSWER])?;
            stream.write_all(&query.to_le_bytes())?;
            let mut reply = Vec::new(self.alloc);
            read_some(&mut stream, 2, &mut reply)?;
            if reply.as_slice() == ANSWERED {
                read_some(&mut stream, 16, &mut reply)?;
                let digits = hex::encode(self.alloc, reply.as_slice())?;
                return writeln!(out, "at {id}: {digits}");
            }
        }
        writeln!(out, "at {id}: no answer")
    }

    /// Writes how many of the connections the node has ended.
    fn count_closed<W: Write>(&mut self, out: &mut W) -> io::Result<()> {
        let count = self.streams.len();
        let mut closed = 0usize;
        for stream in &mut self.streams {
            if is_closed(stream)? {
                closed = closed.saturating_add(1);
            }
        }
        writeln!(out, "closed: {closed} of {count}")
    }

    /// Does a step of a client. Whether it is one.
    pub fn step_of_client<W: Write>(
        &mut self,
        word: &str,
        rest: &str,
        out: &mut W,
    ) -> io::Result<bool> {
        match word {
            "drown" => self.insist(rest, true, out)?,
            "insist" => self.insist(rest, false, out)?,
            "connect" => self.connect(rest)?,
            "write" | "shut" | "read" => self.step_over(word, rest, out)?,
            "closed" => self.count_closed(out)?,
            "answer" => self.await_answer(rest, out)?,
            "disperse" => self.streams.clear(),
            _ => return Ok(false),
        }
        Ok(true)
    }
}
