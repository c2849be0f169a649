//! Lines that are given to a node's console over its socket.

use crate::clients::{MOST, heard, mailbox};
use crate::console::end_at;
use crate::masks::{masked, spelled};
use crate::plan::first;
use crate::stage::{LOOKS, NAP, Stage, place_of};
use q_outside::Transport;
use std::alloc::Global;
use std::fs::Files;
use std::io::{Eprint, ErrorKind, Read, Write};
use std::net::{Net, Shutdown, TcpListener, TcpStream};
use std::os::unix::net::UnixStream;
use std::sync::Wait;
use std::thread::{Scope, Threads};
use std::time::{Clock, Duration};
use std::{io, thread};

/// For how many seconds what the node says is waited for.
const PATIENCE: u64 = 30;

/// Writes lines over a new connection to a console, and ends what is written over it.
fn open_speech<R: Net>(rt: &R, path: &str, lines: &str) -> io::Result<UnixStream> {
    let mut stream = UnixStream::connect(rt, path)?;
    stream.set_read_timeout(Some(Duration::from_secs(PATIENCE)))?;
    stream.write_all(lines.as_bytes())?;
    stream.shutdown(Shutdown::Write)?;
    Ok(stream)
}

/// What is said at a console to lines.
fn said_to<R: Net>(rt: &R, alloc: Global, path: &str, lines: &str) -> io::Result<Vec<u8>> {
    let mut stream = open_speech(rt, path, lines)?;
    let mut said = Vec::new(alloc);
    stream.read_to_end(&mut said)?;
    Ok(said)
}

/// What is said at a console to lines, once there is a console.
fn said_at_last<R>(rt: &R, alloc: Global, path: &str, lines: &str) -> io::Result<Vec<u8>>
where
    R: Net + Wait + Clock,
{
    for _ in 0..LOOKS {
        if let Ok(said) = said_to(rt, alloc, path, lines) {
            return Ok(said);
        }
        thread::sleep(rt, Duration::from_millis(NAP));
    }
    Err(io::Error::from(ErrorKind::TimedOut))
}

/// Writes each line that was said at the console of a node.
fn tell_said<W: Write>(alloc: Global, id: u64, said: &[u8], out: &mut W) -> io::Result<()> {
    for line in said.split(|byte| *byte == b'\n') {
        if !line.is_empty() {
            let line = masked(alloc, line)?;
            writeln!(out, "{id}: {line}")?;
        }
    }
    writeln!(out, "{id}: the end")
}

impl<'s, R> Stage<'s, R>
where
    R: Net<Listener = TcpListener, Stream = TcpStream> + Sync,
    R: Files + Wait + Threads + Clock + Eprint,
    R::File: Send,
{
    /// The path of the socket of a node's console.
    fn console_of(&self, id: u64) -> Option<&'s str> {
        let part = self.common.plan.parts.get(place_of(id))?;
        match &part.console {
            Some(path) => Some(path.as_str()),
            None => None,
        }
    }

    /// Has a node end whose console has a socket.
    pub fn end_at_socket(&self, id: u64) -> io::Result<()> {
        if let Some(path) = self.console_of(id) {
            open_speech(self.rt, path, "end\n")?;
        }
        Ok(())
    }

    /// Gives lines to the console of a node over its socket, and writes what it says to them.
    pub fn speak<W: Write>(&self, id: u64, text: &str, out: &mut W) -> io::Result<()> {
        let Some(path) = self.console_of(id) else {
            return writeln!(out, "{id}: no console");
        };
        let lines = spelled(self.alloc, text, "", "")?;
        let said = said_to(self.rt, self.alloc, path, lines.as_str())?;
        tell_said(self.alloc, id, said.as_slice(), out)
    }

    /// Gives lines to the console at a path, from a thread of its own, once there is one.
    pub fn start_speech<E>(&self, scope: &Scope<'s, E>, words: &str) -> io::Result<()> {
        let (rt, alloc, common) = (self.rt, self.alloc, self.common);
        let (path, lines) = words.split_once(' ').unwrap_or((words, ""));
        let path = String::from_str(alloc, path)?;
        let lines = spelled(alloc, lines, "", "")?;
        let to = mailbox(self.places.len(), 0);
        scope.spawn(move || {
            if let Ok(said) = said_at_last(rt, alloc, path.as_str(), lines.as_str()) {
                let _ = end_at(rt, &common.hub, to).send(to, said.as_slice());
            }
        })?;
        Ok(())
    }

    /// Writes what was said to those lines.
    pub fn tell_speech<W: Write>(&self, words: &str, out: &mut W) -> io::Result<()> {
        let mut buffer = vec![in self.alloc; 0u8; MOST]?;
        let from = mailbox(self.places.len(), 0);
        let len = heard(self.rt, &self.common.hub, from, &mut buffer);
        let said = buffer.get(..len).unwrap_or(&[]);
        tell_said(self.alloc, first(words).0, said, out)
    }
}
