//! Nodes that come back.

use crate::events::{Event, events_of};
use crate::own::{memory_of, resumed};
use crate::plan::{ROOM, first};
use crate::role::Role;
use crate::sockets::{PATIENCE, role};
use crate::stage::{Stage, place_of};
use q_doors::UdpPost;
use q_journal::{JournalFault, Resumed};
use q_kept::MemoryFile;
use std::alloc::{AllocError, Global};
use std::fs::Files;
use std::io;
use std::io::{Eprint, ErrorKind, Write};
use std::net::{Net, TcpListener, TcpStream};
use std::sync::Wait;
use std::thread::Threads;
use std::time::{Clock, Duration};

/// Where the last event of this kind begins; the start of the journal where it has none.
fn last_of(events: &[Event], kind: u64) -> usize {
    let mut last = 0usize;
    for event in events {
        if event.kind as u64 == kind {
            last = event.start;
        }
    }
    last
}

/// How many bytes of a journal are kept by words as `KIND BYTES`, where 0 is no kind; all, where there are none.
fn kept_by(alloc: Global, journal: &[u8], words: &str) -> Result<usize, AllocError> {
    if words.is_empty() {
        return Ok(journal.len());
    }
    let (kind, rest) = first(words);
    let events = events_of(alloc, journal)?;
    let start = last_of(events.as_slice(), kind);
    Ok(start.saturating_add(first(rest).0 as usize))
}

/// Writes what a start of a node answers.
pub fn tell_start<W: Write>(
    started: &Result<Option<Resumed>, JournalFault>,
    out: &mut W,
) -> io::Result<()> {
    match started {
        Ok(Some(resumed)) => {
            let cut = resumed.cut;
            writeln!(out, "comes back, cut {cut} bytes")
        }
        Ok(None) => writeln!(out, "begins"),
        Err(fault) => {
            let number = fault.reason().number();
            match fault.event() {
                Some(event) => writeln!(out, "refused {number} at {event}"),
                None => writeln!(out, "refused {number}"),
            }
        }
    }
}

impl<'s, R> Stage<'s, R>
where
    R: Net<Listener = TcpListener, Stream = TcpStream> + Sync,
    R: Files + Wait + Threads + Clock + Eprint,
    R::File: Send,
{
    /// What a node that comes back on this journal is run with: a new socket at its old address, and new doors. Nothing
    /// disturbs it any more.
    fn role_again(&self, id: u64, journal: MemoryFile) -> io::Result<Option<Role<'s>>> {
        let common = self.common;
        let at = place_of(id);
        let Some(part) = common.plan.parts.get(at) else {
            return Ok(None);
        };
        let Some(strangers) = common.strangers.get(at) else {
            return Ok(None);
        };
        let patience = Duration::from_millis(PATIENCE);
        let Ok(post) = UdpPost::open(self.rt, self.alloc, &common.file, id, patience) else {
            return Err(io::Error::from(ErrorKind::AddrInUse));
        };
        self.remove_doors(id);
        let mut role = role(self.rt, self.alloc, id, part, post, strangers)?;
        role.journal = journal;
        role.is_back = true;
        role.call = 0;
        role.write = 0;
        role.post.letters.clear();
        Ok(Some(role))
    }

    /// Puts a node that comes back in its place, so that it can be started.
    fn seat_again(&mut self, id: u64, role: Role<'s>) -> io::Result<()> {
        let at = place_of(id);
        if let Some(place) = self.places.get_mut(at) {
            *place = role.place.clone()?;
        }
        if let Some(seat) = self.roles.get_mut(at) {
            *seat = Some(role);
        }
        Ok(())
    }

    /// Takes the journal that a node left, or a beginning of it, for its next start, and writes what that answers.
    pub fn again<W: Write>(&mut self, words: &str, out: &mut W) -> io::Result<()> {
        let (id, rest) = first(words);
        let Some(bytes) = self.take_journal(id)? else {
            return writeln!(out, "{id}: no journal");
        };
        let kept = kept_by(self.alloc, bytes.as_slice(), rest)?;
        let beginning = bytes.get(..kept).unwrap_or(bytes.as_slice());
        let mut looked = memory_of(self.alloc, beginning, ROOM)?;
        let started = resumed(self.alloc, &self.common.file, id, &mut looked);
        write!(out, "{id}: ")?;
        tell_start(&started, out)?;
        if started.is_err() {
            return Ok(());
        }
        let journal = memory_of(self.alloc, beginning, ROOM)?;
        match self.role_again(id, journal)? {
            Some(role) => self.seat_again(id, role),
            None => Ok(()),
        }
    }
}
