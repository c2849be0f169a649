//! Starts over beginnings of a journal, and over bytes that are not the node's own journal.

use crate::again::tell_start;
use crate::events::{Event, events_of, head_length};
use crate::own::{BOOT, memory_of, note_of, own_book};
use crate::plan::{ROOM, first};
use crate::stage::Stage;
use q_book::Book;
use q_journal::{BootNote, start_from};
use q_script::read_cluster;
use std::alloc::{AllocError, Global};
use std::fs::Files;
use std::io;
use std::io::{Eprint, ErrorKind, Write};
use std::net::{Net, TcpListener, TcpStream};
use std::sync::Wait;
use std::thread::Threads;
use std::time::Clock;

/// The cluster of a case with one node, one with other fractions, and one with other founders.
const SAME_CLUSTER: &str = "cluster 7 1/1 1/1\nfounder 1 127.0.0.1:7001\nnode 2 127.0.0.1:7002\n";

const OTHER_FRACTIONS: &str = "cluster 7 1/3 1/2\nfounder 1 127.0.0.1:7001\n";

const OTHER_FOUNDERS: &str =
    "cluster 7 1/1 1/1\nfounder 1 127.0.0.1:7001\nfounder 2 127.0.0.1:7002\n";

/// The bytes of an event of kind 1, a leave.
const LEAVE: &[u8] = &[1, 0, 0, 0, 0];

/// What starts over the beginnings of a journal answered.
#[derive(Drop)]
struct Counts {
    /// How many begin, as they have to: they have less than the head.
    headless: usize,
    /// How many come back, as they have to, with the whole events that they have.
    back: usize,
    /// How many do anything else.
    wrong: usize,
}

/// How many events end within this many bytes, and where the last of them ends.
fn whole_within(events: &[Event], head: usize, len: usize) -> (usize, usize) {
    let mut count = 0usize;
    let mut end = head;
    for event in events {
        if event.end <= len {
            count = count.saturating_add(1);
            end = event.end;
        }
    }
    (count, end)
}

/// A journal, the book of its node at first, and where its events are.
#[derive(Drop)]
struct Sample<'j> {
    alloc: Global,
    journal: &'j [u8],
    own: Book,
    note: BootNote,
    head: usize,
    events: Vec<Event>,
}

impl Sample<'_> {
    /// The first bytes, this many.
    fn beginning(&self, len: usize) -> &[u8] {
        self.journal.get(..len).unwrap_or(self.journal)
    }

    /// Starts over the first bytes, this many, and counts whether the result is the expected one.
    fn count(&self, len: usize, counts: &mut Counts) -> io::Result<()> {
        let mut file = memory_of(self.alloc, self.beginning(len), ROOM)?;
        let (events, end) = whole_within(self.events.as_slice(), self.head, len);
        match start_from(
            self.alloc,
            &mut file,
            &self.own,
            Some(&self.note),
            BOOT,
            true,
        ) {
            Ok(None) if len < self.head && file.bytes.is_empty() => {
                counts.headless = counts.headless.saturating_add(1);
            }
            Ok(Some(resumed))
                if self.head <= len
                    && resumed.book.events() == events
                    && resumed.kept == end
                    && resumed.cut == len.saturating_sub(end)
                    && file.bytes.as_slice() == self.beginning(end) => {
                counts.back = counts.back.saturating_add(1);
            }
            _ => counts.wrong = counts.wrong.saturating_add(1),
        }
        Ok(())
    }

    /// What starts over all beginnings answer.
    fn count_all(&self) -> io::Result<Counts> {
        let mut counts = Counts {
            headless: 0,
            back: 0,
            wrong: 0,
        };
        for len in 0..=self.journal.len() {
            self.count(len, &mut counts)?;
        }
        Ok(counts)
    }

    /// Writes what a start answers over these bytes, for the node that begins with this book, and whether the file is
    /// then as it was.
    fn try_start<W: Write>(
        &self,
        what: &str,
        own: &Book,
        bytes: &[u8],
        note: Option<&BootNote>,
        out: &mut W,
    ) -> io::Result<()> {
        let mut file = memory_of(self.alloc, bytes, ROOM)?;
        let started = start_from(self.alloc, &mut file, own, note, BOOT, true);
        let kept = if file.bytes.as_slice() == bytes {
            "kept"
        } else {
            "changed"
        };
        write!(out, "{what}, {kept}: ")?;
        tell_start(&started, out)
    }

    /// The journal with this byte at a place.
    fn with_byte(&self, at: usize, byte: u8) -> Result<Vec<u8>, AllocError> {
        let mut bytes = Vec::from_slice(self.alloc, self.journal)?;
        if let Some(old) = bytes.get_mut(at) {
            *old = byte;
        }
        Ok(bytes)
    }

    /// The head, two leaves, and the events.
    fn left_twice(&self) -> Result<Vec<u8>, AllocError> {
        let mut bytes = Vec::from_slice(self.alloc, self.beginning(self.head))?;
        bytes.extend_from_slice(LEAVE)?;
        bytes.extend_from_slice(LEAVE)?;
        bytes.extend_from_slice(self.journal.get(self.head..).unwrap_or(&[]))?;
        Ok(bytes)
    }

    /// Starts of other nodes over the journal.
    fn try_others<W: Write>(&self, out: &mut W) -> io::Result<()> {
        let note = Some(&self.note);
        let other = book_of(self.alloc, SAME_CLUSTER, 2)?;
        self.try_start("another node", &other, self.journal, note, out)?;
        let fractions = book_of(self.alloc, OTHER_FRACTIONS, 1)?;
        self.try_start("other fractions", &fractions, self.journal, note, out)?;
        let version = self.with_byte(3, 1)?;
        self.try_start("version 1", &self.own, version.as_slice(), note, out)?;
        let founders = book_of(self.alloc, OTHER_FOUNDERS, 1)?;
        self.try_start("other founders", &founders, self.journal, note, out)
    }

    /// Starts over bytes that are no journal.
    fn try_bytes<W: Write>(&self, out: &mut W) -> io::Result<()> {
        let note = Some(&self.note);
        let second = self.events.get(1).map_or(0, |event| event.start);
        let kind = self.with_byte(second, 9)?;
        self.try_start("event 2 of kind 9", &self.own, kind.as_slice(), note, out)?;
        let left = self.left_twice()?;
        self.try_start("left twice", &self.own, left.as_slice(), note, out)?;
        let head = self.with_byte(0, 0)?;
        self.try_start("no head", &self.own, head.as_slice(), note, out)
    }

    /// Starts over the first bytes, this many, with this note.
    fn try_note<W: Write>(
        &self,
        what: &str,
        len: usize,
        note: &BootNote,
        out: &mut W,
    ) -> io::Result<()> {
        self.try_start(what, &self.own, self.beginning(len), Some(note), out)
    }

    /// Starts with other notes.
    fn try_notes<W: Write>(&self, out: &mut W) -> io::Result<()> {
        let len = self.journal.len();
        self.try_start("no note", &self.own, self.journal, None, out)?;
        let lost = note_of(self.alloc, "another", false)?;
        self.try_note("another boot", len, &lost, out)?;
        self.try_note("another boot, 3 bytes", 3, &lost, out)?;
        let synced = note_of(self.alloc, "another", true)?;
        self.try_note("another boot, synced", len, &synced, out)
    }
}

/// The book with which a node of the cluster of this text begins.
fn book_of(alloc: Global, text: &str, id: u64) -> io::Result<Book> {
    let Ok(file) = read_cluster(alloc, text) else {
        return Err(io::Error::from(ErrorKind::InvalidInput));
    };
    match own_book(alloc, &file, id) {
        Ok(book) => Ok(book),
        Err(_) => Err(io::Error::from(ErrorKind::InvalidInput)),
    }
}

/// Writes how many starts answered what they have to.
fn tell_counts<W: Write>(id: u64, counts: &Counts, out: &mut W) -> io::Result<()> {
    let Counts {
        headless,
        back,
        wrong,
    } = counts;
    let some = if *back == 0 { "none" } else { "the rest" };
    writeln!(
        out,
        "{id}: {headless} begin, {some} come back, {wrong} wrong"
    )
}

impl<'s, R> Stage<'s, R>
where
    R: Net<Listener = TcpListener, Stream = TcpStream> + Sync,
    R: Files + Wait + Threads + Clock + Eprint,
    R::File: Send,
{
    /// A journal of a node, with what starts over it need.
    fn sample<'j>(&self, id: u64, journal: &'j [u8]) -> io::Result<Sample<'j>> {
        let Ok(own) = own_book(self.alloc, &self.common.file, id) else {
            return Err(io::Error::from(ErrorKind::InvalidInput));
        };
        Ok(Sample {
            alloc: self.alloc,
            journal,
            own,
            note: note_of(self.alloc, BOOT, false)?,
            head: head_length(journal),
            events: events_of(self.alloc, journal)?,
        })
    }

    /// Starts over each beginning of the journal that a node left, and writes how many answered what.
    pub fn beginnings<W: Write>(&self, words: &str, out: &mut W) -> io::Result<()> {
        let id = first(words).0;
        let Some(journal) = self.take_journal(id)? else {
            return writeln!(out, "{id}: no journal");
        };
        self.leave_journal(id, journal.as_slice());
        let counts = self.sample(id, journal.as_slice())?.count_all()?;
        tell_counts(id, &counts, out)
    }

    /// Starts over the journal that a node left which are refused, and writes for which reason.
    pub fn foreign<W: Write>(&self, words: &str, out: &mut W) -> io::Result<()> {
        let id = first(words).0;
        let Some(journal) = self.take_journal(id)? else {
            return writeln!(out, "{id}: no journal");
        };
        self.leave_journal(id, journal.as_slice());
        let sample = self.sample(id, journal.as_slice())?;
        sample.try_others(out)?;
        sample.try_bytes(out)?;
        sample.try_notes(out)
    }
}
