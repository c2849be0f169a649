//! Journals that are gathered, and the command `node` over files.

use crate::console::{Mailbox, end_at, number_of};
use crate::masks::{masked, spelled};
use crate::plan::first;
use crate::sockets::bind;
use crate::stage::Stage;
use q_beginning::beginning;
use q_book::Book;
use q_command::gathered;
use q_node::run_file;
use q_outside::{Counted, Files, MemoryFiles, Transport};
use q_script::NodeWords;
use q_told::Refusal;
use std::fs::Files as SystemFiles;
use std::io::{Eprint, Write};
use std::net::{Net, TcpListener, TcpStream};
use std::sync::Wait;
use std::thread::Threads;
use std::time::Clock;
use std::{fs, io};

/// The most bytes of a journal that are gathered.
const LONGEST_JOURNAL: usize = 1_000_000;

/// The lines of the console of the command.
const LINES: &[u8] = b"status\nend\n";

/// The words of the command `node` in words as `FILE ID RUNNERS PLACE`, perhaps with `resume` or `console PATH` at the
/// end.
fn words_of(words: &str) -> NodeWords<'_> {
    let (file, rest) = words.split_once(' ').unwrap_or((words, ""));
    let (id, rest) = first(rest);
    let (runners, rest) = first(rest);
    let (clients, rest) = rest.split_once(' ').unwrap_or((rest, ""));
    NodeWords {
        file,
        id,
        clients,
        journal: "journal",
        console: rest.strip_prefix("console "),
        resume: rest == "resume",
        runners: runners as usize,
        sync: true,
    }
}

impl<'s, R> Stage<'s, R>
where
    R: Net<Listener = TcpListener, Stream = TcpStream> + Sync,
    R: SystemFiles + Wait + Threads + Clock + Eprint,
    R::File: Send,
{
    /// Takes the journal that a node left, if the node has ended.
    pub fn take_journal(&self, id: u64) -> io::Result<Option<Vec<u8>>> {
        let mut buffer = vec![in self.alloc; 0u8; LONGEST_JOURNAL]?;
        let from = number_of(id, Mailbox::Journal);
        let Ok(Some(len)) = end_at(self.rt, &self.common.hub, from).receive(&mut buffer) else {
            return Ok(None);
        };
        buffer.truncate(len);
        Ok(Some(buffer))
    }

    /// Leaves a journal that was taken where it was.
    pub fn leave_journal(&self, id: u64, journal: &[u8]) {
        let to = number_of(id, Mailbox::Journal);
        let _ = end_at(self.rt, &self.common.hub, to).send(to, journal);
    }

    /// The book of the beginning of a node's journal, if the node has ended; says why it has none.
    fn book<W: Write>(&self, id: u64, out: &mut W) -> io::Result<Option<Book>> {
        let Some(journal) = self.take_journal(id)? else {
            return Ok(None);
        };
        match beginning(self.alloc, journal.as_slice()) {
            Ok(journal) => Ok(Some(journal.book)),
            Err(fault) => {
                let refusal = Refusal::Journal(fault);
                writeln!(out, "journal {id}: {refusal}")?;
                Ok(None)
            }
        }
    }

    /// Gathers the journals of the nodes that have ended, and writes what they say.
    fn gather<W: Write>(&self, out: &mut W) -> io::Result<()> {
        let mut books = Vec::new(self.alloc);
        for before in 0..self.places.len() {
            let id = (before as u64).saturating_add(1);
            if let Some(book) = self.book(id, out)? {
                books.push(book)?;
            }
        }
        match gathered(self.alloc, books.as_slice(), false) {
            Ok(lines) => write!(out, "{lines}"),
            Err(fault) => {
                let number = fault.reason().number();
                writeln!(out, "not gathered: {number}")
            }
        }
    }

    /// Runs the command `node` over a file in memory, and writes what it prints, with its masks.
    fn command<W: Write>(&self, words: &str, out: &mut W) -> io::Result<()> {
        let words = words_of(words);
        let mut files = MemoryFiles::new(self.alloc);
        let _ = files.write("text", self.text.as_bytes());
        let _ = files.write("bytes", &[0xff]);
        let mut printed = Counted::new(Vec::new(self.alloc));
        let mut notes = Vec::new(self.alloc);
        let ending = run_file(
            self.rt,
            self.alloc,
            &words,
            &mut files,
            &mut &*LINES,
            &mut printed,
            &mut notes,
        );
        for line in printed.inner.split(|byte| *byte == b'\n') {
            if !line.is_empty() {
                let line = masked(self.alloc, line)?;
                writeln!(out, "{line}")?;
            }
        }
        let status = ending.status();
        writeln!(out, "status {status}")
    }

    /// The text of the file of the command, with an address of a socket of the case, and a free one.
    fn spell(&mut self, text: &str) -> io::Result<()> {
        let used = self.stranger.address()?;
        let used = format!(in self.alloc; "{used}")?;
        let free = bind(self.rt, self.alloc)?.address()?;
        let free = format!(in self.alloc; "{free}")?;
        self.text = spelled(self.alloc, text, used.as_str(), free.as_str())?;
        Ok(())
    }

    /// Writes a file with this text.
    fn put(&self, words: &str) -> io::Result<()> {
        let (path, text) = words.split_once(' ').unwrap_or((words, ""));
        let text = spelled(self.alloc, text, "", "")?;
        let mut file = fs::create(self.rt, path)?;
        file.write_all(text.as_bytes())
    }

    /// Does a step of files, the last kind there is.
    pub fn step_of_files<W: Write>(
        &mut self,
        word: &str,
        rest: &str,
        out: &mut W,
    ) -> io::Result<()> {
        match word {
            "gather" => self.gather(out),
            "text" => self.spell(rest),
            "command" => self.command(rest, out),
            "put" => self.put(rest),
            "remove" => {
                let _ = fs::remove_file(self.rt, rest);
                Ok(())
            }
            "there" => {
                let is_there = fs::exists(self.rt, rest).unwrap_or(false);
                writeln!(out, "{rest}: {is_there}")
            }
            _ => writeln!(out, "no step {word}"),
        }
    }
}
