//! A case while it runs: its nodes in threads, and the steps that speak with them.

use crate::console::{Mailbox, end_at, number_of};
use crate::masks::masked;
use crate::plan::first;
use crate::role::{Role, start};
use crate::sockets::Common;
use q_doors::UdpPost;
use q_outside::Transport;
use std::alloc::Global;
use std::fs::Files;
use std::io::{Eprint, Write};
use std::net::{Net, TcpListener, TcpStream};
use std::sync::Wait;
use std::thread::{Scope, Threads};
use std::time::{Clock, Duration};
use std::{fs, io, thread};

/// How often something is looked for.
pub const LOOKS: u32 = 400;

/// For how many milliseconds is slept between two looks.
pub const NAP: u64 = 20;

/// A case while it runs.
#[derive(Drop)]
pub struct Stage<'s, R: Net<Listener = TcpListener, Stream = TcpStream>> {
    pub rt: &'s R,
    pub alloc: Global,
    pub common: &'s Common,
    /// What the case has.
    /// The nodes that were not started.
    pub roles: Vec<Option<Role<'s>>>,
    /// Where the clients of each node connect.
    pub places: Vec<String>,
    /// A socket that is no node's, and knows the nodes.
    pub stranger: UdpPost,
    /// The connections that are open.
    pub streams: Vec<TcpStream>,
    /// The text of a cluster's file.
    pub text: String,
}

/// The place of what is counted from 1.
pub fn place_of(number: u64) -> usize {
    (number as usize).wrapping_sub(1)
}

impl<'s, R> Stage<'s, R>
where
    R: Net<Listener = TcpListener, Stream = TcpStream> + Sync,
    R: Files + Wait + Threads + Clock + Eprint,
    R::File: Send,
{
    /// Starts the thread of a node.
    fn start<E>(&mut self, scope: &Scope<'s, E>, id: u64) -> io::Result<()> {
        let Some(role) = self.roles.get_mut(place_of(id)).and_then(Option::take) else {
            return Ok(());
        };
        start(scope, self.rt, self.alloc, self.common, role)
    }

    /// Gives bytes to the console of a node; none end it.
    fn give(&self, id: u64, bytes: &[u8]) {
        let to = number_of(id, Mailbox::Console);
        let _ = end_at(self.rt, &self.common.hub, to).send(to, bytes);
    }

    /// Gives a line to the console of a node.
    pub fn tell(&self, id: u64, line: &str) -> io::Result<()> {
        let line = format!(in self.alloc; "{line}\n")?;
        self.give(id, line.as_bytes());
        Ok(())
    }

    /// The next line that a node prints, with its masks. It is empty where none comes.
    pub fn line(&self, id: u64) -> io::Result<String> {
        let mut line = Vec::new(self.alloc);
        let mut buffer = [0u8; 512];
        let mailbox = number_of(id, Mailbox::Printed);
        let mut end = end_at(self.rt, &self.common.hub, mailbox);
        for _ in 0..LOOKS {
            if let Ok(Some(len)) = end.receive(&mut buffer) {
                line.extend_from_slice(buffer.get(..len).unwrap_or(&[]))?;
            }
            if line.ends_with(b"\n") {
                break;
            }
        }
        Ok(masked(self.alloc, line.as_slice())?)
    }

    /// Writes the next line that a node prints.
    fn hear<W: Write>(&self, id: u64, out: &mut W) -> io::Result<()> {
        let line = self.line(id)?;
        writeln!(out, "{id}: {line}")
    }

    /// Asks a node for its status until it has this text.
    fn await_status<W: Write>(&self, id: u64, text: &str, out: &mut W) -> io::Result<()> {
        for _ in 0..LOOKS {
            self.tell(id, "status")?;
            let line = self.line(id)?;
            if line.contains(text) {
                return writeln!(out, "{id}: {line}");
            }
            thread::sleep(self.rt, Duration::from_millis(NAP));
        }
        writeln!(out, "{id}: no status has {text}")
    }

    /// Does a step at the console of a node. Whether it is one.
    fn step_at_console<W: Write>(&self, word: &str, rest: &str, out: &mut W) -> io::Result<bool> {
        let (id, text) = first(rest);
        match word {
            "tell" => self.tell(id, text)?,
            "say" => {
                self.tell(id, text)?;
                self.hear(id, out)?;
            }
            "close" => self.give(id, &[]),
            "line" => self.speak(id, text, out)?,
            "hear" => self.hear(id, out)?,
            "until" => self.await_status(id, text, out)?,
            _ => return Ok(false),
        }
        Ok(true)
    }

    /// Does a step, and writes what comes of it.
    fn step<E, W: Write>(
        &mut self,
        scope: &Scope<'s, E>,
        line: &str,
        out: &mut W,
    ) -> io::Result<()> {
        let (word, rest) = line.split_once(' ').unwrap_or((line, ""));
        if word == "start" {
            return self.start(scope, first(rest).0);
        }
        if word == "clients" {
            return self.run_clients(scope, rest, out);
        }
        if word == "speech" {
            return self.start_speech(scope, rest);
        }
        if word == "pause" {
            thread::sleep(self.rt, Duration::from_millis(first(rest).0));
            return Ok(());
        }
        if self.step_at_console(word, rest, out)?
            || self.step_of_client(word, rest, out)?
            || self.step_of_stranger(word, rest, out)?
            || self.step_of_start(word, rest, out)?
        {
            return Ok(());
        }
        self.step_of_files(word, rest, out)
    }

    /// Does these steps.
    fn do_steps<E, W: Write>(
        &mut self,
        scope: &Scope<'s, E>,
        steps: &[String],
        out: &mut W,
    ) -> io::Result<()> {
        for line in steps {
            self.step(scope, line.as_str(), out)?;
        }
        Ok(())
    }

    /// Does a step of a node that comes back, or of its journal. Whether it is one.
    fn step_of_start<W: Write>(&mut self, word: &str, rest: &str, out: &mut W) -> io::Result<bool> {
        match word {
            "again" => self.again(rest, out)?,
            "beginnings" => self.beginnings(rest, out)?,
            "foreign" => self.foreign(rest, out)?,
            "said" => self.tell_speech(rest, out)?,
            _ => return Ok(false),
        }
        Ok(true)
    }

    /// Removes the files of the doors of a node at Unix sockets.
    pub fn remove_doors(&self, id: u64) {
        let Some(part) = self.common.plan.parts.get(place_of(id)) else {
            return;
        };
        let door = part.door.as_str();
        if door.contains('/') {
            let _ = fs::remove_file(self.rt, door);
        }
        if let Some(path) = &part.console {
            let _ = fs::remove_file(self.rt, path.as_str());
        }
    }

    /// Has a node end, if it runs.
    fn end(&self, id: u64) {
        self.give(id, b"end\n");
        self.give(id, &[]);
        let _ = self.end_at_socket(id);
    }

    /// Does these steps, and then ends all nodes.
    pub fn play<E, W: Write>(
        mut self,
        scope: &Scope<'s, E>,
        steps: &[String],
        out: &mut W,
    ) -> io::Result<()> {
        let done = self.do_steps(scope, steps, out);
        for before in 0..self.places.len() {
            let id = (before as u64).saturating_add(1);
            self.end(id);
            self.remove_doors(id);
        }
        done
    }
}
