//! Datagrams that no node sent.

use crate::clients::bytes_of;
use crate::plan::first;
use crate::sockets::NUMBER;
use crate::stage::{LOOKS, NAP, Stage, place_of};
use q_doors::{Post, UdpPost};
use std::fs::Files;
use std::io::{Eprint, Write};
use std::net::{Net, TcpListener, TcpStream};
use std::sync::Wait;
use std::sync::atomic::Ordering::SeqCst;
use std::thread::Threads;
use std::time::{Clock, Duration};
use std::{io, thread};

/// Sends bytes to a node from a socket, behind this number of a run. Whether they were sent.
fn send_as(post: &mut UdpPost, number: u64, to: u64, bytes: &[u8]) -> bool {
    post.number = number;
    let sent = post.send(to, bytes).is_ok();
    post.number = NUMBER;
    sent
}

impl<'s, R> Stage<'s, R>
where
    R: Net<Listener = TcpListener, Stream = TcpStream> + Sync,
    R: Files + Wait + Threads + Clock + Eprint,
{
    /// The socket of a node that was not started, or that of the stranger.
    fn socket(&mut self, id: u64) -> &mut UdpPost {
        match self.roles.get_mut(place_of(id)) {
            Some(Some(role)) => &mut role.post.inner,
            _ => &mut self.stranger,
        }
    }

    /// Sends bytes to a node.
    fn forge<W: Write>(&mut self, words: &str, out: &mut W) -> io::Result<()> {
        let alloc = self.alloc;
        let (from, rest) = first(words);
        let (number, rest) = first(rest);
        let (to, text) = first(rest);
        let bytes = bytes_of(alloc, text)?;
        if !send_as(self.socket(from), number, to, bytes.as_slice()) {
            writeln!(out, "not sent")?;
        }
        Ok(())
    }

    /// Waits until a node was sent so many datagrams of strangers, and writes how many it was sent.
    fn count_strangers<W: Write>(&self, words: &str, out: &mut W) -> io::Result<()> {
        let (id, rest) = first(words);
        let wanted = first(rest).0;
        let Some(strangers) = self.common.strangers.get(place_of(id)) else {
            return writeln!(out, "no node {id}");
        };
        for _ in 0..LOOKS {
            if strangers.load(SeqCst) >= wanted {
                break;
            }
            thread::sleep(self.rt, Duration::from_millis(NAP));
        }
        let strangers = strangers.load(SeqCst);
        writeln!(out, "{id}: {strangers} from strangers")
    }

    /// Does a step of a stranger. Whether it is one.
    pub fn step_of_stranger<W: Write>(
        &mut self,
        word: &str,
        rest: &str,
        out: &mut W,
    ) -> io::Result<bool> {
        match word {
            "forge" => self.forge(rest, out)?,
            "strangers" => self.count_strangers(rest, out)?,
            _ => return Ok(false),
        }
        Ok(true)
    }
}
