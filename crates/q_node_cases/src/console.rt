//! A node's console and output over mailboxes, by which the steps of a case speak with it.

use q_outside::{Hub, MemoryTransport, Transport};
use std::io;
use std::io::{ErrorKind, Read, Write};
use std::sync::Wait;
use std::time::Duration;

/// For how many milliseconds a mailbox is waited at.
const PATIENCE: u64 = 50;

/// How many mailboxes a node has.
pub const MAILBOXES: u64 = 3;

/// A mailbox of a node.
#[derive(Clone, Copy)]
pub enum Mailbox {
    /// Holds the lines of its console.
    Console,
    /// Holds what it printed.
    Printed,
    /// Holds its journal once it has ended.
    Journal,
}

/// The number of a mailbox of the node with this id.
pub fn number_of(id: u64, mailbox: Mailbox) -> u64 {
    let behind = match mailbox {
        Mailbox::Console => 2,
        Mailbox::Printed => 1,
        Mailbox::Journal => 0,
    };
    id.wrapping_mul(MAILBOXES).wrapping_sub(behind)
}

/// The end of a mailbox.
pub fn end_at<'a, R: Wait>(rt: &'a R, hub: &'a Hub, mailbox: u64) -> MemoryTransport<'a, R> {
    MemoryTransport::new(rt, hub, mailbox, Duration::from_millis(PATIENCE))
}

/// What comes at a mailbox, for as long as it takes. An empty datagram ends it.
#[derive(Drop)]
pub struct Console<'a, R: Wait> {
    pub rt: &'a R,
    pub end: MemoryTransport<'a, R>,
}

impl<R: Wait> Read for Console<'_, R> {
    fn read(&mut self, buf: &mut [u8]) -> io::Result<usize> {
        for _ in self.rt.forever() {
            match self.end.receive(buf) {
                Ok(Some(len)) => return Ok(len),
                Ok(None) => {}
                Err(_) => return Ok(0),
            }
        }
        unreachable!()
    }
}

/// Puts each write into a mailbox.
#[derive(Drop)]
pub struct Paper<'a, R: Wait> {
    pub end: MemoryTransport<'a, R>,
    /// The number of the mailbox.
    pub to: u64,
}

impl<R: Wait> Write for Paper<'_, R> {
    fn write(&mut self, buf: &[u8]) -> io::Result<usize> {
        match self.end.send(self.to, buf) {
            Ok(()) => Ok(buf.len()),
            Err(_) => Err(io::Error::from(ErrorKind::OutOfMemory)),
        }
    }

    fn flush(&mut self) -> io::Result<()> {
        Ok(())
    }
}
