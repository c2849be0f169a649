//! A node's socket that loses and doubles datagrams, and counts those of strangers.

ghost use Rattle.std.specs.Prelude.{◌≡◌, length, IfOk};
ghost use Rattle.q_doors.specs.Datagrams.{Fits};

use q_doors::{Post, Received, UdpPost};
use q_outside::TransportFault;
use std::sync::atomic::AtomicU64;
use std::sync::atomic::Ordering::SeqCst;

/// A socket over UDP, whose datagrams are disturbed by a list of letters, in turn: `x` loses one, `2` sends it twice,
/// and any other sends it as it is. An empty list disturbs nothing.
#[derive(Drop)]
pub struct Disturbed<'a> {
    pub inner: UdpPost,
    pub letters: Vec<u8>,
    /// How many datagrams were sent.
    pub sent: AtomicU64,
    /// How many datagrams came from strangers.
    pub strangers: &'a AtomicU64,
}

impl Disturbed<'_> {
    /// The letter of the next datagram.
    fn next_letter(&self) -> u8 {
        let number = self.sent.fetch_add(1, SeqCst) as usize;
        let place = number.checked_rem(self.letters.len()).unwrap_or(0);
        *self.letters.get(place).unwrap_or(&b'.')
    }
}

impl Post for Disturbed<'_> {
    fn send(&self, to: u64, bytes: &[u8]) -> Result<(), TransportFault> {
        match self.next_letter() {
            b'x' => Ok(()),
            b'2' => {
                self.inner.send(to, bytes)?;
                self.inner.send(to, bytes)
            }
            _ => self.inner.send(to, bytes),
        }
    }

    fn send_all(&self, bytes: &[u8]) -> Result<(), TransportFault> {
        let mut sent = Ok(());
        for node in &self.inner.nodes {
            if let Err(fault) = self.send(node.id, bytes) {
                sent = Err(fault);
            }
        }
        sent
    }

    fn receive(&self, into: &mut [u8]) -> Result<Received, TransportFault> {
        let received = self.inner.receive(into)?;
        if received == Received::Stranger {
            self.strangers.fetch_add(1, SeqCst);
        }
        Ok(received)
    }
}
