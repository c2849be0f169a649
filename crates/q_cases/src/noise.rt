//! A transport that disturbs what is sent over another.

ghost use Rattle.std.specs.Prelude.{◌≡◌};

use q_outside::{Transport, TransportFault, put_at_start};
use std::alloc::{AllocError, Global};

/// Bytes that are no message.
static FORGED: [u8; 3] = [0x42, 0x51, 0x02];

/// More bytes than a message has, of which the first begin one.
static LONG: [u8; 60_001] = [0x42; 60_001];

/// A datagram that was lost on its way to a node.
#[derive(Drop)]
struct Lost {
    to: u64,
    bytes: Vec<u8>,
}

/// Disturbs datagrams by a list of letters, as if each were sent to all nodes in turn: the first letter is for the
/// first datagram to node 1, the next one for the first to node 2. `x` loses it, `o` loses it unless it lost the same
/// one before, `2` sends it twice, `c` sends a part of it before, `f` a forged one, `l` a long one and `e` an empty
/// one; any other sends it as it is. Of two that wait it gives the second one first. An empty list disturbs nothing.
#[derive(Drop)]
pub struct Noisy<'a, T> {
    inner: T,
    /// The same end, which does not wait for a datagram.
    at_once: T,
    alloc: Global,
    letters: &'a [u8],
    /// How many datagrams were sent to each node.
    sent: Vec<usize>,
    lost: Vec<Lost>,
    kept: Option<Vec<u8>>,
}

/// What is sent before a datagram.
fn sent_before(letter: u8, bytes: &[u8]) -> Option<&[u8]> {
    match letter {
        b'2' => Some(bytes),
        b'c' => Some(&bytes[..bytes.len() / 2]),
        b'f' => Some(&FORGED),
        b'l' => Some(&LONG),
        b'e' => Some(&[]),
        _ => None,
    }
}

impl<'a, T: Drop> Noisy<'a, T> {
    /// Disturbs by these letters what is sent over a transport to so many nodes. The second transport is the same end,
    /// which does not wait.
    pub fn new(
        alloc: Global,
        letters: &'a [u8],
        nodes: u64,
        inner: T,
        at_once: T,
    ) -> Result<Self, AllocError> {
        Ok(Noisy {
            inner,
            at_once,
            alloc,
            letters,
            sent: vec![in alloc; 0usize; nodes as usize]?,
            lost: Vec::new(alloc),
            kept: None,
        })
    }

    /// The letter of the next datagram to this node.
    fn next_letter(&mut self, to: u64) -> u8
        ensures { self.new.inner ≡ self.old.inner }
    {
        let nodes = self.sent.len();
        let place = to.saturating_sub(1) as usize;
        let Some(sent) = self.sent.get_mut(place) else {
            return b'.';
        };
        let index = sent.wrapping_mul(nodes).wrapping_add(place);
        *sent = sent.wrapping_add(1);
        let letter = index.checked_rem(self.letters.len()).unwrap_or(0);
        *self.letters.get(letter).unwrap_or(&b'.')
    }

    /// Whether a datagram is lost, which it is once.
    fn loses_once(&mut self, to: u64, bytes: &[u8]) -> Result<bool, AllocError>
        ensures { self.new.inner ≡ self.old.inner }
    {
        for lost in &self.lost {
            if lost.to == to && lost.bytes.as_slice() == bytes {
                return Ok(false);
            }
        }
        let bytes = Vec::from_slice(self.alloc, bytes)?;
        self.lost.push(Lost { to, bytes })?;
        Ok(true)
    }

    /// Whether a datagram with this letter is lost.
    fn loses(&mut self, letter: u8, to: u64, bytes: &[u8]) -> Result<bool, AllocError>
        ensures { self.new.inner ≡ self.old.inner }
    {
        match letter {
            b'x' => Ok(true),
            b'o' => self.loses_once(to, bytes),
            _ => Ok(false),
        }
    }
}

impl<T: Transport + Drop> Transport for Noisy<'_, T> {
    ghost failed = { λ t. T.failed t.inner };

    fn send(&mut self, to: u64, bytes: &[u8]) -> Result<(), TransportFault> {
        let letter = self.next_letter(to);
        if self.loses(letter, to, bytes)? {
            return Ok(());
        }
        if let Some(before) = sent_before(letter, bytes) {
            self.inner.send(to, before)?;
        }
        self.inner.send(to, bytes)
    }

    fn receive(&mut self, into: &mut [u8]) -> Result<Option<usize>, TransportFault> {
        if self.letters.is_empty() {
            return self.inner.receive(into);
        }
        if let Some(kept) = self.kept.take() {
            return Ok(Some(put_at_start(kept.as_slice(), into)));
        }
        let Some(len) = self.inner.receive(into)? else {
            return Ok(None);
        };
        let first = Vec::from_slice(self.alloc, &into[..len])?;
        if let Ok(Some(second)) = self.at_once.receive(into) {
            self.kept = Some(first);
            return Ok(Some(second));
        }
        Ok(Some(put_at_start(first.as_slice(), into)))
    }

    fn failures(&self) -> u64 {
        self.inner.failures()
    }
}

/// A transport whose every datagram comes after so many of a stranger's, to the same node, that are no message.
#[derive(Drop)]
pub struct Flooding<T> {
    pub inner: T,
    /// The stranger's end, which knows where the nodes are.
    pub stranger: T,
    pub many: u64,
}

/// Sends so many datagrams that are no message to a node. That one is not sent matters to nobody.
fn flood<T: Transport>(stranger: &mut T, to: u64, many: u64) {
    for _ in 0..many {
        let _ = stranger.send(to, &FORGED);
    }
}

impl<T: Transport> Transport for Flooding<T> {
    ghost failed = { λ t. T.failed t.inner };

    fn send(&mut self, to: u64, bytes: &[u8]) -> Result<(), TransportFault> {
        let many = self.many;
        flood(&mut self.stranger, to, many);
        self.inner.send(to, bytes)
    }

    fn receive(&mut self, into: &mut [u8]) -> Result<Option<usize>, TransportFault> {
        self.inner.receive(into)
    }

    fn failures(&self) -> u64 {
        self.inner.failures()
    }
}
