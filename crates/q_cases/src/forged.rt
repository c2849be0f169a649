//! A transport over which a node hears, before all else, what nobody sent.

use q_outside::{Transport, TransportFault, put_at_start};
use std::alloc::{AllocError, Global};

/// The message by which node 99 leaves, in version 1: bytes that are no message to a node of version 2.
static NO_MESSAGE: [u8; 12] = [0x42, 0x51, 0x01, 5, 99, 0, 0, 0, 0, 0, 0, 0];

/// The same in version 2.
static LEAVE: [u8; 12] = [0x42, 0x51, 0x02, 5, 99, 0, 0, 0, 0, 0, 0, 0];

/// Gives these datagrams, the last one first, and then those of another transport.
#[derive(Drop)]
pub struct Forged<T> {
    pub inner: T,
    pub before: Vec<Vec<u8>>,
}

/// A message that no book takes: an answer to node 1, as it entered, of more ids than a book can keep beside its own.
fn too_many_ids(alloc: Global) -> Result<Vec<u8>, AllocError> {
    let mut bytes = Vec::from_slice(alloc, &[0x42, 0x51, 0x02, 2])?;
    bytes.extend_from_slice(&[1, 0, 0, 0, 0, 0, 0, 0])?;
    bytes.extend_from_slice(&[1, 0, 0, 0, 0, 0, 0, 0])?;
    bytes.extend_from_slice(&[0, 0, 4])?;
    for id in 1_000..2_024u64 {
        bytes.extend_from_slice(&id.to_le_bytes())?;
    }
    bytes.extend_from_slice(&[0; 6])?;
    Ok(bytes)
}

/// Puts a datagram behind others so many times.
fn add(
    alloc: Global,
    datagrams: &mut Vec<Vec<u8>>,
    count: u64,
    bytes: &[u8],
) -> Result<(), AllocError> {
    for _ in 0..count {
        datagrams.push(Vec::from_slice(alloc, bytes)?)?;
    }
    Ok(())
}

/// So many datagrams that spell no message, so many that no book takes, and so many of a message that was never sent.
pub fn datagrams(
    alloc: Global,
    spelling_none: u64,
    refused: u64,
    never_sent: u64,
) -> Result<Vec<Vec<u8>>, AllocError> {
    let too_many = too_many_ids(alloc)?;
    let mut datagrams = Vec::new(alloc);
    add(alloc, &mut datagrams, never_sent, &LEAVE)?;
    add(alloc, &mut datagrams, refused, too_many.as_slice())?;
    add(alloc, &mut datagrams, spelling_none, &NO_MESSAGE)?;
    Ok(datagrams)
}

impl<T: Transport> Transport for Forged<T> {
    ghost failed = { λ t. T.failed t.inner };

    fn send(&mut self, to: u64, bytes: &[u8]) -> Result<(), TransportFault> {
        self.inner.send(to, bytes)
    }

    fn receive(&mut self, into: &mut [u8]) -> Result<Option<usize>, TransportFault> {
        if let Some(bytes) = self.before.pop() {
            return Ok(Some(put_at_start(bytes.as_slice(), into)));
        }
        self.inner.receive(into)
    }

    fn failures(&self) -> u64 {
        self.inner.failures()
    }
}
