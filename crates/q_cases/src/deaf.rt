//! A transport that hears nothing, or sends nothing, or fails to send.

use q_outside::{Transport, TransportFault};

/// A transport that hears nothing where it is deaf, sends nothing where it is mute, and fails at each send where it is
/// failing.
#[derive(Drop)]
pub struct Deaf<T> {
    pub inner: T,
    pub is_deaf: bool,
    pub is_mute: bool,
    pub is_failing: bool,
}

impl<T: Transport> Transport for Deaf<T> {
    ghost failed = { λ t. T.failed t.inner };

    fn send(&mut self, to: u64, bytes: &[u8]) -> Result<(), TransportFault> {
        if self.is_mute {
            return Ok(());
        }
        if self.is_failing {
            return Err(TransportFault::OutOfMemory);
        }
        self.inner.send(to, bytes)
    }

    fn receive(&mut self, into: &mut [u8]) -> Result<Option<usize>, TransportFault> {
        let received = self.inner.receive(into)?;
        Ok(if self.is_deaf { None } else { received })
    }

    fn failures(&self) -> u64 {
        self.inner.failures()
    }
}
