//! What sends and receives datagrams.

ghost use Rattle.std.specs.Prelude.{◌≡◌, ◌≤◌, ◌++◌, ℕ, length, min, take, drop, IfOk, IfSome};
ghost use Rattle.q_outside.specs.Counts.{fault_count, transport_count};

use crate::fault::TransportFault;

/// A node's way to the others: datagrams, which may be lost, come again or in another order, be cut or forged.
pub trait Transport {
    // How many calls failed so far.
    ghost failed: { Self → ℕ };

    /// Sends a datagram to the node with this id. Refused with 86 where that fails, and with 99.
    fn send(&mut self, to: u64, bytes: &[u8]) -> Result<(), TransportFault>
        ensures { failed self.new ≡ transport_count result (failed self.old) };

    /// Puts the next datagram at the start of a buffer and gives its length, or none where none is there. What does not
    /// fit is lost. It may wait a while for one; for how long no clause says. Refused with 86 where that fails.
    fn receive(&mut self, into: &mut [u8]) -> Result<Option<usize>, TransportFault>
        ensures counted { failed self.new ≡ transport_count result (failed self.old) }
        ensures len { length into.new ≡ length into.old }
        ensures fits { IfOk result (λ got. IfSome got (λ n. n ≤ length into.new)) };

    /// How many calls failed so far, those that wanted memory aside. The count stays at its greatest value.
    fn failures(&self) -> u64
        ensures { result ≡ failed self.now };
}

/// Counts a call that failed: its refusal.
pub(crate) fn count_failure(failures: &mut u64) -> TransportFault
    ensures failed { result ≡ TransportFault.Failed }
    ensures counted { failures.new ≡ fault_count result failures.old }
{
    *failures = failures.saturating_add(1);
    TransportFault::Failed
}

/// Puts a datagram at the start of a buffer, as much of it as fits: how many bytes.
pub fn put_at_start(bytes: &[u8], into: &mut [u8]) -> usize
    ensures count { result ≡ min (length bytes.now) (length into.old) }
    ensures bytes { into.new ≡ take result bytes.now ++ drop result into.old }
{
    let len = bytes.len().min(into.len());
    into[..len].copy_from_slice(&bytes[..len]);
    len
}
