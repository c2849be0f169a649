//! A node's socket.

ghost use Rattle.std.specs.Prelude.{◌≡◌, ℕ, List, length, IfOk, ⊤};
ghost use Rattle.q_doors.specs.Datagrams.{Fits, OnMessage};

use q_outside::TransportFault;

/// What came at a node's socket.
#[derive(Clone, Copy, Debug, PartialEq, Eq)]
pub enum Received {
    /// A datagram of the cluster, from the address of the sender that its bytes name. Its message has so many bytes,
    /// and begins the buffer.
    Message(usize),
    /// A datagram from elsewhere, of another run, too short, or too long for the buffer. The buffer may hold its bytes.
    Stranger,
    /// None came in time.
    Nothing,
}

/// A node's socket, which its threads share. Datagrams may be lost, come again or in another order.
pub trait Post {
    // What is known of the bytes of each message that is heard.
    ghost knows: { Self → List ℕ → Type 0 } = { λ _ _. ⊤ };

    /// Sends a message's bytes to the node with this id. Refused with 86 where that fails or there is no such node, and
    /// with 99.
    fn send(&self, to: u64, bytes: &[u8]) -> Result<(), TransportFault>;

    /// Sends a message's bytes to each node of the cluster, this one too. Where that fails for one the others are sent
    /// to nevertheless, and it is refused with 86; with 99 nothing is sent.
    fn send_all(&self, bytes: &[u8]) -> Result<(), TransportFault>;

    /// Puts the message that the next datagram bears at the start of a buffer, which must be 9 bytes longer than the
    /// longest message. It may wait a while for one; for how long no clause says. Refused with 86 where that fails.
    fn receive(&self, into: &mut [u8]) -> Result<Received, TransportFault>
        ensures len { length into.new ≡ length into.old }
        ensures fits { IfOk result (Fits (length into.new)) }
        ensures known { IfOk result (OnMessage (knows self.now) into.new) };
}
