//! Datagrams: the number of a cluster's run, and a message's bytes.

ghost use Rattle.std.specs.Prelude.{◌≡◌, ◌≢◌, ◌≤◌, ◌<◌, ◌^◌, ℕ, List, Some, length, IfOk, MatchOption, SomeIff};
ghost use Rattle.std.specs.declared.net.socket_addr.SocketAddr.{SocketAddr as Address};
ghost use Rattle.sc_msg.specs.declared.version.Version.{Version};
ghost use Rattle.sc_msg.specs.declared.message.Message.{Message};
ghost use Rattle.sc_msg.specs.Messages.{message_bytes};
ghost use Rattle.q_script.specs.declared.node_line.NodeLine.{NodeLine as Node};
ghost use Rattle.q_doors.specs.Datagrams.{IsAdmitted, IsReceived, address_of, framed, sender_in};

use crate::post::Received;
use byteorder::{ByteOrder, LittleEndian};
use q_script::NodeLine;
use std::alloc::{AllocError, Global};
use std::net::SocketAddr;

/// How many bytes stand before those of the message.
pub const FRONT: usize = 8;

/// The datagram with this message's bytes, of the run with this number.
pub fn framed(alloc: Global, number: u64, message: &[u8]) -> Result<Vec<u8>, AllocError>
    ensures { IfOk result (λ datagram. datagram.items ≡ framed number message.now) }
{
    let mut datagram = Vec::from_slice(alloc, &number.to_le_bytes())?;
    datagram.extend_from_slice(message)?;
    Ok(datagram)
}

/// Where the socket of the node with this id is.
pub fn address_of(nodes: &[NodeLine], id: u64) -> Option<SocketAddr>
    ensures { result ≡ address_of nodes.now id }
{
    let node = nodes.iter().find(|node| node.id == id)?;
    Some(node.address)
}

/// What stands behind the number of a run.
fn behind_number(number: u64, datagram: &[u8]) -> Option<&[u8]>
    ensures { MatchOption result ((m : List ℕ) → datagram.now ≡ framed number m → ⊥) (λ m. datagram.now ≡ framed number m.now) }
{
    datagram.strip_prefix(&number.to_le_bytes())
}

/// The sender that a message's bytes name, in either version.
pub fn sender(message: &[u8]) -> Option<u64>
    ensures { SomeIff result (12 ≤ length message.now) (sender_in message.now) }
{
    if message.len() < 12 {
        return None;
    }
    Some(LittleEndian::read_u64(&message[4..]))
}

/// The message's bytes in a datagram that came from this address: none where it is a stranger's. It is heard where it
/// begins with the number of the run, and the file has this address for the sender that the message's bytes name.
pub fn admitted<'d>(
    number: u64,
    nodes: &[NodeLine],
    from: SocketAddr,
    datagram: &'d [u8],
) -> Option<&'d [u8]>
    ensures { MatchOption result ((m : List ℕ) → IsAdmitted number nodes.now from datagram.now m → ⊥) (λ m. IsAdmitted number nodes.now from datagram.now m.now) }
{
    let message = behind_number(number, datagram)?;
    let id = sender(message)?;
    let address = address_of(nodes, id)?;
    if address != from {
        return None;
    }
    Some(message)
}

/// Judges the datagram that fills so many bytes of a buffer from its start, and came from this address. Where it is
/// heard its message is moved to the start. A datagram that fills the buffer may have been cut, and is a stranger's.
pub fn received(
    number: u64,
    nodes: &[NodeLine],
    from: SocketAddr,
    len: usize,
    into: &mut [u8],
) -> Received
    requires { len ≤ length into.old }
    ensures judged { IsReceived number nodes.now from len into.old into.new result }
    ensures len { length into.new ≡ length into.old }
{
    if len == into.len() {
        return Received::Stranger;
    }
    let datagram = &mut into[..len];
    let Some(message) = admitted(number, nodes, from, datagram) else {
        return Received::Stranger;
    };
    let count = message.len();
    datagram.rotate_left(FRONT);
    Received::Message(count)
}

/// A law: the bytes of a message name its sender, in either version.
pub fn messages_name_their_sender()
    ensures { (v : Version) (m : Message) → m.from < 2 ^ 64 → sender_in (message_bytes v m) ≡ m.from }
{}

/// A law: what a node of the file sends from its address is heard as it was sent.
pub fn nodes_are_heard()
    ensures { (number : ℕ) (nodes : List Node) (from : Address) (v : Version) (m : Message) → m.from < 2 ^ 64 → address_of nodes m.from ≡ Some from → IsAdmitted number nodes from (framed number (message_bytes v m)) (message_bytes v m) }
{}

/// A law: what a run with another number sends is not heard.
pub fn other_runs_are_not_heard()
    ensures { (number other : ℕ) (nodes : List Node) (from : Address) (sent heard : List ℕ) → number < 2 ^ 64 → other < 2 ^ 64 → other ≢ number → IsAdmitted number nodes from (framed other sent) heard → ⊥ }
{}
