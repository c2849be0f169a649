//! Datagrams over UDP on loopback.

ghost use Rattle.std.specs.Prelude.{◌≡◌, ◌≤◌, ◌++◌, ◌∷◌, [], length, None, Err, IfOk, IfSome, OnOk, OnErr};
ghost use Rattle.q_outside.specs.Counts.{transport_count};
ghost use Rattle.q_outside.specs.Peers.{address_of};

use crate::fault::TransportFault;
use crate::transport::{Transport, count_failure};
use std::alloc::{AllocError, Global};
use std::io;
use std::io::ErrorKind;
use std::net::{Ipv4Addr, Net, SocketAddr, UdpSocket};
use std::time::Duration;

/// Where a node's socket is.
#[derive(Clone, Copy)]
pub struct Peer {
    /// The node's id.
    pub id: u64,
    /// The address of the node's socket.
    pub address: SocketAddr,
}

/// A node's socket.
#[derive(Drop)]
pub struct UdpTransport {
    socket: UdpSocket,
    /// Where others are, in the order in which that was told. Of two places of one node the first counts.
    pub peers: Vec<Peer>,
    /// How many calls failed so far.
    pub failures: u64,
}

/// From now on a read of a socket waits no longer than so long for a datagram, or not at all.
fn set_patience(socket: &UdpSocket, patience: Duration) -> io::Result<()> {
    if patience.is_zero() {
        socket.set_nonblocking(true)
    } else {
        socket.set_read_timeout(Some(patience))
    }
}

impl UdpTransport {
    /// A socket at a free port of loopback, which knows no peer yet. A call of `receive` waits no longer than so long
    /// for a datagram.
    pub fn open<R: Net>(rt: &R, alloc: Global, patience: Duration) -> io::Result<UdpTransport>
        ensures peers { IfOk result (λ t. t.peers.items ≡ []) }
        ensures failures { IfOk result (λ t. t.failures ≡ 0) }
    {
        let socket = UdpSocket::bind(rt, (Ipv4Addr::LOCALHOST, 0u16))?;
        set_patience(&socket, patience)?;
        Ok(UdpTransport {
            socket,
            peers: Vec::new(alloc),
            failures: 0,
        })
    }

    /// Where this socket is.
    pub fn address(&self) -> io::Result<SocketAddr> {
        self.socket.local_addr()
    }

    /// From now on datagrams to this node go to this address, if no other was told before.
    pub fn meet(&mut self, id: u64, address: SocketAddr) -> Result<(), AllocError>
        ensures ok { OnOk result (self.new.peers.items ≡ self.old.peers.items ++ record { id = id; address = address } ∷ []) }
        ensures err { OnErr result (self.new.peers.items ≡ self.old.peers.items) }
        ensures failures { self.new.failures ≡ self.old.failures }
    {
        self.peers.push(Peer { id, address })?;
        Ok(())
    }

    /// Where the node is.
    fn address_of(&self, id: u64) -> Option<SocketAddr>
        ensures { result ≡ address_of self.now.peers.items id }
    {
        let peer = self.peers.iter().find(|peer| peer.id == id)?;
        Some(peer.address)
    }
}

impl Transport for UdpTransport {
    ghost failed = { λ t. t.failures };

    fn send(&mut self, to: u64, bytes: &[u8]) -> Result<(), TransportFault>
        ensures counted { self.new.failures ≡ transport_count result self.old.failures }
        ensures unmet { address_of self.old.peers.items to ≡ None → result ≡ Err TransportFault.Failed }
        ensures peers { self.new.peers.items ≡ self.old.peers.items }
    {
        let Some(address) = self.address_of(to) else {
            return Err(count_failure(&mut self.failures));
        };
        match self.socket.send_to(bytes, address) {
            Ok(sent) if sent == bytes.len() => Ok(()),
            Ok(_) | Err(_) => Err(count_failure(&mut self.failures)),
        }
    }

    fn receive(&mut self, into: &mut [u8]) -> Result<Option<usize>, TransportFault>
        ensures counted { self.new.failures ≡ transport_count result self.old.failures }
        ensures len { length into.new ≡ length into.old }
        ensures fits { IfOk result (λ got. IfSome got (λ n. n ≤ length into.new)) }
        ensures peers { self.new.peers.items ≡ self.old.peers.items }
    {
        match self.socket.recv_from(into) {
            Ok((len, _)) => Ok(Some(len)),
            Err(error) => match error.kind() {
                ErrorKind::WouldBlock | ErrorKind::TimedOut | ErrorKind::Interrupted => Ok(None),
                _ => Err(count_failure(&mut self.failures)),
            },
        }
    }

    fn failures(&self) -> u64 {
        self.failures
    }
}
