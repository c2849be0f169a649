//! A node's socket over UDP.

ghost use Rattle.std.specs.Prelude.{◌≡◌, ◌++◌, [], None, Err, length, IfOk, OnOk, OnErr};
ghost use Rattle.q_doors.specs.Datagrams.{Fits, IsFrom, OnMessage, address_of};

use crate::datagram::{address_of, framed, received};
use crate::fault::PostFault;
use crate::post::{Post, Received};
use q_outside::TransportFault;
use q_script::{ClusterFile, NodeLine};
use std::alloc::{AllocError, Global};
use std::io;
use std::io::ErrorKind;
use std::net::{Net, SocketAddr, UdpSocket};
use std::time::Duration;

/// A node's socket.
#[derive(Drop)]
pub struct UdpPost {
    alloc: Global,
    socket: UdpSocket,
    /// The number of the run: datagrams of another are strangers'.
    pub number: u64,
    /// Where the nodes are. Of two lines with one id the first counts.
    pub nodes: Vec<NodeLine>,
}

impl UdpPost {
    /// A socket at this address, which knows no node yet. A call of `receive` waits no longer than so long for a
    /// datagram, and if that is nothing, fails.
    pub fn bind<R: Net>(
        rt: &R,
        alloc: Global,
        at: SocketAddr,
        number: u64,
        patience: Duration,
    ) -> io::Result<UdpPost>
        ensures number { IfOk result (λ post. post.number ≡ number) }
        ensures nodes { IfOk result (λ post. post.nodes.items ≡ []) }
    {
        let socket = UdpSocket::bind(rt, at)?;
        socket.set_read_timeout(Some(patience))?;
        Ok(UdpPost {
            alloc,
            socket,
            number,
            nodes: Vec::new(alloc),
        })
    }

    /// The socket of the node with this id, at the address that the file has for it. It knows all nodes of the file.
    /// The fault says whether the address is in use, or not one of this machine's.
    pub fn open<R: Net>(
        rt: &R,
        alloc: Global,
        file: &ClusterFile,
        id: u64,
        patience: Duration,
    ) -> Result<UdpPost, PostFault>
        ensures number { IfOk result (λ post. post.number ≡ file.now.number) }
        ensures nodes { IfOk result (λ post. post.nodes.items ≡ file.now.nodes.items) }
        ensures unknown { address_of file.now.nodes.items id ≡ None → result ≡ Err PostFault.NoSuchNode }
    {
        let Some(at) = address_of(&file.nodes, id) else {
            return Err(PostFault::NoSuchNode);
        };
        let mut post = match UdpPost::bind(rt, alloc, at, file.number, patience) {
            Ok(post) => post,
            Err(error) => return Err(PostFault::of_kind(error.kind())),
        };
        post.meet(&file.nodes)?;
        Ok(post)
    }

    /// Where this socket is.
    pub fn address(&self) -> io::Result<SocketAddr> {
        self.socket.local_addr()
    }

    /// From now on these nodes are known too.
    pub fn meet(&mut self, nodes: &[NodeLine]) -> Result<(), AllocError>
        ensures met { OnOk result (self.new.nodes.items ≡ self.old.nodes.items ++ nodes.now) }
        ensures unmet { OnErr result (self.new.nodes.items ≡ self.old.nodes.items) }
        ensures number { self.new.number ≡ self.old.number }
    {
        self.nodes.extend_from_slice(nodes)
    }

    /// Sends a datagram to this address.
    fn send_to(&self, address: SocketAddr, datagram: &[u8]) -> Result<(), TransportFault> {
        match self.socket.send_to(datagram, address) {
            Ok(sent) if sent == datagram.len() => Ok(()),
            Ok(_) | Err(_) => Err(TransportFault::Failed),
        }
    }
}

impl Post for UdpPost {
    ghost knows = { λ post bytes. IsFrom post.nodes.items bytes };

    fn send(&self, to: u64, bytes: &[u8]) -> Result<(), TransportFault>
        ensures unknown { address_of self.now.nodes.items to ≡ None → result ≡ Err TransportFault.Failed }
    {
        let Some(address) = address_of(&self.nodes, to) else {
            return Err(TransportFault::Failed);
        };
        let datagram = framed(self.alloc, self.number, bytes)?;
        self.send_to(address, &datagram)
    }

    fn send_all(&self, bytes: &[u8]) -> Result<(), TransportFault> {
        let datagram = framed(self.alloc, self.number, bytes)?;
        let mut sent = Ok(());
        for node in &self.nodes {
            if let Err(fault) = self.send_to(node.address, &datagram) {
                sent = Err(fault);
            }
        }
        sent
    }

    fn receive(&self, into: &mut [u8]) -> Result<Received, TransportFault>
        ensures len { length into.new ≡ length into.old }
        ensures fits { IfOk result (Fits (length into.new)) }
        ensures known { IfOk result (OnMessage (IsFrom self.now.nodes.items) into.new) }
    {
        match self.socket.recv_from(into) {
            Ok((len, from)) => Ok(received(self.number, &self.nodes, from, len, into)),
            Err(error) => match error.kind() {
                ErrorKind::WouldBlock | ErrorKind::TimedOut | ErrorKind::Interrupted => {
                    Ok(Received::Nothing)
                }
                _ => Err(TransportFault::Failed),
            },
        }
    }
}
