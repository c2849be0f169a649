//! Datagrams over memory, that threads share.

ghost use Rattle.std.specs.Prelude.{◌≡◌, ◌≢◌, ◌≤◌, ◌↔◌, ◌++◌, ◌∷◌, [], length, Err, IfErr, IfOk, IfSome, IsOk, IsSome, OnOk, OnErr, MatchOption};
ghost use Rattle.q_outside.specs.Counts.{one_fewer, transport_count};
ghost use Rattle.q_outside.specs.Peers.{HasMailbox};

use crate::fault::{TransportFault, is_to_fail};
use crate::transport::{Transport, count_failure, put_at_start};
use std::alloc::{AllocError, Global};
use std::collections::VecDeque;
use std::marker::Model;
use std::sync::{Condvar, Mutex, Wait};
use std::time::Duration;

/// What was sent to a node and what it did not receive yet. Contracts see the bytes of each datagram, in the order in
/// which they were sent.
#[derive(Drop)]
pub struct Mailbox {
    alloc: Global,
    waiting: VecDeque<Vec<u8>>,
}

impl Model for Mailbox {
    ghost use Rattle.std.specs.Prelude.{ℕ, List, map};

    ghost Value = { List (List ℕ) };

    ghost view = { λ mailbox. map (λ bytes. bytes.items) mailbox.waiting.items };
}

impl Mailbox {
    /// An empty one.
    pub fn new(alloc: Global) -> Mailbox
        ensures { result ≡ [] }
    {
        Mailbox {
            alloc,
            waiting: VecDeque::new(alloc),
        }
    }

    /// Puts a datagram behind those that wait.
    pub fn put(&mut self, bytes: &[u8]) -> Result<(), AllocError>
        ensures ok { OnOk result (self.new ≡ self.old ++ bytes.now ∷ []) }
        ensures err { OnErr result (self.new ≡ self.old) }
    {
        let bytes = Vec::from_slice(self.alloc, bytes)?;
        self.waiting.push_back(bytes)?;
        Ok(())
    }

    /// Takes the datagram that waits longest.
    pub fn take(&mut self) -> Option<Vec<u8>>
        ensures { MatchOption result ((self.old ≡ []) × (self.new ≡ [])) (λ bytes. self.old ≡ bytes.items ∷ self.new) }
    {
        self.waiting.pop_front()
    }
}

/// A mailbox with a lock of its own, and a bell that wakes whoever waits for a datagram there.
#[derive(Drop)]
struct Door {
    mailbox: Mutex<Mailbox>,
    bell: Condvar,
}

impl Door {
    /// An empty mailbox.
    fn new(alloc: Global) -> Door {
        Door {
            mailbox: Mutex::new(Mailbox::new(alloc)),
            bell: Condvar::new(),
        }
    }

    /// Puts a datagram behind those that wait, and rings.
    fn put<R: Wait>(&self, rt: &R, bytes: &[u8]) -> Result<(), AllocError> {
        self.mailbox.lock(rt).put(bytes)?;
        self.bell.notify_one();
        Ok(())
    }

    /// Takes the datagram that waits longest. Where none does it waits for one, no longer than so long.
    fn take<R: Wait>(&self, rt: &R, patience: Duration) -> Option<Vec<u8>> {
        let rung = self.bell.notifications();
        let taken = self.mailbox.lock(rt).take();
        if taken.is_some() || patience.is_zero() {
            return taken;
        }
        self.bell.sleep(rt, rung, patience);
        self.mailbox.lock(rt).take()
    }
}

/// A mailbox with a lock of its own for each of some nodes, which are counted from 1. Contracts see how many.
pub struct Hub {
    mailboxes: Vec<Door>,
}

impl Drop for Hub {
    // By hand, so that it is proved here alone, and not in each crate that drops one.
    fn drop(self) {
        let Hub { mailboxes: _ } = self;
    }
}

impl Model for Hub {
    ghost use Rattle.std.specs.Prelude.{ℕ, vec_len};

    ghost Value = { ℕ };

    ghost view = { λ hub. vec_len hub.mailboxes };
}

impl Hub {
    /// An empty mailbox for each of so many nodes.
    pub fn open(alloc: Global, nodes: u64) -> Result<Hub, AllocError>
        ensures { IfOk result (λ hub. hub ≡ nodes) }
    {
        let mut mailboxes = Vec::new(alloc);
        for _ in 0..nodes {
            mailboxes.push(Door::new(alloc))?;
        }
        Ok(Hub { mailboxes })
    }

    /// The mailbox of a node.
    fn mailbox(&self, node: u64) -> Option<&Door>
        ensures { IsSome result ↔ HasMailbox self.now node }
    {
        let place = node.checked_sub(1)?;
        self.mailboxes.get(place as usize)
    }
}

/// A node's end of a hub. A node that has no mailbox there hears nothing, and is told nothing: such calls fail. For
/// tests one of the calls may be made to fail, which then reaches no mailbox. No other call fails; a send may want
/// memory.
#[derive(Drop)]
pub struct MemoryTransport<'a, R: Wait> {
    rt: &'a R,
    patience: Duration,
    /// The mailboxes of all nodes.
    pub hub: &'a Hub,
    /// The node whose end it is.
    pub node: u64,
    /// How many calls failed so far.
    pub failures: u64,
    /// The number of the call that is to fail, counted from 1 for the next; 0 where none is.
    pub failing: u64,
}

impl<'a, R: Wait> MemoryTransport<'a, R> {
    /// The end of this node, with no call that is to fail. A call of `receive` waits no longer than so long for a
    /// datagram.
    pub fn new(rt: &'a R, hub: &'a Hub, node: u64, patience: Duration) -> Self
        ensures hub { result.hub.now ≡ hub.now }
        ensures node { result.node ≡ node }
        ensures failures { result.failures ≡ 0 }
        ensures failing { result.failing ≡ 0 }
    {
        MemoryTransport {
            rt,
            patience,
            hub,
            node,
            failures: 0,
            failing: 0,
        }
    }

    /// From now on the call with this number is to fail, counted from 1 for the next; with 0 none is.
    pub fn fail_at(&mut self, call: u64)
        ensures failing { self.new.failing ≡ call }
        ensures failures { self.new.failures ≡ self.old.failures }
        ensures hub { self.new.hub.now ≡ self.old.hub.now }
        ensures node { self.new.node ≡ self.old.node }
    {
        self.failing = call;
    }
}

impl<R: Wait> Transport for MemoryTransport<'_, R> {
    ghost failed = { λ t. t.failures };

    fn send(&mut self, to: u64, bytes: &[u8]) -> Result<(), TransportFault>
        ensures counted { self.new.failures ≡ transport_count result self.old.failures }
        ensures stranger { ¬ (HasMailbox self.old.hub.now to) → result ≡ Err TransportFault.Failed }
        ensures hub { self.new.hub.now ≡ self.old.hub.now }
        ensures node { self.new.node ≡ self.old.node }
        ensures failing { self.new.failing ≡ one_fewer self.old.failing }
        ensures fails { self.old.failing ≡ 1 → result ≡ Err TransportFault.Failed }
        ensures sends { self.old.failing ≢ 1 → HasMailbox self.old.hub.now to → IfErr result (λ e. e ≡ TransportFault.OutOfMemory) }
    {
        if is_to_fail(&mut self.failing) {
            return Err(count_failure(&mut self.failures));
        }
        let Some(mailbox) = self.hub.mailbox(to) else {
            return Err(count_failure(&mut self.failures));
        };
        mailbox.put(self.rt, bytes)?;
        Ok(())
    }

    fn receive(&mut self, into: &mut [u8]) -> Result<Option<usize>, TransportFault>
        ensures counted { self.new.failures ≡ transport_count result self.old.failures }
        ensures len { length into.new ≡ length into.old }
        ensures fits { IfOk result (λ got. IfSome got (λ n. n ≤ length into.new)) }
        ensures stranger { ¬ (HasMailbox self.old.hub.now self.old.node) → result ≡ Err TransportFault.Failed }
        ensures hub { self.new.hub.now ≡ self.old.hub.now }
        ensures node { self.new.node ≡ self.old.node }
        ensures failing { self.new.failing ≡ one_fewer self.old.failing }
        ensures fails { self.old.failing ≡ 1 → result ≡ Err TransportFault.Failed }
        ensures same_buffer { self.old.failing ≡ 1 → into.new ≡ into.old }
        ensures hears { self.old.failing ≢ 1 → HasMailbox self.old.hub.now self.old.node → IsOk result }
    {
        if is_to_fail(&mut self.failing) {
            return Err(count_failure(&mut self.failures));
        }
        let Some(mailbox) = self.hub.mailbox(self.node) else {
            return Err(count_failure(&mut self.failures));
        };
        let taken = mailbox.take(self.rt, self.patience);
        Ok(taken.map(|bytes| put_at_start(bytes.as_slice(), into)))
    }

    fn failures(&self) -> u64 {
        self.failures
    }
}
