//! What happens to a world, and what it tells.

use sc_node::Ended;
use sc_view::Value;

/// What happens to a world.
#[derive(Clone, Copy, Debug, PartialEq, Eq)]
pub enum WorldEvent {
    /// A node with a new id enters.
    Enter(u64),
    /// A node leaves for good, and tells it.
    Leave(u64),
    /// A node stops for good, and tells nobody.
    Crash(u64),
    /// A node begins to store a value.
    Store { node: u64, value: Value },
    /// A node begins to collect.
    Collect(u64),
    /// A message that was sent, by its number, reaches a node.
    Deliver { message: usize, node: u64 },
}

/// The numbers of the messages that an event sent: so many, in turn from the first.
#[derive(Clone, Copy, Debug, PartialEq, Eq)]
pub struct Sent {
    /// The number of the first, from 0.
    pub first: usize,
    /// How many there are.
    pub count: usize,
}

/// What an accepted event tells.
#[derive(Drop)]
pub struct WorldStep {
    /// The tag of the operation that began.
    pub tag: Option<u64>,
    /// The operation that ended, with the view that it returned.
    pub ended: Option<Ended>,
    /// The messages that it sent.
    pub sent: Sent,
}
