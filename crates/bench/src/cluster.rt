//! A world under load.

use sc_members::Config;
use sc_view::{VALUE_LENGTH, Value};
use sc_world::{World, WorldEvent, WorldFault};
use std::alloc::Global;
use std::mem;

/// How many nodes are there.
const NODES: usize = 32;

/// All of them but the one that gives way to a node that enters.
const STAYING: usize = 31;

/// A world, and the nodes that are there and have joined.
#[derive(Drop)]
pub(crate) struct Cluster {
    world: World,
    nodes: Vec<u64>,
    /// The id of the next node that enters.
    next: u64,
}

/// The first of so many founders that stays.
fn first_staying(ids: u64) -> u64 {
    ids.saturating_sub(NODES as u64)
}

/// A value to store.
fn value(number: u64) -> Value {
    let mut value = [0; VALUE_LENGTH];
    value[..8].copy_from_slice(&number.to_le_bytes());
    Value::from(&value)
}

/// An event. Gives the number of the first message that it sent.
fn step(world: &mut World, event: WorldEvent) -> Result<Option<usize>, WorldFault> {
    let sent = world.step(event)?.sent;
    match sent.count {
        0 => Ok(None),
        _ => Ok(Some(sent.first)),
    }
}

/// A message reaches a node. Gives the number of the first message that the node sends then.
fn deliver(world: &mut World, message: usize, node: u64) -> Result<Option<usize>, WorldFault> {
    step(world, WorldEvent::Deliver { message, node })
}

impl Cluster {
    /// A cluster of so many founders, of which all but 32 are about to leave.
    pub(crate) fn new(alloc: Global, ids: u64) -> Result<Cluster, WorldFault> {
        let founders: Vec<u64> = (0..ids).collect(alloc)?;
        let nodes = (first_staying(ids)..ids).collect(alloc)?;
        Ok(Cluster {
            world: World::new(alloc, Config::default(), &founders)?,
            nodes,
            next: ids,
        })
    }

    /// Of so many founders all but 32 store and leave, and then the others store.
    pub(crate) fn begin(&mut self, ids: u64) -> Result<(), WorldFault> {
        for node in 0..first_staying(ids) {
            self.tell(WorldEvent::Store {
                node,
                value: value(node),
            })?;
            self.tell(WorldEvent::Leave(node))?;
        }
        for node in first_staying(ids)..ids {
            self.store(node)?;
        }
        Ok(())
    }

    /// So many rounds of load.
    pub(crate) fn rounds(&mut self, rounds: u64) -> Result<(), WorldFault> {
        for round in 0..rounds {
            self.load(round)?;
            if round % 4 == 3 {
                self.turn_over()?;
            }
        }
        Ok(())
    }

    /// In a round one node stores and one collects.
    fn load(&mut self, round: u64) -> Result<(), WorldFault> {
        let storer = (round % STAYING as u64) as usize;
        let collector = (storer + NODES / 2) % STAYING;
        if let Some(node) = self.nodes.get(storer).copied() {
            self.store(node)?;
        }
        if let Some(node) = self.nodes.get(collector).copied() {
            self.collect(node)?;
        }
        Ok(())
    }

    /// A node stores, until the store ends.
    fn store(&mut self, node: u64) -> Result<(), WorldFault> {
        let event = WorldEvent::Store {
            node,
            value: value(node),
        };
        if let Some(store) = step(&mut self.world, event)? {
            self.ask(node, store)?;
        }
        Ok(())
    }

    /// A node collects, until the collect ends.
    fn collect(&mut self, node: u64) -> Result<(), WorldFault> {
        let Some(query) = step(&mut self.world, WorldEvent::Collect(node))? else {
            return Ok(());
        };
        if let Some(store) = self.ask(node, query)? {
            self.ask(node, store)?;
        }
        Ok(())
    }

    /// A node enters and joins, and the one that entered before it leaves.
    fn turn_over(&mut self) -> Result<(), WorldFault> {
        let node = self.next;
        self.next = node.wrapping_add(1);
        self.enter(node)?;
        let Some(newest) = self.nodes.last_mut() else {
            return Ok(());
        };
        let left = mem::replace(newest, node);
        self.tell(WorldEvent::Leave(left))
    }

    /// A node enters and joins.
    fn enter(&mut self, node: u64) -> Result<(), WorldFault> {
        if let Some(enter) = step(&mut self.world, WorldEvent::Enter(node))? {
            if let Some(join) = self.ask(node, enter)? {
                self.spread(join)?;
            }
        }
        Ok(())
    }

    /// An event, of which all nodes are told.
    fn tell(&mut self, event: WorldEvent) -> Result<(), WorldFault> {
        match step(&mut self.world, event)? {
            Some(message) => self.spread(message),
            None => Ok(()),
        }
    }

    /// A message reaches each node.
    fn spread(&mut self, message: usize) -> Result<(), WorldFault> {
        for node in &self.nodes {
            deliver(&mut self.world, message, *node)?;
        }
        Ok(())
    }

    /// A message reaches each node, and the first message with which each answers reaches the one that asked. Gives
    /// the number of the message that this one sends in turn.
    fn ask(&mut self, asker: u64, message: usize) -> Result<Option<usize>, WorldFault> {
        let mut turn = None;
        for node in &self.nodes {
            if let Some(answer) = deliver(&mut self.world, message, *node)? {
                turn = deliver(&mut self.world, answer, asker)?.or(turn);
            }
        }
        Ok(turn)
    }
}

// What there is to count.
impl Cluster {
    /// Of how many nodes the first one's view has a value.
    pub(crate) fn ids(&self) -> usize {
        let first = self.nodes.first().copied();
        let node = first.and_then(|id| self.world.node(id));
        node.map_or(0, |node| node.view().len())
    }

    /// How many messages were delivered.
    pub(crate) fn deliveries(&self) -> usize {
        let events = self.world.events().iter();
        events
            .filter(|event| matches!(event, WorldEvent::Deliver { .. }))
            .count()
    }

    /// How many operations began.
    pub(crate) fn operations(&self) -> usize {
        self.world.ops().len()
    }

    /// How many operations ended.
    pub(crate) fn ended(&self) -> usize {
        self.world
            .ops()
            .iter()
            .filter(|op| op.end.is_some())
            .count()
    }
}
