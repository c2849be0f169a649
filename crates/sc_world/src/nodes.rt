//! The nodes of a world, by their ids.

ghost use Rattle.std.specs.Prelude.{◌≡◌, OnOk, OnErr, is_some, option_copied};
ghost use Rattle.std.specs.FinMap as fin;
ghost use Rattle.forms.specs.Calls.{Gives};
ghost use Rattle.reasons.specs.declared.Reason.TheVariants.{OutOfMemory as memory};
ghost use Rattle.sc_world.specs.Acts.{ActsAt};
ghost use Rattle.sc_world.specs.Worlds.{acted, by_live, live, founded_nodes};

use crate::act::{Act, Report, perform};
use crate::world::WorldFault;
use sc_members::Config;
use sc_msg::Message;
use sc_node::Node;
use std::alloc::{AllocError, Global};
use std::collections::BTreeMap;
use std::marker::Model;

/// The nodes that were ever there, by their ids.
#[derive(Drop)]
pub(crate) struct Nodes {
    entries: BTreeMap<u64, Node>,
}

impl Model for Nodes {
    ghost use Rattle.std.specs.FinMap as fin;
    ghost use Rattle.std.specs.Ordering.{nat_cmp};
    ghost use Rattle.std.specs.Coded.{coded_ℕ};
    ghost use Rattle.sc_node.specs.State.{NodeState};
    ghost use Rattle.sc_node.specs.contracts.node.Node as node;

    ghost Value = { fin.FinMap nat_cmp NodeState };

    ghost coded = { fin.code coded_ℕ node.the_row.coded };

    ghost view = { λ a. fin.from_entries a.entries.entries };
}

impl Nodes {
    pub(crate) fn new(alloc: Global) -> Nodes
        ensures { result ≡ fin.empty }
    {
        Nodes {
            entries: BTreeMap::new(alloc),
        }
    }

    /// The node of this id.
    pub(crate) fn get(&self, id: u64) -> Option<&Node>
        ensures { option_copied result ≡ fin.get self.now id }
    {
        self.entries.get(&id)
    }

    /// Some node has this id, or had it.
    pub(crate) fn has(&self, id: u64) -> bool
        ensures { result ≡ is_some (fin.get self.now id) }
    {
        self.entries.get(&id).is_some()
    }

    /// A node has this id, and has not left; unless it crashed.
    pub(crate) fn is_live(&self, crashed: bool, id: u64) -> bool
        ensures { result ≡ is_some (live crashed (fin.get self.now id)) }
    {
        match self.entries.get(&id) {
            Some(node) => !crashed && !node.is_gone(),
            None => false,
        }
    }

    /// At Err the nodes are as they were.
    pub(crate) fn insert(&mut self, id: u64, node: Node) -> Result<(), AllocError>
        ensures ok { OnOk result (self.new ≡ fin.insert self.old id node) }
        ensures err { OnErr result (self.new ≡ self.old) }
    {
        self.entries.insert(id, node)?;
        Ok(())
    }

    /// The node of this id acts, if it is there and did not crash. At Err the nodes are as they were.
    pub(crate) fn act(
        &mut self,
        crashed: bool,
        id: u64,
        act: &Act,
        sent: &[Message],
    ) -> Result<Report, WorldFault>
        ensures { ActsAt (by_live (live crashed (fin.get self.old id)) (acted sent.now act.now)) self.old self.new id result }
    {
        if !self.is_live(crashed, id) {
            return Err(WorldFault::NoSuchNode);
        }
        let Some(node) = self.entries.get_mut(&id) else {
            return Err(WorldFault::NoSuchNode);
        };
        perform(node, act, sent)
    }
}

/// The founders, each of whom has joined and knows all. Refused with 49 where their ids don't rise strictly or are
/// not 1 to 256.
pub(crate) fn found_nodes(
    alloc: Global,
    config: Config,
    founders: &[u64],
) -> Result<Nodes, WorldFault>
    ensures { Gives memory (founded_nodes config founders.now) result }
{
    if founders.is_empty() {
        return Err(WorldFault::BadFounders);
    }
    let mut nodes = Nodes::new(alloc);
    for id in founders {
        let node = Node::founder(alloc, config, *id, founders)?;
        nodes.insert(*id, node)?;
    }
    Ok(nodes)
}
