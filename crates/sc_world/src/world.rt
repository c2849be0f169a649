//! A world: what each event makes of it, and what its history is.

ghost use Rattle.std.specs.Prelude.{◌≡◌, length, None, IfOk, slice_get, option_copied};
ghost use Rattle.std.specs.FinMap as fin;
ghost use Rattle.forms.specs.Calls.{Steps, Gives};
ghost use Rattle.reasons.specs.declared.Reason.TheVariants.{OutOfMemory as memory};
ghost use Rattle.sc_world.specs.Acts.{answered_at, begun_in, IsReady};
ghost use Rattle.sc_world.specs.Worlds.{enters, crashes, live_at, event_of, stepped, started, tag_of, IsHistory};
ghost use Rattle.sc_world.specs.Records.{AreRecords};
ghost use Rattle.sc_world.specs.Regular.{IsRegular};

use crate::act::{Act, Report};
use crate::counting::Counting;
use crate::event::{Sent, WorldEvent, WorldStep};
use crate::ledger::Ledger;
use crate::nodes::{Nodes, found_nodes};
use crate::op::Op;
use crate::op_change::OpChange;
use reasons::Reason;
use sc_members::Config;
use sc_msg::Message;
use sc_node::Node;
use std::alloc::{AllocError, Global};
use std::marker::Model;

/// Why an event is refused. After a refusal the world is as it was. Where several hold, the first of these is told:
/// 44 IdUsed, 81 NoSuchNode, 82 NeverSent, and those of the node; 49 BadFounders is that of [`World::new`].
pub type WorldFault = Reason;

/// The nodes of a store-collect object, the list of accepted events, every message that was ever sent, and the
/// record of each operation.
pub struct World {
    alloc: Global,
    nodes: Nodes,
    ledger: Ledger,
}

impl Drop for World {
    // By hand, so that it is proved here alone, and not in each crate that drops one.
    fn drop(self) {
        let World {
            alloc: _,
            nodes: _,
            ledger: _,
        } = self;
    }
}

impl Model for World {
    ghost use Rattle.std.specs.Coded.{codes, coded_ℕ};
    ghost use Rattle.std.specs.Ordering.{nat_cmp};
    ghost use Rattle.std.specs.FinMap as fin;
    ghost use Rattle.sc_members.specs.Ids.{ids_code};
    ghost use Rattle.sc_msg.specs.contracts.message.Message as message;
    ghost use Rattle.sc_node.specs.contracts.node.Node as node;
    ghost use Rattle.sc_world.specs.State.{WorldState, world_of};
    ghost use Rattle.sc_world.specs.Worlds.{IsHistory};
    ghost use Rattle.sc_world.specs.contracts.event.WorldEvent as event;
    ghost use Rattle.sc_world.specs.contracts.op.Op as op;

    ghost Value = { WorldState };

    ghost coded = { Prim.hlevel (codes, ids_code, fin.code {R = nat_cmp} coded_ℕ node.the_row.coded, event.the_row.coded, message.the_row.coded, op.the_row.coded) };

    ghost view = { λ a. world_of a.nodes a.ledger.past };

    ghost invariant = { λ a. IsHistory (world_of a.nodes a.ledger.past) };
}

impl World {
    /// The world of these founders, before any event. Their ids rise strictly and are 1 to 256, or it is refused
    /// with 49; else 99.
    pub fn new(alloc: Global, config: Config, founders: &[u64]) -> Result<World, WorldFault>
        ensures { Gives memory (started config founders.now) result }
    {
        let nodes = found_nodes(alloc, config, founders)?;
        let ledger = Ledger::new(alloc, config, founders)?;
        Ok(World {
            alloc,
            nodes,
            ledger,
        })
    }

    /// Takes an event, or refuses it: with 44, or with 81, 82 and then the node's refusal, in this order.
    pub fn step(&mut self, event: WorldEvent) -> Result<WorldStep, WorldFault>
        ensures { Steps memory (stepped self.old event) self.old self.new result }
    {
        match event {
            WorldEvent::Enter(id) => self.enter(id),
            WorldEvent::Leave(id) => self.act(id, &Act::Leave),
            WorldEvent::Crash(id) => self.crash(id),
            WorldEvent::Store { node, value } => self.act(node, &Act::Store(value)),
            WorldEvent::Collect(id) => self.act(id, &Act::Collect),
            WorldEvent::Deliver { message, node } => self.act(node, &Act::Deliver(message)),
        }
    }

    /// The record of each operation, in the order in which they began: one for each accepted event that began one. The
    /// views are regular, and what the records say is true.
    pub fn ops(&self) -> &[Op]
        ensures ops { result.now ≡ self.now.ops }
        ensures regular { IsRegular self.now }
        ensures records { AreRecords self.now }
    {
        self.ledger.ops()
    }

    /// The accepted events.
    pub fn events(&self) -> &[WorldEvent]
        ensures events { result.now ≡ self.now.events }
        ensures history { IsHistory self.now }
    {
        self.ledger.events()
    }

    /// How many messages were sent: the number of the next one.
    pub fn sent(&self) -> usize
        ensures { result ≡ length self.now.sent }
    {
        self.ledger.sent().len()
    }

    /// The message of that number, which counts from 0.
    pub fn message(&self, number: usize) -> Option<&Message>
        ensures { option_copied result ≡ slice_get self.now.sent number }
    {
        self.ledger.sent().get(number)
    }

    /// The node of this id, where it is there: it has neither left nor crashed.
    pub fn live(&self, id: u64) -> Option<&Node>
        ensures { option_copied result ≡ live_at self.now id }
    {
        if self.ledger.has_crashed(id) {
            return None;
        }
        let node = self.nodes.get(id)?;
        if node.is_gone() { None } else { Some(node) }
    }

    /// The node of this id, also where it has left or crashed.
    pub fn node(&self, id: u64) -> Option<&Node>
        ensures { option_copied result ≡ fin.get self.now.nodes id }
    {
        self.nodes.get(id)
    }
}

impl World {
    /// A new node enters.
    fn enter(&mut self, id: u64) -> Result<WorldStep, WorldFault>
        ensures { Steps memory (enters self.old id (fin.get self.old.nodes id)) self.old self.new result }
    {
        if self.nodes.has(id) {
            return Err(WorldFault::IdUsed);
        }
        self.ledger.reserve(id)?;
        let (node, outs) = Node::entering(self.alloc, self.ledger.config(), id)?;
        self.nodes.insert(id, node)?;
        let sent = self
            .ledger
            .record(WorldEvent::Enter(id), id, outs, OpChange::Nothing, None);
        Ok(WorldStep {
            tag: None,
            ended: None,
            sent,
        })
    }

    /// A node that is there stops.
    fn crash(&mut self, id: u64) -> Result<WorldStep, WorldFault>
        ensures { Steps memory (crashes self.old id (live_at self.old id)) self.old self.new result }
    {
        if !self.nodes.is_live(self.ledger.has_crashed(id), id) {
            return Err(WorldFault::NoSuchNode);
        }
        let sent = self.ledger.crash(id)?;
        Ok(silent(sent))
    }

    /// A node that is there acts.
    fn act(&mut self, id: u64, act: &Act) -> Result<WorldStep, WorldFault>
        ensures { Steps memory (stepped self.old (event_of id act.now)) self.old self.new result }
    {
        self.ledger.reserve(id)?;
        let ready = find(&self.ledger, id, act)?;
        let crashed = self.ledger.has_crashed(id);
        let Report {
            outs,
            change,
            ended,
        } = self.nodes.act(crashed, id, act, self.ledger.sent())?;
        let tag = tag_of(&change);
        let sent = self
            .ledger
            .record(event_of(id, act), id, outs, change, ready);
        Ok(WorldStep { tag, ended, sent })
    }
}

/// What the record of an operation needs, should the act of this node move it.
fn find(ledger: &Ledger, id: u64, act: &Act) -> Result<Option<Counting>, AllocError>
    ensures { IfOk result (IsReady ledger.now.past.ops id (answered_at id ledger.now.past.sent act.now)) }
{
    let Act::Deliver(number) = act else {
        return Ok(None);
    };
    let Some(message) = ledger.sent().get(*number) else {
        return Ok(None);
    };
    ledger.find(id, message)
}

/// The tag of the operation that begins.
fn tag_of(change: &OpChange) -> Option<u64>
    ensures { result ≡ tag_of (begun_in change.now) }
{
    match change {
        OpChange::Begins(begun) => Some(begun.tag),
        OpChange::Nothing | OpChange::Moves(_) => None,
    }
}

/// What an event tells that begins, ends and sends nothing.
fn silent(sent: Sent) -> WorldStep
    ensures { result ≡ record { tag = None; ended = None; sent = sent } }
{
    WorldStep {
        tag: None,
        ended: None,
        sent,
    }
}

/// The event at which a node so acts.
fn event_of(id: u64, act: &Act) -> WorldEvent
    ensures { result ≡ event_of id act.now }
{
    match act {
        Act::Leave => WorldEvent::Leave(id),
        Act::Store(value) => WorldEvent::Store {
            node: id,
            value: *value,
        },
        Act::Collect => WorldEvent::Collect(id),
        Act::Deliver(message) => WorldEvent::Deliver {
            message: *message,
            node: id,
        },
    }
}
