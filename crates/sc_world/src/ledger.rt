//! What a world keeps beside its nodes: which of them crashed, the accepted events, every message that was ever sent
//! and the record of each operation.

ghost use Rattle.std.specs.Prelude.{◌≡◌, ◌++◌, length, true, IfOk, OnOk, OnErr, vec_len, vec_capacity, ◌<◌};
ghost use Rattle.std.specs.FinSet as set;
ghost use Rattle.sc_world.specs.Acts.{answered, begun_in, progress_in, moved_at, Fits, IsReady};
ghost use Rattle.sc_world.specs.Ledgers.{first, recorded, numbered, stopped, IsRight};
ghost use Rattle.sc_world.specs.Worlds.{op_begun};

use crate::act::BegunOp;
use crate::counting::{Counting, make_ready, move_op};
use crate::event::{Sent, WorldEvent};
use crate::op::Op;
use crate::op_change::OpChange;
use crate::op_index::OpIndex;
use sc_members::{Config, IdSet};
use sc_msg::Message;
use sc_node::Outs;
use std::alloc::{AllocError, Global};
use std::marker::Model;

/// What is kept of every event, beside the nodes.
pub struct Ledger {
    alloc: Global,
    config: Config,
    founders: Vec<u64>,
    crashed: IdSet,
    events: Vec<WorldEvent>,
    sent: Vec<Message>,
    ops: Vec<Op>,
    places: OpIndex,
}

impl Drop for Ledger {
    // By hand, so that it is proved here alone, and not in each crate that drops one.
    fn drop(self) {
        let Ledger {
            alloc: _,
            config: _,
            founders: _,
            crashed: _,
            events: _,
            sent: _,
            ops: _,
            places: _,
        } = self;
    }
}

impl Model for Ledger {
    ghost use Rattle.std.specs.Prelude.{vec_len, vec_capacity};
    ghost use Rattle.std.specs.Coded.{codes};
    ghost use Rattle.sc_members.specs.Ids.{ids_code};
    ghost use Rattle.sc_msg.specs.contracts.message.Message as message;
    ghost use Rattle.sc_world.specs.State.{LedgerState};
    ghost use Rattle.sc_world.specs.Ledgers.{has_room};
    ghost use Rattle.sc_world.specs.contracts.event.WorldEvent as event;
    ghost use Rattle.sc_world.specs.contracts.op.Op as op;

    ghost Value = { LedgerState };

    ghost coded = { Prim.hlevel (codes, ids_code, event.the_row.coded, message.the_row.coded, op.the_row.coded) };

    ghost view = { λ a. record { past = record { config = a.config; founders = a.founders.items; crashed = a.crashed; events = a.events.items; sent = a.sent.items; ops = a.ops.items }; room = has_room (vec_len a.events) (vec_capacity a.events) (vec_len a.sent) (vec_capacity a.sent) (vec_len a.ops) (vec_capacity a.ops) } };
}

impl Ledger {
    /// The ledger of these founders, before any event.
    pub fn new(alloc: Global, config: Config, founders: &[u64]) -> Result<Ledger, AllocError>
        ensures { IfOk result (λ ledger. ledger.past ≡ first config founders.now) }
    {
        let founders = Vec::from_slice(alloc, founders)?;
        Ok(Ledger {
            alloc,
            config,
            founders,
            crashed: IdSet::new(alloc),
            events: Vec::new(alloc),
            sent: Vec::new(alloc),
            ops: Vec::new(alloc),
            places: OpIndex::new(alloc),
        })
    }

    /// Makes room to record what this node does.
    pub fn reserve(&mut self, node: u64) -> Result<(), AllocError>
        ensures past { self.new.past ≡ self.old.past }
        ensures room { OnOk result (self.new.room ≡ true) }
    {
        self.events.reserve(1)?;
        self.sent.reserve(2)?;
        self.ops.reserve(1)?;
        self.places.reserve(node)?;
        Ok(())
    }

    /// Makes ready what the record of an operation needs, should this message move it as it reaches the node.
    pub fn find(&self, node: u64, message: &Message) -> Result<Option<Counting>, AllocError>
        ensures { IfOk result (IsReady self.now.past.ops node (answered node message.now.from message.now.body)) }
    {
        make_ready(&self.ops, &self.places, node, message)
    }

    /// Records an event at which this node sends, and what it does to the node's operations: there is room for it, and
    /// what it needs is ready. Takes no memory.
    pub fn record(
        &mut self,
        event: WorldEvent,
        node: u64,
        outs: Outs,
        change: OpChange,
        ready: Option<Counting>,
    ) -> Sent
        requires room { self.old.room ≡ true }
        requires ready { IsRight self.old.past.ops node (length self.old.past.events) (progress_in change) ready }
        ensures past { self.new.past ≡ recorded self.old.past event node outs (progress_in change) (begun_in change) }
        ensures sent { result ≡ numbered self.old.past outs }
    {
        let place = self.events.len();
        let sent = Sent {
            first: self.sent.len(),
            count: outs.len(),
        };
        if let OpChange::Begins(_) = &change {
            self.places.push(node, self.ops.len());
        }
        change_ops(self.alloc, &mut self.ops, node, place, change, ready);
        outs.append_to(&mut self.sent);
        self.events.push_reserved(event);
        sent
    }

    /// Records that a node stopped. At Err nothing is recorded.
    pub fn crash(&mut self, id: u64) -> Result<Sent, AllocError>
        ensures ok { IfOk result (λ sent. (self.new.past ≡ stopped self.old.past id) × (sent ≡ record { first = length self.old.past.sent; count = 0 })) }
        ensures err { OnErr result (self.new.past ≡ self.old.past) }
    {
        self.events.reserve(1)?;
        self.crashed.insert(id)?;
        self.events.push_reserved(WorldEvent::Crash(id));
        Ok(self.silent())
    }

    /// The numbers of no messages.
    pub fn silent(&self) -> Sent
        ensures { result ≡ record { first = length self.now.past.sent; count = 0 } }
    {
        Sent {
            first: self.sent.len(),
            count: 0,
        }
    }

    /// The fractions that set the nodes' thresholds.
    pub fn config(&self) -> Config
        ensures { result ≡ self.now.past.config }
    {
        self.config
    }

    /// The ids of the founders.
    pub fn founders(&self) -> &[u64]
        ensures { result.now ≡ self.now.past.founders }
    {
        &self.founders
    }

    /// Whether the node of this id crashed.
    pub fn has_crashed(&self, id: u64) -> bool
        ensures { result ≡ set.contains self.now.past.crashed id }
    {
        self.crashed.contains(id)
    }

    /// The accepted events.
    pub fn events(&self) -> &[WorldEvent]
        ensures { result.now ≡ self.now.past.events }
    {
        &self.events
    }

    /// Every message that was ever sent, by its number.
    pub fn sent(&self) -> &[Message]
        ensures { result.now ≡ self.now.past.sent }
    {
        &self.sent
    }

    /// The record of each operation, in the order in which they began.
    pub fn ops(&self) -> &[Op]
        ensures { result.now ≡ self.now.past.ops }
    {
        &self.ops
    }
}

/// Changes the records as an event of this node at this place does, for which there is room.
fn change_ops(
    alloc: Global,
    ops: &mut Vec<Op>,
    node: u64,
    place: usize,
    change: OpChange,
    ready: Option<Counting>,
)
    requires room { vec_len ops.old < vec_capacity ops.old }
    requires ready { Fits ops.old.items (progress_in change) ready }
    ensures { ops.new.items ≡ moved_at ops.old.items place (progress_in change) ready ++ op_begun node place (begun_in change) }
{
    match change {
        OpChange::Nothing => {}
        OpChange::Begins(BegunOp { tag, session }) => ops.push_reserved(Op {
            node,
            tag,
            begin: place,
            end: None,
            session,
        }),
        OpChange::Moves(progress) => move_op(alloc, ops, place, progress, ready),
    }
}
