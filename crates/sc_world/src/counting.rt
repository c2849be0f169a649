//! The record that a delivery may move: what it needs is made ready before the node changes.

ghost use Rattle.std.specs.Prelude.{◌≡◌, IsTrue, IfOk, IfSome, IfNone, Some, None, position, slice_get};
ghost use Rattle.sc_world.specs.declared.op.Op.{Op as OpValue};
ghost use Rattle.sc_world.specs.Acts.{answered, is_op, IsReady, Fits, moved_at};

use crate::op::Op;
use crate::op_index::OpIndex;
use sc_members::IdSet;
use sc_msg::{Body, Message};
use sc_node::Progress;
use std::alloc::{AllocError, Global};

/// The place of the record that an answer may move, and all senders of its open phase with this one.
#[derive(Drop)]
pub struct Counting {
    pub(crate) at: usize,
    pub(crate) counted: IdSet,
}

/// Makes ready what the record of an operation needs, should this message move it as it reaches the node.
pub(crate) fn make_ready(
    ops: &[Op],
    places: &OpIndex,
    node: u64,
    message: &Message,
) -> Result<Option<Counting>, AllocError>
    ensures { IfOk result (IsReady ops.now node (answered node message.now.from message.now.body)) }
{
    match answered(node, message) {
        Some((tag, sender)) => ready_for(ops, places, node, tag, sender),
        None => Ok(None),
    }
}

/// The same for an answer of this sender to the operation of that tag.
fn ready_for(
    ops: &[Op],
    places: &OpIndex,
    node: u64,
    tag: u64,
    sender: u64,
) -> Result<Option<Counting>, AllocError>
    ensures { IfOk result (IsReady ops.now node (Some (tag, sender))) }
{
    let Some(at) = place_of(ops, places, node, tag) else {
        return Ok(None);
    };
    let counted = ops[at].session.open_phase().counted.with(sender)?;
    Ok(Some(Counting { at, counted }))
}

/// The operation of the node that a message answers, by its tag, and who answers.
fn answered(node: u64, message: &Message) -> Option<(u64, u64)>
    ensures { result ≡ answered node message.now.from message.now.body }
{
    match &message.body {
        Body::StoreAck(ack) if ack.to == node => Some((ack.tag, message.from)),
        Body::CollectReply(reply) if reply.to == node => Some((reply.tag, message.from)),
        _ => None,
    }
}

/// Where the record of this operation stands.
fn place_of(ops: &[Op], places: &OpIndex, node: u64, tag: u64) -> Option<usize>
    ensures found { IfSome result (λ at. (o : OpValue) × IsTrue (is_op node tag o) × (slice_get ops.now at ≡ Some o)) }
    ensures absent { IfNone result (position (is_op node tag) ops.now ≡ None) }
{
    if let Some(at) = places.get(node, tag)
        && at < ops.len()
        && is_op(&ops[at], node, tag)
    {
        return Some(at);
    }
    look_through(ops, node, tag)
}

fn look_through(ops: &[Op], node: u64, tag: u64) -> Option<usize>
    ensures { result ≡ position (is_op node tag) ops.now }
{
    ops.iter().position(|op| is_op(op, node, tag))
}

fn is_op(op: &Op, node: u64, tag: u64) -> bool
    ensures { result ≡ is_op node tag op.now }
{
    op.node == node && op.tag == tag
}

/// Moves the record that was found, if there is one.
pub(crate) fn move_op(
    alloc: Global,
    ops: &mut Vec<Op>,
    place: usize,
    progress: Progress,
    counting: Option<Counting>,
)
    requires { Fits ops.old.items (Some progress) counting }
    ensures { ops.new.items ≡ moved_at ops.old.items place (Some progress) counting }
{
    if let Some(counting) = counting {
        ops[counting.at].advance(alloc, place, progress, counting.counted);
    }
}
