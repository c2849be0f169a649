//! How long a node takes over a store message, which it acknowledges and echoes.

use crate::Size;
use crate::measured::Machine;
use crate::values::{USUAL, each, learn, view_of};
use anyhow::{Result, anyhow};
use sc_members::Config;
use sc_msg::{Body, Message, Store};
use sc_node::{Node, NodeFault};
use sc_view::View;
use std::alloc::Global;
use std::time::{Clock, Duration, Instant};

fn refused(reason: NodeFault) -> anyhow::Error {
    anyhow!("refused {reason}")
}

/// What founder 2 sends to store this view.
fn store_of(view: View) -> Message {
    Message {
        from: 2,
        body: Body::Store(Store { tag: 0, view }),
    }
}

/// A message that has the values of this view, where so many of them are changed to this number.
fn message(view: &mut View, newer: u64, number: u64) -> Result<Message> {
    learn(view, newer, number)?;
    Ok(store_of(view.share()?))
}

/// As many messages as rounds. Each has newer values than the one before at so many ids, and else what the view has.
fn messages_of(alloc: Global, view: &mut View, newer: u64, rounds: u64) -> Result<Vec<Message>> {
    let mut all = Vec::new(alloc);
    for round in 0..rounds {
        all.push(message(view, newer, round.wrapping_add(USUAL + 1))?)?;
    }
    Ok(all)
}

/// As many messages as rounds, the first of which tells of so many newer values than are known.
fn messages(alloc: Global, known: &View, newer: u64, rounds: u64) -> Result<Vec<Message>> {
    let mut view = known.share()?;
    messages_of(alloc, &mut view, newer, rounds)
}

/// A message reaches the node.
fn deliver(node: &mut Node, message: &Message) -> Result<()> {
    let _delivered = node.deliver(message).map_err(refused)?;
    Ok(())
}

/// All messages reach the node.
fn time(rt: &impl Clock, node: &mut Node, messages: &[Message]) -> Result<Duration> {
    let start = Instant::now(rt)?;
    for message in messages {
        deliver(node, message)?;
    }
    Ok(start.elapsed(rt)?)
}

/// One of three founders.
fn founder(alloc: Global) -> Result<Node> {
    let founders: Vec<u64> = (1..4).collect(alloc)?;
    Node::founder(alloc, Config::default(), 1, &founders).map_err(refused)
}

/// The node learns this view.
fn tell_known(node: &mut Node, known: &View) -> Result<()> {
    let message = store_of(known.share()?);
    deliver(node, &message)
}

/// Times these messages at the node, each of which tells of so many newer values.
fn tell(
    rt: &(impl Clock + Print + Eprint),
    node: &mut Node,
    messages: &[Message],
    newer: u64,
) -> Result<()> {
    let took = time(rt, node, messages)?;
    let ids = node.view().len();
    println!(rt;
        "deliver, {newer} newer: {ids} ids, {} messages",
        messages.len()
    )?;
    eprintln!(rt; "{newer} newer {} ns", each(took, messages.len() as u64))?;
    Ok(())
}

/// Times so many deliveries at the node, which learns the view before.
fn tell_newer(
    rt: &impl Machine,
    node: &mut Node,
    known: &View,
    newer: u64,
    rounds: u64,
) -> Result<()> {
    tell_known(node, known)?;
    let messages = messages(rt.alloc(), known, newer, rounds)?;
    tell(rt, node, &messages, newer)
}

/// Times so many deliveries at a fresh node.
fn tell_fresh(rt: &impl Machine, known: &View, newer: u64, rounds: u64) -> Result<()> {
    let mut node = founder(rt.alloc())?;
    tell_newer(rt, &mut node, known, newer, rounds)
}

/// Times so many rounds of each.
pub(crate) fn run(rt: &impl Machine, size: Size) -> Result<()> {
    let (ids, rounds) = (size.count, size.runs);
    let known = view_of(rt.alloc(), ids, USUAL)?;
    for newer in [0, 1, 4, 16, 64, 256] {
        tell_fresh(rt, &known, ids.min(newer), rounds)?;
    }
    Ok(())
}
