//! Twenty events of a world, where each call that is refused for want of memory is made once more: an event that is
//! refused leaves as many events and operations as there were, and then succeeds.
//!
//! They are a store and a collect that meets it, a node that enters, one that leaves and one that crashes.

use crate::worlds::founded;
use sc_members::Fraction;
use sc_view::{VALUE_LENGTH, Value};
use sc_world::{Op, World, WorldEvent, WorldFault, meets};
use std::alloc::Global;
use std::io;

/// The messages that are delivered once node 1 stores, each with the node that takes it.
const STORING: [(usize, u64); 4] = [(0, 1), (0, 2), (1, 1), (3, 1)];

/// Those once node 2 collects.
const COLLECTING: [(usize, u64); 8] = [
    (5, 2),
    (5, 3),
    (6, 2),
    (7, 2),
    (8, 2),
    (8, 3),
    (9, 2),
    (11, 2),
];

/// Those once node 4 enters.
const ENTERING: [(usize, u64); 2] = [(13, 1), (14, 4)];

/// That once node 3 leaves.
const LEAVING: [(usize, u64); 1] = [(15, 1)];

/// The threshold of the phase in which an operation was stored or stored back, and how many senders it counted.
fn stored(op: &Op) -> Option<(u64, usize)> {
    let back = op.session.back()?;
    Some((back.phase.threshold, back.phase.counted.len()))
}

/// How many operations were stored or stored back.
fn stored_ops(ops: &[Op]) -> u64 {
    let mut count: u64 = 0;
    for op in ops {
        if stored(op).is_some() {
            count = count.wrapping_add(1);
        }
    }
    count
}

/// What can be seen of a world: how many events and operations there are, and how many operations were stored or stored
/// back.
fn size(world: &World) -> (usize, usize, u64) {
    let counted = stored_ops(world.ops());
    (world.events().len(), world.ops().len(), counted)
}

/// Takes an event that was refused, and answers whether the world still had this size.
fn step_unchanged(
    world: &mut World,
    event: &WorldEvent,
    before: (usize, usize, u64),
) -> Result<bool, WorldFault> {
    let is_unchanged = size(world) == before;
    match world.step(*event) {
        Ok(_) => Ok(is_unchanged),
        Err(fault) => Err(fault),
    }
}

/// Takes an event, and once more where memory is refused. The answer is whether the world was then as it was.
fn step_again(world: &mut World, event: &WorldEvent) -> Result<bool, WorldFault> {
    let before = size(world);
    match world.step(*event) {
        Err(fault) if fault.number() == 99 => step_unchanged(world, event, before),
        Err(fault) => Err(fault),
        Ok(_) => Ok(true),
    }
}

/// Takes an event, and then delivers messages, each to a node. The answer is whether no call that was refused changed a
/// size.
fn run_again(
    world: &mut World,
    event: &WorldEvent,
    messages: &[(usize, u64)],
) -> Result<bool, WorldFault> {
    let mut is_unchanged = step_again(world, event)?;
    for &(message, node) in messages {
        let delivery = WorldEvent::Deliver { message, node };
        is_unchanged = step_again(world, &delivery)? && is_unchanged;
    }
    Ok(is_unchanged)
}

/// The world of three founders.
fn first_world(alloc: Global) -> Result<World, WorldFault> {
    let beta = Fraction {
        numerator: 2,
        denominator: 3,
    };
    let gamma = Fraction {
        numerator: 4,
        denominator: 5,
    };
    founded(alloc, beta, gamma, 1, 3)
}

/// All events.
fn run_all(world: &mut World) -> Result<bool, WorldFault> {
    let store = WorldEvent::Store {
        node: 1,
        value: Value::from(&[5; VALUE_LENGTH]),
    };
    let stored = run_again(world, &store, &STORING)?;
    let collected = run_again(world, &WorldEvent::Collect(2), &COLLECTING)?;
    let entered = run_again(world, &WorldEvent::Enter(4), &ENTERING)?;
    let left = run_again(world, &WorldEvent::Leave(3), &LEAVING)?;
    let crashed = run_again(world, &WorldEvent::Crash(2), &[])?;
    Ok(stored && collected && entered && left && crashed)
}

/// The kind of the message of that number.
fn kind(world: &World, number: usize) -> &'static str {
    match world.message(number) {
        Some(message) => message.kind().name(),
        None => "none",
    }
}

/// The least id that the first operation and the last have in common.
fn common(world: &World) -> Option<u64> {
    match world.ops() {
        [first, .., last] => meets(first, last),
        _ => None,
    }
}

/// How many events there are, the least id that both operations have in common, and the kinds of two messages.
fn tell_world(rt: &impl Print, world: &World, is_unchanged: bool) -> io::Result<()> {
    print!(rt;
        " events {} common {} message 16 {} message 17 {}",
        world.events().len(),
        common(world).unwrap_or(0),
        kind(world, 16),
        kind(world, 17)
    )?;
    println!(rt; "{}", if is_unchanged { "" } else { " changed" })
}

fn refuse(rt: &impl Print, reason: WorldFault) -> io::Result<()> {
    println!(rt; " refused {reason}")
}

fn tell_run(rt: &impl Print, world: &mut World) -> io::Result<()> {
    match run_all(world) {
        Ok(is_unchanged) => tell_world(rt, world, is_unchanged),
        Err(fault) => refuse(rt, fault),
    }
}

/// What is seen of the world at the end. This is the second try, where memory was refused at the first.
fn tell_again(rt: &impl Print, alloc: Global) -> io::Result<()> {
    match first_world(alloc) {
        Ok(mut world) => tell_run(rt, &mut world),
        Err(fault) => refuse(rt, fault),
    }
}

/// What is seen of the world at the end.
pub(crate) fn tell(rt: &impl Print, alloc: Global) -> io::Result<()> {
    match first_world(alloc) {
        Ok(mut world) => tell_run(rt, &mut world),
        Err(fault) if fault.number() == 99 => tell_again(rt, alloc),
        Err(fault) => refuse(rt, fault),
    }
}
