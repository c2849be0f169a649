//! Lines about a world.

use crate::words::WorldLine;
use sc_members::{Config, Fraction};
use sc_node::{Ended, Node, OpResult, Phase};
use sc_world::{Sent, World, WorldEvent, WorldFault, WorldStep, meets};
use std::alloc::Global;
use std::io;

/// The world that the lines speak of, once one was founded.
#[derive(Drop)]
pub(crate) struct Worlds {
    alloc: Global,
    world: Option<World>,
}

fn tell_end(rt: &impl Print, ended: &Ended) -> io::Result<()> {
    match &ended.what {
        OpResult::Returned(view) => print!(rt; " returned {} values {}", ended.tag, view.len()),
        OpResult::Stored => print!(rt; " stored {}", ended.tag),
    }
}

/// What an event told: its operation, its end, and its messages.
fn tell(rt: &impl Print, world: &World, stepped: &WorldStep) -> io::Result<()> {
    if let Some(tag) = stepped.tag {
        print!(rt; " tag {tag}")?;
    }
    if let Some(ended) = &stepped.ended {
        tell_end(rt, ended)?;
    }
    tell_sent(rt, world, stepped.sent)?;
    println!(rt; "")
}

/// The messages that an event sent, with their numbers.
fn tell_sent(rt: &impl Print, world: &World, sent: Sent) -> io::Result<()> {
    for i in 0..sent.count {
        let number = sent.first.wrapping_add(i);
        if let Some(message) = world.message(number) {
            print!(rt; " {number} {}", message.kind().name())?;
        }
    }
    Ok(())
}

fn refuse(rt: &impl Print, reason: WorldFault) -> io::Result<()> {
    println!(rt; " refused {reason}")
}

fn step(rt: &impl Print, world: &mut World, event: WorldEvent) -> io::Result<()> {
    match world.step(event) {
        Ok(stepped) => tell(rt, world, &stepped),
        Err(fault) => refuse(rt, fault),
    }
}

fn deliver_all(world: &mut World, messages: usize, nodes: u64) -> Result<(), WorldFault> {
    for message in 0..messages {
        for node in 0..nodes {
            world.step(WorldEvent::Deliver {
                message,
                node: node.wrapping_add(1),
            })?;
        }
    }
    Ok(())
}

fn tell_phase(rt: &impl Print, phase: Option<&Phase>) -> io::Result<()> {
    match phase {
        Some(phase) => print!(rt; " {} of {}", phase.counted.len(), phase.threshold),
        None => print!(rt; " none"),
    }
}

fn tell_op(rt: &impl Print, world: &World, place: usize) -> io::Result<()> {
    if let Some(op) = world.ops().get(place) {
        tell_phase(rt, op.session.query())?;
        tell_phase(rt, op.session.back().map(|back| &back.phase))?;
    }
    println!(rt; "")
}

fn tell_common(rt: &impl Print, world: &World, first: usize, second: usize) -> io::Result<()> {
    let (Some(first), Some(second)) = (world.ops().get(first), world.ops().get(second)) else {
        return println!(rt; " no such operation");
    };
    match meets(first, second) {
        Some(id) => println!(rt; " {id}"),
        None => println!(rt; " none"),
    }
}

fn tell_node(rt: &impl Print, node: &Node) -> io::Result<()> {
    let facts = node.facts();
    print!(rt;
        " values {} present {} members {}",
        node.view().len(),
        facts.present(),
        facts.members()
    )
}

fn tell_known(rt: &impl Print, world: &World, id: u64) -> io::Result<()> {
    if let Some(node) = world.node(id) {
        tell_node(rt, node)?;
    }
    let is_there = world.live(id).is_some();
    println!(rt; "{}", if is_there { "" } else { " not there" })
}

/// The world of so many founders from this id on.
pub(crate) fn founded(
    alloc: Global,
    beta: Fraction,
    gamma: Fraction,
    first: u64,
    count: u64,
) -> Result<World, WorldFault> {
    let config = Config::new(beta, gamma).unwrap_or_default();
    let founders: Vec<u64> = (first..first.saturating_add(count)).collect(alloc)?;
    World::new(alloc, config, founders.as_slice())
}

impl Worlds {
    pub(crate) fn new(alloc: Global) -> Worlds {
        Worlds { alloc, world: None }
    }

    pub(crate) fn answer(&mut self, rt: &impl Print, line: WorldLine) -> io::Result<()> {
        if let WorldLine::World {
            beta,
            gamma,
            first,
            count,
        } = line
        {
            return self.found(rt, founded(self.alloc, beta, gamma, first, count));
        }
        match &mut self.world {
            Some(world) => answer_in(rt, world, line),
            None => Ok(()),
        }
    }

    fn found(&mut self, rt: &impl Print, world: Result<World, WorldFault>) -> io::Result<()> {
        match world {
            Ok(world) => {
                self.world = Some(world);
                Ok(())
            }
            Err(fault) => refuse(rt, fault),
        }
    }
}

fn tell_all(rt: &impl Print, world: &mut World, messages: usize, nodes: u64) -> io::Result<()> {
    match deliver_all(world, messages, nodes) {
        Ok(()) => Ok(()),
        Err(fault) => refuse(rt, fault),
    }
}

fn tell_counts(rt: &impl Print, world: &World) -> io::Result<()> {
    println!(rt;
        " events {} messages {}",
        world.events().len(),
        world.sent()
    )
}

fn answer_in(rt: &impl Print, world: &mut World, line: WorldLine) -> io::Result<()> {
    match line {
        WorldLine::WorldEvent(event) => step(rt, world, event),
        WorldLine::All { messages, nodes } => tell_all(rt, world, messages, nodes),
        WorldLine::Op(place) => tell_op(rt, world, place),
        WorldLine::Common(first, second) => tell_common(rt, world, first, second),
        WorldLine::Known(id) => tell_known(rt, world, id),
        WorldLine::Counts => tell_counts(rt, world),
        WorldLine::World { .. } => Ok(()),
    }
}
