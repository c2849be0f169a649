//! How long a delivery takes in a store-collect object of 32 nodes with churn.
//!
//! A cluster is made whose views hold values of so many nodes, 32 to 256, of which 32 are there. In each round one of
//! them stores and one collects, each until its operation ends, and in each fourth round a node enters and joins while
//! another leaves. Every message is the real one and is delivered by the world's own step.

use crate::Size;
use crate::cluster::Cluster;
use crate::measured::Machine;
use anyhow::{Result, anyhow};
use sc_world::WorldFault;
use std::time::{Clock, Duration, Instant};

/// Runs the rounds, and answers how long they took and how many messages they delivered.
fn measure(rt: &impl Clock, cluster: &mut Cluster, rounds: u64) -> Result<(Duration, usize)> {
    let before = cluster.deliveries();
    let start = Instant::now(rt)?;
    cluster.rounds(rounds).map_err(refused)?;
    let took = start.elapsed(rt)?;
    Ok((took, cluster.deliveries().saturating_sub(before)))
}

fn refused(reason: WorldFault) -> anyhow::Error {
    anyhow!("refused {reason}")
}

/// Times so many rounds of a cluster.
fn tell(rt: &(impl Clock + Print + Eprint), cluster: &mut Cluster, size: Size) -> Result<()> {
    cluster.begin(size.count).map_err(refused)?;
    let (took, delivered) = measure(rt, cluster, size.runs)?;
    println!(rt;
        "ids {} deliveries {delivered} operations {} ended {}",
        cluster.ids(),
        cluster.operations(),
        cluster.ended()
    )?;
    let each = took.as_nanos().checked_div(delivered as u128);
    eprintln!(rt; "{took:?}, {} ns a delivery", each.unwrap_or(0))?;
    Ok(())
}

/// Times so many rounds.
pub(crate) fn run(rt: &impl Machine, size: Size) -> Result<()> {
    let mut cluster = Cluster::new(rt.alloc(), size.count).map_err(refused)?;
    tell(rt, &mut cluster, size)
}
