//! How long a put takes.

use crate::Size;
use crate::measured::{Machine, time_runs};
use crate::values::{USUAL, each, learn, view_of};
use anyhow::Result;
use sc_view::View;
use std::alloc::Global;
use std::time::{Clock, Duration};

/// The number of the values that a round puts.
fn number_of(round: u64) -> u64 {
    round.wrapping_add(USUAL + 1)
}

/// A round of puts into a view that shares its chunks with another meanwhile.
fn learn_shared(view: &mut View, ids: u64, number: u64) -> Result<()> {
    let _kept = view.share()?;
    learn(view, ids, number)
}

/// How long the puts take into a view that alone has its chunks.
fn alone(rt: &(impl Clock + Alloc<A = Global>), ids: u64, rounds: u64) -> Result<Duration> {
    let mut view = view_of(rt.alloc(), ids, USUAL)?;
    time_runs(rt, rounds, |round| learn(&mut view, ids, number_of(round)))
}

/// How long they take into one that is shared before each round.
fn shared(rt: &(impl Clock + Alloc<A = Global>), ids: u64, rounds: u64) -> Result<Duration> {
    let mut view = view_of(rt.alloc(), ids, USUAL)?;
    time_runs(rt, rounds, |round| {
        learn_shared(&mut view, ids, number_of(round))
    })
}

/// Times so many rounds.
pub(crate) fn run(rt: &impl Machine, size: Size) -> Result<()> {
    let (ids, rounds) = (size.count, size.runs);
    let puts = ids.saturating_mul(rounds);
    let (alone, shared) = (alone(rt, ids, rounds)?, shared(rt, ids, rounds)?);
    println!(rt; "put: {ids} ids, {rounds} rounds")?;
    let (alone, shared) = (each(alone, puts), each(shared, puts));
    eprintln!(rt; "alone {alone} ns, shared before each round {shared} ns")?;
    Ok(())
}
