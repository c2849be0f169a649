//! How long a merge takes, and what nodes do with views besides.

use crate::Size;
use crate::measured::{Machine, time_runs};
use crate::values::{USUAL, each, learn, refused, view_of};
use anyhow::Result;
use sc_view::View;
use std::time::{Clock, Duration, Instant};

/// Two views as one. Gives how many values it has.
fn merge(known: &View, told: &View) -> Result<usize> {
    let both = known.merged(told).map_err(refused)?;
    Ok(both.len())
}

/// Reads all values so often. Gives the sum of their numbers, too.
fn time_reading(rt: &impl Clock, view: &View, rounds: u64) -> Result<(Duration, u64)> {
    let start = Instant::now(rt)?;
    let mut sum = 0u64;
    for _ in 0..rounds {
        for (_, stored) in view.records() {
            sum = sum.wrapping_add(stored.number());
        }
    }
    Ok((start.elapsed(rt)?, sum))
}

/// Times a merge of two views, and tells it under this name.
fn tell(
    rt: &(impl Clock + Print + Eprint),
    name: &str,
    known: &View,
    told: &View,
    rounds: u64,
) -> Result<()> {
    let ids = merge(known, told)?;
    let took = time_runs(rt, rounds, |_| merge(known, told))?;
    println!(rt; "merge, {name}: {ids} ids")?;
    eprintln!(rt; "{name} {} ns", each(took, rounds))?;
    Ok(())
}

/// A view that tells one newer value.
fn with_one_newer(known: &View) -> Result<View> {
    let mut view = known.share()?;
    learn(&mut view, 1, USUAL + 1)?;
    Ok(view)
}

/// A merge with a view of the same ids, whose values have this number.
fn tell_all(rt: &impl Machine, name: &str, known: &View, number: u64, size: Size) -> Result<()> {
    let told = view_of(rt.alloc(), size.count, number)?;
    tell(rt, name, known, &told, size.runs)
}

fn tell_one_newer(rt: &(impl Clock + Print + Eprint), known: &View, rounds: u64) -> Result<()> {
    let told = with_one_newer(known)?;
    tell(rt, "one newer", known, &told, rounds)
}

fn tell_all_new(rt: &impl Machine, size: Size) -> Result<()> {
    let nothing = View::new(rt.alloc());
    tell_all(rt, "all ids new", &nothing, USUAL + 1, size)
}

fn tell_merges(rt: &impl Machine, known: &View, size: Size) -> Result<()> {
    tell_all(rt, "nothing new", known, USUAL, size)?;
    tell_one_newer(rt, known, size.runs)?;
    tell_all(rt, "all newer", known, USUAL + 1, size)?;
    tell_all_new(rt, size)
}

fn tell_reading(rt: &(impl Clock + Print + Eprint), view: &View, rounds: u64) -> Result<()> {
    let sharing = time_runs(rt, rounds, |_| Ok(view.share()?))?;
    let (reading, sum) = time_reading(rt, view, rounds)?;
    println!(rt; "numbers {sum}")?;
    let (sharing, reading) = (each(sharing, rounds), each(reading, rounds));
    eprintln!(rt; "sharing {sharing} ns, reading {reading} ns")?;
    Ok(())
}

/// Times so many rounds of what is done with this view.
fn tell_known(rt: &impl Machine, known: &View, size: Size) -> Result<()> {
    tell_merges(rt, known, size)?;
    tell_reading(rt, known, size.runs)
}

/// Times so many rounds of each.
pub(crate) fn run(rt: &impl Machine, size: Size) -> Result<()> {
    let known = view_of(rt.alloc(), size.count, USUAL)?;
    tell_known(rt, &known, size)
}
