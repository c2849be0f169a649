//! A view that grows, where each call that is refused for want of memory is made once more: a put or a merge that is
//! refused changes nothing, and then succeeds.
//!
//! A view of 200 nodes is shared. It learns newer values of 256, then nothing new, then 64 values that are newer still;
//! then a new node is refused, and a known one not. In between an empty view learns all of it.

use sc_view::{Stored, VALUE_LENGTH, Value, View, ViewFault};
use std::alloc::Global;
use std::io;

fn stored(number: u64) -> Result<Stored, ViewFault> {
    // No number here is 0.
    Stored::new(number, Value::from(&[7; VALUE_LENGTH])).ok_or(ViewFault::Full)
}

/// Learns a value, and once more where memory is refused.
fn put_again(view: &mut View, id: u64, number: u64) -> Result<(), ViewFault> {
    let stored = stored(number)?;
    match view.put(id, stored) {
        Err(ViewFault::OutOfMemory) => view.put(id, stored),
        other => other,
    }
}

/// Learns values of so many nodes under one number, in no order of their ids.
fn learn(view: &mut View, ids: u64, number: u64) -> Result<(), ViewFault> {
    for place in 0..ids {
        put_again(view, place.wrapping_mul(37) % 257, number)?;
    }
    Ok(())
}

fn merge_again(view: &mut View, other: &View) -> Result<(), ViewFault> {
    match view.merge(other) {
        Err(ViewFault::OutOfMemory) => view.merge(other),
        other => other,
    }
}

fn sum_of_numbers(view: &View) -> u64 {
    view.records().fold(0, |sum: u64, (_, stored)| sum.wrapping_add(stored.number()))
}

/// The sum of the numbers of an empty view, once it learned all of this one.
fn gathered_sum(alloc: Global, view: &View) -> Result<u64, ViewFault> {
    let mut gathered = View::new(alloc);
    merge_again(&mut gathered, view)?;
    Ok(sum_of_numbers(&gathered))
}

/// The view learns newer values, then what it knows, then values that are newer still. The answer is the sum of the
/// numbers in between.
fn merge_newer(
    alloc: Global,
    view: &mut View,
    known: &View,
    newer: &mut View,
) -> Result<u64, ViewFault> {
    merge_again(view, newer)?;
    merge_again(view, known)?;
    let sum = gathered_sum(alloc, view)?;
    learn(newer, 64, 3)?;
    merge_again(view, newer)?;
    Ok(sum)
}

fn merge_in_turn(alloc: Global, view: &mut View, known: &View) -> Result<u64, ViewFault> {
    let mut newer = View::new(alloc);
    learn(&mut newer, 256, 2)?;
    merge_newer(alloc, view, known, &mut newer)
}

/// What is seen at the end.
#[derive(Clone, Copy)]
struct Seen {
    ids: usize,
    sum: u64,
    kept_sum: u64,
    gathered_sum: u64,
    refused: Option<ViewFault>,
}

/// A view that was shared learns from others.
fn seen_of(alloc: Global, view: &mut View, kept: &View) -> Result<Seen, ViewFault> {
    let gathered_sum = merge_in_turn(alloc, view, kept)?;
    let refused = put_again(view, 300, 1).err();
    put_again(view, 5, 3)?;
    Ok(Seen {
        ids: view.len(),
        sum: sum_of_numbers(view),
        kept_sum: sum_of_numbers(kept),
        gathered_sum,
        refused,
    })
}

/// A view is shared, and learns from others.
fn seen_shared(alloc: Global, view: &mut View) -> Result<Seen, ViewFault> {
    let kept = view.share()?;
    seen_of(alloc, view, &kept)
}

/// A view of 200 nodes is shared, and learns from others.
fn seen_at_the_end(alloc: Global) -> Result<Seen, ViewFault> {
    let mut view = View::new(alloc);
    learn(&mut view, 200, 1)?;
    seen_shared(alloc, &mut view)
}

fn tell_refused(rt: &impl Print, refused: Option<ViewFault>) -> io::Result<()> {
    match refused {
        Some(fault) => println!(rt; " refused {}", fault.reason()),
        None => println!(rt; " refused none"),
    }
}

/// How many ids the view has at the end, and the sums of the numbers: its own, that of what was shared, that of what
/// was gathered; and how the new node was refused.
fn tell_seen(rt: &impl Print, seen: Seen) -> io::Result<()> {
    print!(rt;
        " ids {} sum {} kept {} gathered {}",
        seen.ids, seen.sum, seen.kept_sum, seen.gathered_sum
    )?;
    tell_refused(rt, seen.refused)
}

/// What is seen at the end.
pub(crate) fn tell(rt: &impl Print, alloc: Global) -> io::Result<()> {
    match seen_at_the_end(alloc) {
        Ok(seen) => tell_seen(rt, seen),
        Err(fault) => tell_refused(rt, Some(fault)),
    }
}
