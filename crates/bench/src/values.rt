//! Values and views to measure with.

use anyhow::{Context, Result, anyhow};
use sc_view::{Stored, VALUE_LENGTH, Value, View, ViewFault};
use std::alloc::Global;
use std::time::Duration;

/// The number under which most values are stored.
pub(crate) const USUAL: u64 = 5;

/// A value under this number.
pub(crate) fn stored(number: u64) -> Result<Stored> {
    Stored::new(number, Value::from(&[7; VALUE_LENGTH])).context("a number is 0")
}

/// The id that comes at this place. The ids of the first 256 places differ, and come in no order.
pub(crate) fn id_at(place: u64) -> u64 {
    place.wrapping_mul(37) % 257
}

pub(crate) fn refused(fault: ViewFault) -> anyhow::Error {
    anyhow!("refused {}", fault.reason())
}

/// Learns values under this number, at the ids of so many places.
pub(crate) fn learn(view: &mut View, ids: u64, number: u64) -> Result<()> {
    for place in 0..ids {
        view.put(id_at(place), stored(number)?).map_err(refused)?;
    }
    Ok(())
}

/// A view of so many ids, whose values have this number.
pub(crate) fn view_of(alloc: Global, ids: u64, number: u64) -> Result<View> {
    let mut view = View::new(alloc);
    learn(&mut view, ids, number)?;
    Ok(view)
}

/// How many nanoseconds one of so many calls took.
pub(crate) fn each(took: Duration, calls: u64) -> u128 {
    took.as_nanos().checked_div(u128::from(calls)).unwrap_or(0)
}
