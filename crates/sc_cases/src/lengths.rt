//! Lines about the lengths that messages and views know.

use crate::values::echo_of;
use crate::words::place;
use sc_msg::{Message, Version};
use sc_view::{Stored, Value, View};
use std::alloc::Global;
use std::io;

/// A value of so many bytes, 112 at most.
fn value_of(count: usize) -> Option<Value> {
    let bytes = [7; 112];
    Value::new(bytes.get(..count)?).ok()
}

fn tell_fitting(rt: &impl Print, message: &Message) -> io::Result<()> {
    message.fits_second();
    println!(rt;
        ", message {} {}",
        message.fits(Version::First),
        message.fits(Version::Second)
    )
}

fn tell_message(rt: &impl Print, message: Option<Message>) -> io::Result<()> {
    match message {
        Some(message) => tell_fitting(rt, &message),
        None => println!(rt; ", no message"),
    }
}

/// Whether versions 1 and 2 know the length of a value of so many bytes, and whether a message that tells it fits them.
pub(crate) fn tell_fits(rt: &impl Print, alloc: Global, count: &str) -> io::Result<()> {
    let count = place(count).unwrap_or(0);
    print!(rt;
        " length {} {}",
        Version::First.has_length(count),
        Version::Second.has_length(count)
    )?;
    tell_message(rt, value_of(count).and_then(|value| echo_of(alloc, value)))
}

/// The node of this id stores a value whose length a word says, where it is one.
fn learn(view: &mut View, id: u64, word: &str) -> Option<()> {
    let value = value_of(place(word)?)?;
    view.put(id, Stored::new(1, value)?).ok()
}

/// Nodes from 1 on store values of these lengths.
fn learn_all(view: &mut View, counts: &[&str]) -> Option<()> {
    let mut id: u64 = 1;
    for word in counts {
        learn(view, id, word)?;
        id = id.wrapping_add(1);
    }
    Some(())
}

fn sum_of_lengths(view: &View) -> usize {
    view.records().fold(
        0,
        |sum: usize, (_, stored)| sum.wrapping_add(stored.value().bytes().len()),
    )
}

fn tell_within(rt: &impl Print, view: &View, least: usize, most: usize) -> io::Result<()> {
    view.values_are_short();
    println!(rt;
        " {} sum {}",
        view.has_values_within(least, most),
        sum_of_lengths(view)
    )
}

/// Whether all values of a view of these lengths have so many bytes, and how many they have in all.
pub(crate) fn tell(
    rt: &impl Print,
    alloc: Global,
    ends: (&str, &str),
    counts: &[&str],
) -> io::Result<()> {
    let mut view = View::new(alloc);
    match (learn_all(&mut view, counts), place(ends.0), place(ends.1)) {
        (Some(()), Some(least), Some(most)) => tell_within(rt, &view, least, most),
        _ => println!(rt; " no lengths"),
    }
}
