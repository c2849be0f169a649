//! Lines about views.

use crate::words::{byte_of, number};
use sc_view::{Stored, VALUE_LENGTH, Value, View, ViewFault};
use std::alloc::Global;
use std::io;

/// A value that three words spell: its node, its number from 1 on, and the byte of which it is made.
fn value_of(words: &[&str]) -> Option<(u64, Stored)> {
    let [id, count, byte] = words else {
        return None;
    };
    let id = number(id)?;
    let stored = stored_of(count, byte)?;
    Some((id, stored))
}

fn stored_of(count: &str, byte: &str) -> Option<Stored> {
    let number = number(count)?;
    let byte = byte_of(byte)?;
    Stored::new(number, Value::from(&[byte; VALUE_LENGTH]))
}

/// Learns the value that these words spell, if they do.
fn learn(view: &mut View, words: &[&str]) -> Result<(), ViewFault> {
    match value_of(words) {
        Some((id, stored)) => view.put(id, stored),
        None => Ok(()),
    }
}

fn view_of(alloc: Global, words: &[&str]) -> Result<View, ViewFault> {
    let mut view = View::new(alloc);
    for value in words.chunks(3) {
        learn(&mut view, value)?;
    }
    Ok(view)
}

/// This view, merged with the one that the words spell.
fn with_view(alloc: Global, view: &View, words: &[&str]) -> Result<View, ViewFault> {
    let other = view_of(alloc, words)?;
    view.merged(&other)
}

/// The first view, merged with the second.
pub(crate) fn merged(alloc: Global, first: &[&str], second: &[&str]) -> Result<View, ViewFault> {
    let first = view_of(alloc, first)?;
    with_view(alloc, &first, second)
}

/// The byte of which a value is made.
pub(crate) fn first_byte(stored: &Stored) -> u8 {
    stored.value().bytes().first().copied().unwrap_or_default()
}

fn tell_value(rt: &impl Print, id: u64, stored: &Stored) -> io::Result<()> {
    let byte = first_byte(stored);
    print!(rt; " {id} {} {byte}", stored.number())
}

fn tell_values(rt: &impl Print, view: &View) -> io::Result<()> {
    for (id, stored) in view.records() {
        tell_value(rt, id, stored)?;
    }
    println!(rt; "")
}

fn refuse(rt: &impl Print, fault: ViewFault) -> io::Result<()> {
    println!(rt; " refused {}", fault.reason())
}

/// The values of a view, or why there is none.
pub(crate) fn tell(rt: &impl Print, view: Result<View, ViewFault>) -> io::Result<()> {
    match view {
        Ok(view) => tell_values(rt, &view),
        Err(fault) => refuse(rt, fault),
    }
}

fn tell_chunks(rt: &impl Print, view: &View) -> io::Result<()> {
    print!(rt; " chunks")?;
    for k in 0..view.chunks().len() {
        print!(rt; " {}", view.chunk(k).map_or(0, |entries| entries.len()))?;
    }
    Ok(())
}

fn number_at(view: &View, id: u64) -> u64 {
    view.get(id).map_or(0, |stored| stored.number())
}

/// A copy of the view that has learned one more value.
fn copy_with(view: &View, id: u64, stored: Stored) -> Result<View, ViewFault> {
    let mut copy = view.share()?;
    copy.put(id, stored)?;
    Ok(copy)
}

fn tell_copy(rt: &impl Print, view: &View, id: u64, stored: Stored) -> io::Result<()> {
    match copy_with(view, id, stored) {
        Ok(copy) => {
            tell_chunks(rt, &copy)?;
            println!(rt;
                ", copy {}, view {}",
                number_at(&copy, id),
                number_at(view, id)
            )
        }
        Err(fault) => refuse(rt, fault),
    }
}

/// The ids of a view, and the value that it has at each.
#[derive(Clone, Copy)]
struct Filling {
    first: u64,
    count: u64,
    stored: Stored,
}

/// A view of these values.
fn filled(alloc: Global, filling: Filling) -> Result<View, ViewFault> {
    let mut view = View::new(alloc);
    for place in 0..filling.count {
        view.put(filling.first.wrapping_add(place), filling.stored)?;
    }
    Ok(view)
}

fn filling_of(words: &[&str]) -> Option<Filling> {
    let [first, count, number_word, byte] = words else {
        return None;
    };
    let first = number(first)?;
    let count = number(count)?;
    let stored = stored_of(number_word, byte)?;
    Some(Filling {
        first,
        count,
        stored,
    })
}

fn tell_filled(
    rt: &impl Print,
    alloc: Global,
    filling: Filling,
    id: u64,
    learned: Stored,
) -> io::Result<()> {
    match filled(alloc, filling) {
        Ok(view) => tell_copy(rt, &view, id, learned),
        Err(fault) => refuse(rt, fault),
    }
}

/// A view, and a copy that learns one more value.
pub(crate) fn tell_shared(
    rt: &impl Print,
    alloc: Global,
    words: &[&str],
    value: &[&str],
) -> io::Result<()> {
    let Some(filling) = filling_of(words) else {
        return Ok(());
    };
    let Some((id, learned)) = value_of(value) else {
        return Ok(());
    };
    tell_filled(rt, alloc, filling, id, learned)
}
