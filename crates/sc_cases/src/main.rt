//! Cases of the store-collect object as text: each line is an event, a question or a value, and prints itself and then
//! what came. The gate compares what is printed with the file `stdout`, whose values come from outside.
//!
//! - `world N/D J/K FIRST COUNT` founds a world of so many founders from this id on, whose operations wait for the
//!   fraction N/D and whose joins for J/K; it prints the refusal, if any.
//! - `enter ID`, `leave ID`, `crash ID`, `store ID BYTE`, `collect ID`, `deliver M ID`: the tag, the end and the
//!   messages of the event, or its refusal.
//! - `all M N` delivers each of M messages to each of the nodes 1 to N; it prints the refusal, if any.
//! - `op I`: the thresholds and the counted senders of the phases of an operation.
//! - `common I J`: the least id that two operations have in common.
//! - `known ID`: how many values a node knows, how many nodes it takes for present and for members, and whether it is
//!   there.
//! - `counts`: how many events and messages there are.
//! - `message VERSION HEX`: what the message of that version, 1 or 2, says, and whether it is written as it was read;
//!   or the refusal.
//! - `beginnings VERSION HEX`: for each proper beginning of the bytes, from none on, the number by which it is refused,
//!   or 0.
//! - `changed VERSION COUNT HEX`: the bytes with one of them changed, so often, by a fixed generator: how many were
//!   tried, and how many of them were neither refused nor written as they were read.
//! - `threshold N/D COUNT`, `fraction N/D`: the threshold; whether a cluster may have this fraction.
//! - `sets ID .. / ID ..`: the union in rising order, the size of the first set, the least common id, and the sizes of
//!   union and difference.
//! - `facts ID .. / WHAT ID ..`: how many are present and members by these founders united with these facts, or the
//!   refusal.
//! - `view ID NUMBER BYTE .. / ID NUMBER BYTE ..`: the first view merged with the second: id, number and byte of each
//!   value.
//! - `share FIRST COUNT NUMBER BYTE / ID NUMBER BYTE`: a view of so many ids from the first on, and a copy that learns
//!   one more value: how many entries each chunk of the copy has, and the number that each of the two knows at the id;
//!   or the refusal.
//! - `value COUNT`: how many bytes a value of so many bytes has, and how many a message that tells it, in version 2 and
//!   in version 1; or the refusals.
//! - `fits COUNT`: whether versions 1 and 2 know the length of a value of so many bytes, and whether a message that
//!   tells it fits them.
//! - `lengths LEAST MOST COUNT ..`: whether all values of a view have from so many to so many bytes, and the sum of
//!   their lengths.
//! - `laws`, `forms`, `again VERSION HEX`: see [`laws`].
//! - `memory RUN`: see [`memory`]. With a word behind its name the program makes this run alone, and reads no line.
//!
//! Another line is printed as it stands.
#![tactic(auto)]

mod bytes;
mod changed;
mod churn;
mod grown;
mod laws;
mod lengths;
mod members;
mod memory;
mod values;
mod views;
mod words;
mod worlds;

use crate::words::Case;
use crate::worlds::Worlds;
use std::alloc::Global;
use std::{env, io};

fn answer(rt: &impl Print, alloc: Global, worlds: &mut Worlds, words: &[&str]) -> io::Result<()> {
    match Case::read(words) {
        Some(Case::World(line)) => worlds.answer(rt, line),
        Some(Case::Bytes(line)) => bytes::tell(rt, alloc, line),
        Some(Case::Members(line)) => members::tell(rt, alloc, &line),
        Some(Case::View(first, second)) => views::tell(rt, views::merged(alloc, first, second)),
        Some(Case::Share(ids, value)) => views::tell_shared(rt, alloc, ids, value),
        Some(Case::Value(count)) => values::tell(rt, alloc, count),
        None => laws::tell(rt, alloc, words),
    }
}

/// The line, and what came.
fn tell(rt: &impl Print, alloc: Global, worlds: &mut Worlds, line: &str) -> io::Result<()> {
    println!(rt; "{line}")?;
    let words: Vec<&str> = line.split_whitespace().collect(alloc)?;
    answer(rt, alloc, worlds, words.as_slice())
}

fn tell_lines(rt: &(impl Input + Print), alloc: Global) -> io::Result<()> {
    let mut worlds = Worlds::new(alloc);
    for line in rt.lines(alloc) {
        tell(rt, alloc, &mut worlds, &line?)?;
    }
    Ok(())
}

/// The first word behind the program's name.
fn first_word(rt: &HostRuntime) -> io::Result<Option<String>> {
    let mut words = env::args(rt)?;
    let _ = words.next();
    Ok(words.next())
}

/// The same, and once more where it is refused.
fn first_word_again(rt: &HostRuntime) -> io::Result<Option<String>> {
    match first_word(rt) {
        Ok(word) => Ok(word),
        Err(_) => first_word(rt),
    }
}

fn main(rt: HostRuntime) -> io::Result<()> {
    match first_word_again(&rt)? {
        Some(name) => memory::tell(&rt, rt.alloc(), name.as_str()),
        None => tell_lines(&rt, rt.alloc()),
    }
}
