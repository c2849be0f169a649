//! What is known of registers.
//!
//! - `after R INSN`: what is known of register R after an instruction at the entry, or the rule that it breaks.
//! - `after R KIND = INSN`: the same where of r0 this is known and nothing else: `unset`, `number A B`, `record A B`,
//!   `frame A B`, or `length A B` for the length of a record of A to B bytes.
//! - `edges UNIT INSN`: where an instruction at a unit leads in the state of the entry.
//! - `edges UNIT KIND = INSN`: the same where of r0 this is known and nothing else.
//! - `offsets A B`: the offsets from A to B.

use crate::refusal::print_refusal;
use crate::words::{insn, number, numbers};
use bq_insn::Insn;
use bq_range::Range;
use bq_state::{Bounds, Edge, Kind, Offsets, Region, State};
use std::alloc::Global;
use std::io;

/// The most units of a text.
const MOST_UNITS: u64 = 4096;

pub(crate) fn print_register(rt: &impl Print, state: &State, register: u8) -> io::Result<()> {
    match state.kind(register) {
        Kind::Unset => println!(rt; " unset"),
        Kind::Number(range) => println!(rt; " number {} {}", range.lo(), range.hi()),
        Kind::Pointer(region, at) => { println!(rt; " {} {} {}", region.name(), at.lo(), at.hi()) }
        Kind::Length => {
            let lengths = state.lengths();
            println!(rt; " length {} {}", lengths.least(), lengths.most())
        }
    }
}

fn offset(word: u64) -> Option<i32> {
    i32::try_from(word.cast_signed()).ok()
}

fn offsets(first: u64, last: u64) -> Option<Offsets> {
    match (offset(first), offset(last)) {
        (Some(first), Some(last)) => Offsets::new(first, last),
        _ => None,
    }
}

fn pointer(region: Region, first: u64, last: u64) -> Option<Kind> {
    Some(Kind::Pointer(region, offsets(first, last)?))
}

/// The state in which this is known of r0 and nothing else.
fn nothing_but(kind: Kind, lengths: Bounds) -> State {
    let mut kinds = [Kind::Unset; 11];
    kinds[0] = kind;
    State::new(kinds, lengths)
}

pub(crate) fn of_views(kind: Kind) -> State {
    nothing_but(kind, Bounds::of_views())
}

fn of_lengths(least: u64, most: u64) -> Option<State> {
    let lengths = Bounds::new(u8::try_from(least).ok()?, u8::try_from(most).ok()?)?;
    Some(nothing_but(Kind::Length, lengths))
}

fn state_of(alloc: Global, words: &str) -> Option<State> {
    let (name, ends) = words.split_once(' ')?;
    let ends = numbers(alloc, ends).ok()??;
    match (name, ends.as_slice()) {
        ("number", [a, b]) => Range::new(*a, *b).map(Kind::Number).map(of_views),
        ("record", [a, b]) => pointer(Region::Record, *a, *b).map(of_views),
        ("frame", [a, b]) => pointer(Region::Frame, *a, *b).map(of_views),
        ("length", [a, b]) => of_lengths(*a, *b),
        _ => None,
    }
}

/// The state that is told before ` = `, else that of the entry, and the instruction's text.
fn told(alloc: Global, rest: &str) -> (State, &str) {
    match rest.split_once(" = ") {
        Some((words, source)) => match state_of(alloc, words) {
            Some(state) => (state, source),
            None => (of_views(Kind::Unset), source),
        },
        None => (State::entry(Bounds::of_views()), rest),
    }
}

fn print_after(rt: &impl Print, state: &State, insn: &Insn, register: u64) -> io::Result<()> {
    match state.transfer(insn) {
        Ok(state) => print_register(rt, &state, u8::try_from(register).unwrap_or(11)),
        Err(rule) => print_refusal(rt, rule.reason(), None),
    }
}

fn after(rt: &impl Print, alloc: Global, register: u64, rest: &str) -> io::Result<()> {
    let (state, source) = told(alloc, rest);
    match insn(alloc, source)? {
        Some(insn) => print_after(rt, &state, &insn, register),
        None => println!(rt; " ?"),
    }
}

/// Where an edge leads.
fn unit_of(edge: &Option<Edge>) -> Option<u64> {
    match edge {
        Some(edge) => Some(edge.unit),
        None => None,
    }
}

fn print_edge(rt: &impl Print, way: &str, unit: Option<u64>) -> io::Result<()> {
    match unit {
        Some(unit) => println!(rt; " {way} {unit}"),
        None => println!(rt; " {way} none"),
    }
}

fn edges(rt: &impl Print, alloc: Global, unit: u64, rest: &str) -> io::Result<()> {
    let (state, source) = told(alloc, rest);
    let Some(insn) = insn(alloc, source)? else {
        return println!(rt; " ?");
    };
    if MOST_UNITS <= unit {
        return println!(rt; " ?");
    }
    let edges = state.edges(unit, &insn);
    print_edge(rt, "behind", unit_of(&edges.behind))?;
    print_edge(rt, "jump", unit_of(&edges.jump))
}

fn print_offsets(rt: &impl Print, offsets: Option<Offsets>) -> io::Result<()> {
    match offsets {
        Some(at) => println!(rt; " {} {}", at.lo(), at.hi()),
        None => println!(rt; " none"),
    }
}

/// Prints what comes of a line about what is known.
pub(crate) fn answer(rt: &impl Print, alloc: Global, verb: &str, rest: &str) -> io::Result<()> {
    let Some((word, rest)) = rest.split_once(' ') else {
        return println!(rt; " ?");
    };
    match (verb, number(word), number(rest)) {
        ("after", Some(register), _) => after(rt, alloc, register, rest),
        ("edges", Some(unit), _) => edges(rt, alloc, unit, rest),
        ("offsets", Some(first), Some(last)) => print_offsets(rt, offsets(first, last)),
        _ => println!(rt; " ?"),
    }
}
