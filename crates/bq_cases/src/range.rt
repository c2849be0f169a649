//! Ranges of words, each as the two numbers of its ends.
//!
//! - `operation INSN = A B C D`: what the operation of an instruction makes of the ranges A to B and C to D.
//! - `edge taken INSN = A B C D`: what the edge of a branch where it jumps leaves of them; `edge passed` where not.
//! - `mapped INSN = A B`: what a negation, an extension or a byte order makes of a range.
//! - `load N`: what a load of N bytes gives; `load signed`.
//! - `join = A B C D`, `meet = A B C D`: the least range that covers both, and what lies in both.

use crate::word::parts;
use crate::words::{insn, number, numbers};
use bq_insn::{ByteOrder, Insn};
use bq_range::Range;
use std::alloc::{AllocError, Global};
use std::io;

/// The ranges of four ends.
fn two(alloc: Global, words: &str) -> Result<Option<(Range, Range)>, AllocError> {
    Ok(match numbers(alloc, words)?.as_deref() {
        Some([a, b, c, d]) => Range::new(*a, *b).zip(Range::new(*c, *d)),
        _ => None,
    })
}

/// The range of two ends.
fn one(alloc: Global, words: &str) -> Result<Option<Range>, AllocError> {
    Ok(match numbers(alloc, words)?.as_deref() {
        Some([a, b]) => Range::new(*a, *b),
        _ => None,
    })
}

pub(crate) fn print_range(rt: &impl Print, range: Option<Range>) -> io::Result<()> {
    match range {
        Some(range) => println!(rt; " {} {}", range.lo(), range.hi()),
        None => println!(rt; " none"),
    }
}

fn operation(insn: &Insn, a: Range, b: Range) -> Option<Range> {
    match insn {
        Insn::Alu { width, op, .. } => Some(Range::alu(*width, *op, a, b)),
        _ => None,
    }
}

fn mapped(insn: &Insn, a: Range) -> Option<Range> {
    match insn {
        Insn::Negate { width, .. } => Some(Range::negate(*width, a)),
        Insn::Extend { extension, .. } => {
            let (from, to) = parts(*extension);
            Some(Range::extend(from, to, a))
        }
        Insn::Order {
            order: ByteOrder::Little,
            bits,
            ..
        } => Some(Range::low_bits(*bits, a)),
        Insn::Order { bits, .. } => Some(Range::swap(*bits, a)),
        _ => None,
    }
}

fn print_edge(rt: &impl Print, insn: &Insn, taken: bool, a: Range, b: Range) -> io::Result<()> {
    let Insn::Branch {
        width,
        relation,
        ..
    } = insn
    else {
        return println!(rt; " ?");
    };
    match Range::narrow(*width, *relation, taken, a, b) {
        Some((a, b)) => println!(rt; " {} {} {} {}", a.lo(), a.hi(), b.lo(), b.hi()),
        None => println!(rt; " none"),
    }
}

fn load(word: &str) -> Option<Range> {
    match number(word) {
        Some(bytes @ (1 | 2 | 4 | 8)) => Some(Range::of_load(bytes as u32)),
        Some(_) => None,
        None => Some(Range::of_signed_load()),
    }
}

fn edge(rt: &impl Print, alloc: Global, source: &str, words: &str) -> io::Result<()> {
    let Some((way, source)) = source.split_once(' ') else {
        return println!(rt; " ?");
    };
    match (insn(alloc, source)?, two(alloc, words)?) {
        (Some(insn), Some((a, b))) => print_edge(rt, &insn, way == "taken", a, b),
        _ => println!(rt; " ?"),
    }
}

fn print_operated(
    rt: &impl Print,
    alloc: Global,
    source: &str,
    a: Range,
    b: Range,
) -> io::Result<()> {
    match insn(alloc, source)? {
        Some(insn) => print_range(rt, operation(&insn, a, b)),
        None => print_range(rt, None),
    }
}

fn of_two(rt: &impl Print, alloc: Global, verb: &str, source: &str, words: &str) -> io::Result<()> {
    let Some((a, b)) = two(alloc, words)? else {
        return print_range(rt, None);
    };
    match verb {
        "join" => print_range(rt, Some(a.join(b))),
        "meet" => print_range(rt, a.meet(b)),
        _ => print_operated(rt, alloc, source, a, b),
    }
}

fn of_one(rt: &impl Print, alloc: Global, source: &str, words: &str) -> io::Result<()> {
    match (insn(alloc, source)?, one(alloc, words)?) {
        (Some(insn), Some(a)) => print_range(rt, mapped(&insn, a)),
        _ => print_range(rt, None),
    }
}

/// Prints what comes of a line about ranges.
pub(crate) fn answer(rt: &impl Print, alloc: Global, verb: &str, rest: &str) -> io::Result<()> {
    match (verb, rest.split_once('=')) {
        ("load", _) => print_range(rt, load(rest)),
        ("edge", Some((source, words))) => edge(rt, alloc, source, words),
        ("mapped", Some((source, words))) => of_one(rt, alloc, source, words),
        (_, Some((source, words))) => of_two(rt, alloc, verb, source, words),
        _ => println!(rt; " ?"),
    }
}
