//! Cases of the crates of programs as text. Each line is printed, and behind it what came of it, on lines that begin
//! with a space.
//!
//! A line's first word says what is asked:
//!
//! | Word | Module |
//! |---|---|
//! | `alu`, `swap`, `extend`, `relates` | [`word`]: words |
//! | `asm`, `decode`, `opcodes`, `over`, `exits`, `register` | [`text`]: texts, their bytes and their listing |
//! | `beginnings`, `changed`, `replaced` | [`changed`]: bytes that are cut short or changed |
//! | `place`, `records`, `run` | [`run`]: what texts answer |
//! | `loop` | [`raw`]: what the loop over checked code answers |
//! | `operation`, `edge`, `mapped`, `load`, `join`, `meet` | [`range`]: ranges of words |
//! | `after`, `edges`, `offsets` | [`state`]: what is known of registers |
//! | `flow`, `verify`, `check`, `accept`, `certify`, `known`, `size`, `within` | [`check`]: flow, notes, certificates |
//! | `calls` | [`calls`]: public calls that no other line makes |
//! | `memory` | [`memory`]: calls that take memory, made once more where it is refused |
//!
//! In a source `/` stands for a line feed and `~` for a carriage return. Numbers are words in decimal digits, with `-`
//! for what they are below 2^64. A line that asks for nothing of these is a comment. With a word behind its name the
//! program does what `memory` does with this word alone, and reads no line.
#![tactic(auto)]

mod calls;
mod changed;
mod check;
mod memory;
mod range;
mod raw;
mod refusal;
mod run;
mod state;
mod text;
mod word;
mod words;

use crate::run::Setting;
use bq_frame::Block;
use std::alloc::Global;
use std::{env, io};

/// Prints what comes of a line, whose first word is `verb`.
fn answer(
    rt: &impl Print,
    alloc: Global,
    setting: &mut Setting,
    block: &mut Block,
    verb: &str,
    rest: &str,
) -> io::Result<()> {
    match verb {
        "alu" | "swap" | "extend" | "relates" => word::answer(rt, alloc, rest),
        "asm" | "decode" | "opcodes" | "over" | "exits" | "register" => {
            text::answer(rt, alloc, verb, rest)
        }
        "beginnings" | "changed" | "replaced" => changed::answer(rt, alloc, block, verb, rest),
        "place" => run::place(rt, alloc, setting, rest),
        "records" => run::records(rt, setting, rest),
        "run" => run::run(rt, alloc, setting, rest),
        "loop" => raw::answer(rt, alloc, block, rest),
        "operation" | "edge" | "mapped" | "load" | "join" | "meet" => {
            range::answer(rt, alloc, verb, rest)
        }
        "after" | "edges" | "offsets" => state::answer(rt, alloc, verb, rest),
        "flow" | "verify" | "check" | "accept" | "certify" | "known" | "size" | "within" => {
            check::answer(rt, alloc, verb, rest)
        }
        "calls" => calls::answer(rt, alloc, rest),
        "memory" => memory::answer(rt, alloc, rest),
        _ => Ok(()),
    }
}

/// Prints a line, and what comes of it.
fn tell(
    rt: &impl Print,
    alloc: Global,
    setting: &mut Setting,
    block: &mut Block,
    line: &str,
) -> io::Result<()> {
    println!(rt; "{line}")?;
    match line.split_once(' ') {
        Some((verb, rest)) => answer(rt, alloc, setting, block, verb, rest),
        None => Ok(()),
    }
}

fn tell_lines(
    rt: &(impl Input + Print),
    alloc: Global,
    setting: &mut Setting,
    block: &mut Block,
) -> io::Result<()> {
    for line in rt.lines(alloc) {
        tell(rt, alloc, setting, block, line?.as_str())?;
    }
    Ok(())
}

/// The first word behind the program's name.
fn first_word(rt: &HostRuntime) -> io::Result<Option<String>> {
    Ok(env::args(rt)?.nth(1))
}

fn main(rt: HostRuntime) -> io::Result<()> {
    let alloc = rt.alloc();
    // It takes memory too, so it is asked for once more where it is refused.
    let first = match first_word(&rt) {
        Ok(word) => word,
        Err(_) => first_word(&rt)?,
    };
    match first {
        Some(name) => memory::answer(&rt, alloc, name.as_str()),
        None => tell_lines(&rt, alloc, &mut Setting::first(), &mut Block::new(alloc)?),
    }
}
