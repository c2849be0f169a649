//! Flow, notes and certificates.
//!
//! - `flow SOURCE`: the longest path, and where each instruction leads.
//! - `verify SOURCE`: the notes of a text in hexadecimal digits, and the longest path of its certificate.
//! - `check HEX = SOURCE`: the longest path of the certificate of a text with these notes.
//! - `certify ACC = SOURCE`: what a text that is verified and checked answers from an accumulator, and in how many
//!   steps, over a record of zeros that has as many bytes as may be.
//! - `known UNIT R = SOURCE`: what is known of register R where the instruction at a unit begins.
//! - `accept SOURCE`: the longest path of a text that is verified and checked.
//! - `size SOURCE`: how many bytes the notes of a text have.
//! - `within LEAST MOST` and one of these: the same for records of these lengths, with notes in the second form, and
//!   with `certify ACC LENGTH` over a record of so many bytes. The lines without it are for records of 64 bytes, and
//!   their notes are in the first form.
//! - `within LEAST MOST first` and one of these: the same with notes in the first form.

use crate::changed::{notes_bytes, read_notes};
use crate::refusal::print_refusal;
use crate::run::print_ended;
use crate::state::print_register;
use crate::words::{bytes, number, print_digits, small_number, text};
use bq_check::{Certified, CheckFault, Notes, NotesForm, check_within};
use bq_flow::{Flow, FlowFault, Successors};
use bq_insn::Text;
use bq_meaning::Placement;
use bq_state::Bounds;
use bq_verify::{state_at, verify_within};
use std::alloc::Global;
use std::io;

/// What a line is about: records of which lengths, and notes in which form.
#[derive(Clone, Copy)]
pub(crate) struct Asked {
    bounds: Bounds,
    form: NotesForm,
}

impl Asked {
    /// Records of 64 bytes, and notes in the first form.
    pub(crate) fn of_views() -> Asked {
        Asked {
            bounds: Bounds::of_views(),
            form: NotesForm::First,
        }
    }

    /// Records of so many bytes, and notes in the second form.
    fn within(least: &str, most: &str) -> Option<Asked> {
        Some(Asked {
            bounds: Bounds::new(small_number(least)?, small_number(most)?)?,
            form: NotesForm::Second,
        })
    }
}

fn print_flow_fault(rt: &impl Print, fault: FlowFault) -> io::Result<()> {
    let unit = match fault {
        FlowFault::At { unit, .. } => Some(unit),
        FlowFault::OutOfMemory => None,
    };
    print_refusal(rt, fault.reason(), unit)
}

pub(crate) fn print_fault(rt: &impl Print, fault: CheckFault) -> io::Result<()> {
    print_refusal(rt, fault.reason(), fault.unit())
}

fn print_successors(rt: &impl Print, unit: usize, successors: Successors) -> io::Result<()> {
    match successors {
        Successors::None => println!(rt; " {unit} to none"),
        Successors::One(next) => println!(rt; " {unit} to {next}"),
        Successors::Two(next, target) => println!(rt; " {unit} to {next} and {target}"),
    }
}

fn print_flow(rt: &impl Print, flow: &Flow) -> io::Result<()> {
    println!(rt; " longest {}", flow.longest())?;
    for unit in 0..flow.text().units() {
        print_successors(rt, unit, flow.successors(unit))?;
    }
    Ok(())
}

fn flow(rt: &impl Print, alloc: Global, text: &Text) -> io::Result<()> {
    match Flow::of(alloc, text) {
        Ok(flow) => print_flow(rt, &flow),
        Err(fault) => print_flow_fault(rt, fault),
    }
}

fn print_longest(rt: &impl Print, answer: Result<Certified, CheckFault>) -> io::Result<()> {
    match answer {
        Ok(certified) => println!(rt; " longest {}", certified.longest()),
        Err(fault) => print_fault(rt, fault),
    }
}

fn print_notes(rt: &impl Print, alloc: Global, form: NotesForm, notes: &Notes) -> io::Result<()> {
    match notes_bytes(alloc, form, notes) {
        Ok(bytes) => print_digits(rt, alloc, bytes.as_slice()),
        Err(fault) => print_refusal(rt, fault.reason(), None),
    }
}

fn print_certified(
    rt: &impl Print,
    alloc: Global,
    form: NotesForm,
    certified: &Certified,
) -> io::Result<()> {
    print_notes(rt, alloc, form, certified.notes())?;
    println!(rt; " longest {}", certified.longest())
}

fn verify(rt: &impl Print, alloc: Global, asked: Asked, text: Text) -> io::Result<()> {
    match certified(alloc, asked.bounds, text) {
        Ok(certified) => print_certified(rt, alloc, asked.form, &certified),
        Err(fault) => print_fault(rt, fault),
    }
}

/// Prints how many bytes notes have.
fn print_size(rt: &impl Print, alloc: Global, form: NotesForm, notes: &Notes) -> io::Result<()> {
    match notes_bytes(alloc, form, notes) {
        Ok(bytes) => println!(rt; " {} bytes", bytes.len()),
        Err(fault) => print_refusal(rt, fault.reason(), None),
    }
}

fn size(rt: &impl Print, alloc: Global, asked: Asked, text: &Text) -> io::Result<()> {
    match verify_within(alloc, text, asked.bounds) {
        Ok(notes) => print_size(rt, alloc, asked.form, &notes),
        Err(fault) => print_fault(rt, fault),
    }
}

fn print_checked(
    rt: &impl Print,
    alloc: Global,
    asked: Asked,
    bytes: &[u8],
    text: Text,
) -> io::Result<()> {
    match read_notes(alloc, asked.form, bytes) {
        Ok(notes) => print_longest(rt, check_within(alloc, text, notes, asked.bounds)),
        Err(fault) => print_refusal(rt, fault.reason(), None),
    }
}

fn check_with(
    rt: &impl Print,
    alloc: Global,
    asked: Asked,
    digits: &str,
    text: Text,
) -> io::Result<()> {
    match bytes(alloc, digits) {
        Some(bytes) => print_checked(rt, alloc, asked, bytes.as_slice(), text),
        None => println!(rt; " ?"),
    }
}

/// Prints what a certified text answers from an accumulator over a record of so many zeros.
fn print_run(rt: &impl Print, certified: &Certified, acc: u64, length: u8) -> io::Result<()> {
    let bounds = certified.lengths();
    let Some(place) = Placement::new(4096, 8192) else {
        return println!(rt; " ?");
    };
    if length < bounds.least() || bounds.most() < length {
        return println!(rt; " ?");
    }
    let ended = certified.run_certified(
        &place,
        &[0; 128][..usize::from(length)],
        &mut [0; 512],
        acc,
    );
    print_ended(rt, ended)
}

fn certified(alloc: Global, bounds: Bounds, text: Text) -> Result<Certified, CheckFault> {
    let notes = verify_within(alloc, &text, bounds)?;
    check_within(alloc, text, notes, bounds)
}

fn certify(
    rt: &impl Print,
    alloc: Global,
    asked: Asked,
    acc: u64,
    length: u8,
    text: Text,
) -> io::Result<()> {
    match certified(alloc, asked.bounds, text) {
        Ok(certified) => print_run(rt, &certified, acc, length),
        Err(fault) => print_fault(rt, fault),
    }
}

fn known(
    rt: &impl Print,
    alloc: Global,
    asked: Asked,
    unit: u64,
    register: &str,
    text: &Text,
) -> io::Result<()> {
    let register = small_number(register).unwrap_or(11);
    match state_at(
        alloc,
        text,
        asked.bounds,
        usize::try_from(unit).unwrap_or(4096),
    ) {
        Ok(Some(state)) => print_register(rt, &state, register),
        Ok(None) => println!(rt; " none"),
        Err(fault) => print_fault(rt, fault),
    }
}

/// Prints what comes of a text and the words before it.
fn of_words(
    rt: &impl Print,
    alloc: Global,
    asked: Asked,
    verb: &str,
    words: &str,
    text: Text,
) -> io::Result<()> {
    let (first, second) = words.split_once(' ').unwrap_or((words, ""));
    match (verb, number(first)) {
        ("certify", Some(acc)) => {
            let length = small_number(second).unwrap_or(asked.bounds.most());
            certify(rt, alloc, asked, acc, length, text)
        }
        ("known", Some(unit)) => known(rt, alloc, asked, unit, second, &text),
        ("certify" | "known", None) => println!(rt; " ?"),
        _ => check_with(rt, alloc, asked, words, text),
    }
}

/// Prints what comes of a line that asks for these lengths.
fn answer_within(rt: &impl Print, alloc: Global, rest: &str) -> io::Result<()> {
    let (least, others) = rest.split_once(' ').unwrap_or((rest, ""));
    let (most, others) = others.split_once(' ').unwrap_or((others, ""));
    let (verb, rest) = others.split_once(' ').unwrap_or((others, ""));
    let Some(asked) = Asked::within(least, most) else {
        return println!(rt; " ?");
    };
    if verb != "first" {
        return answer_to(rt, alloc, asked, verb, rest);
    }
    let first = Asked {
        bounds: asked.bounds,
        form: NotesForm::First,
    };
    let (verb, rest) = rest.split_once(' ').unwrap_or((rest, ""));
    answer_to(rt, alloc, first, verb, rest)
}

fn answer_to(
    rt: &impl Print,
    alloc: Global,
    asked: Asked,
    verb: &str,
    rest: &str,
) -> io::Result<()> {
    let (words, source) = rest.split_once(" = ").unwrap_or(("", rest));
    let Some(text) = text(alloc, source)? else {
        return println!(rt; " ?");
    };
    match verb {
        "flow" => flow(rt, alloc, &text),
        "verify" => verify(rt, alloc, asked, text),
        "accept" => print_longest(rt, certified(alloc, asked.bounds, text)),
        "size" => size(rt, alloc, asked, &text),
        _ => of_words(rt, alloc, asked, verb, words, text),
    }
}

/// Prints what comes of a line about flow and notes.
pub(crate) fn answer(rt: &impl Print, alloc: Global, verb: &str, rest: &str) -> io::Result<()> {
    match verb {
        "within" => answer_within(rt, alloc, rest),
        _ => answer_to(rt, alloc, Asked::of_views(), verb, rest),
    }
}
