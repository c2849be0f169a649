//! What texts answer.
//!
//! - `place A B`: from here on the frame lies at A and the record at B; `placed`, or `none` where they can't.
//! - `records LENGTH`: from here on records have so many bytes, 64 at first; `so`, or `none` and no change where they
//!   can't.
//! - `run LIMIT FILL ACC VALUES = SOURCE`: what the text answers, and in how many steps, over records in turn, of which
//!   each has one of the values in its bytes from 16 on, as far as it has them, and is 0 elsewhere. There may be no
//!   value. The frame is filled with the byte FILL before the first record. Or `refused NUMBER NAME`, by the fault that
//!   stopped it.

ghost use Rattle.std.specs.Prelude.{◌≤◌};

use crate::refusal::print_refusal;
use crate::words::{number, numbers, text};
use bq_insn::Text;
use bq_meaning::{Ended, Fault, LEAST_RECORD, Placement, RECORD_LENGTH, RECORD_ROOM, run_checked};
use std::alloc::Global;
use std::io;

/// Where frame and record lie, and how many bytes a record has.
#[derive(Drop)]
pub(crate) struct Setting {
    place: Option<Placement>,
    length: usize,
    ghost least: { 16 ≤ length },
    ghost room: { length ≤ 128 },
}

impl Setting {
    /// The one at the first line.
    pub(crate) fn first() -> Setting {
        Setting {
            place: None,
            length: RECORD_LENGTH,
        }
    }
}

/// Sets where the frame and the record lie.
pub(crate) fn place(
    rt: &impl Print,
    alloc: Global,
    setting: &mut Setting,
    rest: &str,
) -> io::Result<()> {
    setting.place = match numbers(alloc, rest)?.as_deref() {
        Some([frame, record]) => Placement::new(*frame, *record),
        _ => None,
    };
    match setting.place {
        Some(_) => println!(rt; " placed"),
        None => println!(rt; " none"),
    }
}

/// Sets how many bytes a record has.
pub(crate) fn records(rt: &impl Print, setting: &mut Setting, rest: &str) -> io::Result<()> {
    match number(rest) {
        Some(length @ 16..=128) => {
            setting.length = length as usize;
            println!(rt; " so")
        }
        _ => println!(rt; " none"),
    }
}

/// As much as a record may have, with this value.
fn widest_record(value: u64) -> [u8; RECORD_ROOM] {
    let mut record = [0; RECORD_ROOM];
    record[LEAST_RECORD..LEAST_RECORD + 8].copy_from_slice(&value.to_le_bytes());
    record
}

/// The record of 64 bytes with this value.
pub(crate) fn record_of(value: u64) -> [u8; RECORD_LENGTH] {
    let mut record = [0; RECORD_LENGTH];
    record[LEAST_RECORD..LEAST_RECORD + 8].copy_from_slice(&value.to_le_bytes());
    record
}

/// How a run begins.
#[derive(Clone, Copy)]
struct Start<'a> {
    limit: u64,
    fill: u8,
    acc: u64,
    values: &'a [u64],
}

fn start_of(words: &[u64]) -> Option<Start<'_>> {
    let [limit, fill, acc, values @ ..] = words else {
        return None;
    };
    Some(Start {
        limit: *limit,
        fill: u8::try_from(*fill).ok()?,
        acc: *acc,
        values,
    })
}

/// What a text answers over records with the values.
fn fold(text: &Text, place: &Placement, length: usize, start: Start<'_>) -> Result<Ended, Fault>
    requires least { 16 ≤ length }
    requires room { length ≤ 128 }
{
    let mut frame = [start.fill; 512];
    let mut all = Ended {
        acc: start.acc,
        steps: 0,
    };
    for value in start.values {
        let record = widest_record(*value);
        let record = &record[..length];
        let ended = run_checked(text, place, record, &mut frame, all.acc, start.limit)?;
        all = Ended {
            acc: ended.acc,
            steps: all.steps.wrapping_add(ended.steps),
        };
    }
    Ok(all)
}

/// Prints an answer, and in how many steps it came.
pub(crate) fn print_ended(rt: &impl Print, ended: Ended) -> io::Result<()> {
    println!(rt; " {} in {}", ended.acc, ended.steps)
}

fn print_run(rt: &impl Print, setting: &Setting, text: &Text, start: Start<'_>) -> io::Result<()> {
    let Some(place) = setting.place else {
        return println!(rt; " ?");
    };
    match fold(text, &place, setting.length, start) {
        Ok(ended) => print_ended(rt, ended),
        Err(fault) => print_refusal(rt, fault.reason(), None),
    }
}

/// Prints what a text answers at the placement.
pub(crate) fn run(rt: &impl Print, alloc: Global, setting: &Setting, rest: &str) -> io::Result<()> {
    let (words, source) = rest.split_once(" = ").unwrap_or((rest, ""));
    let numbers = numbers(alloc, words)?;
    match (numbers.as_deref().and_then(start_of), text(alloc, source)?) {
        (Some(start), Some(text)) => print_run(rt, setting, &text, start),
        _ => println!(rt; " ?"),
    }
}
