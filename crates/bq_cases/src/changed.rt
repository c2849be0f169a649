//! Bytes that are cut short or changed: each is refused, or is what it is read as.
//!
//! KIND is `text`, or `first` or `second` for notes in that form.
//!
//! - `beginnings KIND HEX`: for each proper beginning of the bytes, from none on, the number of its refusal, or 0.
//! - `changed KIND COUNT HEX`: the bytes with one of them changed, so often, by a fixed generator: how many were tried,
//!   and how many of them were neither refused nor written again as they were read.
//! - `replaced KIND ACC STEPS VALUES = HEX = HEX`: a text and its notes, each byte of the notes replaced by each other
//!   value: how many bytes were tried, and at how many values the notes were neither refused, nor took the loop from 0
//!   to this answer in so many steps over records with these values.

use crate::raw::{certified_with, fold};
use crate::text::fault_of;
use crate::words::{bytes, number, numbers};
use bq_check::{CheckFault, Notes, NotesFault, NotesForm};
use bq_frame::Block;
use bq_insn::{DecodeFault, Text, decode, encode};
use bq_meaning::Ended;
use std::alloc::Global;
use std::io;

/// Where the generator of changes begins.
const FIRST_WORD: u64 = 0x9e37_79b9_7f4a_7c15;

/// What bytes are read as.
#[derive(Clone, Copy)]
enum Kind {
    Text,
    Notes(NotesForm),
}

fn form_of(word: &str) -> Option<NotesForm> {
    match word {
        "first" => Some(NotesForm::First),
        "second" => Some(NotesForm::Second),
        _ => None,
    }
}

fn kind_of(word: &str) -> Option<Kind> {
    match word {
        "text" => Some(Kind::Text),
        _ => form_of(word).map(Kind::Notes),
    }
}

/// The notes that bytes spell in a form.
pub(crate) fn read_notes(
    alloc: Global,
    form: NotesForm,
    bytes: &[u8],
) -> Result<Notes, NotesFault> {
    match form {
        NotesForm::First => Notes::read_v1(alloc, bytes),
        NotesForm::Second => Notes::read(alloc, bytes),
    }
}

/// The bytes of notes in a form.
pub(crate) fn notes_bytes(
    alloc: Global,
    form: NotesForm,
    notes: &Notes,
) -> Result<Vec<u8>, NotesFault> {
    match form {
        NotesForm::First => notes.bytes_v1(alloc),
        NotesForm::Second => Ok(notes.bytes(alloc)?),
    }
}

/// The number of the refusal of bytes, or 0.
fn refusal(alloc: Global, kind: Kind, bytes: &[u8]) -> u8 {
    match kind {
        Kind::Text => fault_of(alloc, bytes),
        Kind::Notes(form) => match read_notes(alloc, form, bytes) {
            Ok(_) => 0,
            Err(fault) => fault.reason().number(),
        },
    }
}

fn print_beginnings(rt: &impl Print, alloc: Global, kind: Kind, bytes: &[u8]) -> io::Result<()> {
    for end in 0..bytes.len() {
        print!(rt; " {}", refusal(alloc, kind, &bytes[..end]))?;
    }
    println!(rt; "")
}

/// Whether bytes are refused as a text, for another cause than memory, or are written again.
fn is_told_as_text(alloc: Global, bytes: &[u8]) -> bool {
    match decode(alloc, bytes) {
        Ok(text) => match encode(alloc, &text) {
            Ok(written) => written.as_slice() == bytes,
            Err(_) => false,
        },
        Err(fault) => fault != DecodeFault::OutOfMemory,
    }
}

/// The same of notes.
fn is_told_as_notes(alloc: Global, form: NotesForm, bytes: &[u8]) -> bool {
    match read_notes(alloc, form, bytes) {
        Ok(notes) => match notes_bytes(alloc, form, &notes) {
            Ok(written) => written.as_slice() == bytes,
            Err(_) => false,
        },
        Err(fault) => fault != NotesFault::OutOfMemory,
    }
}

fn is_told(alloc: Global, kind: Kind, bytes: &[u8]) -> bool {
    match kind {
        Kind::Text => is_told_as_text(alloc, bytes),
        Kind::Notes(form) => is_told_as_notes(alloc, form, bytes),
    }
}

/// The next word of a fixed generator (xorshift of 64 bits).
fn next_word(word: u64) -> u64 {
    let word = word ^ word.wrapping_shl(13);
    let word = word ^ (word >> 7);
    word ^ word.wrapping_shl(17)
}

/// Changes a byte of some; twice, they are as before.
fn change(bytes: &mut [u8], place: usize, bits: u8) {
    if let Some(byte) = bytes.get_mut(place) {
        *byte ^= bits;
    }
}

/// Whether the bytes are told while one of them, by the word, is another.
fn is_told_changed(alloc: Global, kind: Kind, bytes: &mut [u8], word: u64) -> bool {
    let place = (word >> 32) as usize;
    let place = place.checked_rem(bytes.len()).unwrap_or(0);
    let bits = (word % 255 + 1) as u8;
    change(bytes, place, bits);
    let is_told = is_told(alloc, kind, bytes);
    change(bytes, place, bits);
    is_told
}

fn print_changed(
    rt: &impl Print,
    alloc: Global,
    kind: Kind,
    count: u64,
    bytes: &mut [u8],
) -> io::Result<()> {
    let mut word = FIRST_WORD;
    let mut others: u64 = 0;
    for _ in 0..count {
        word = next_word(word);
        if !is_told_changed(alloc, kind, bytes, word) {
            others = others.wrapping_add(1);
        }
    }
    println!(rt; " tried {count}, other {others}")
}

/// A text by its bytes, the form of its notes, and the answer that they are to keep.
#[derive(Clone, Copy)]
struct Kept<'a> {
    text: &'a [u8],
    form: NotesForm,
    values: &'a [u64],
    ended: Ended,
}

/// Whether notes are refused for a text, for another cause than memory, or take the loop to the answer.
fn is_kept_by(alloc: Global, block: &mut Block, kept: Kept<'_>, text: Text, notes: Notes) -> bool {
    match certified_with(alloc, text, notes) {
        Ok(certified) => fold(&certified, 0, kept.values, block) == kept.ended,
        Err(fault) => fault != CheckFault::OutOfMemory,
    }
}

/// The same of the bytes of notes.
fn is_kept(alloc: Global, block: &mut Block, kept: Kept<'_>, notes: &[u8]) -> bool {
    match (
        decode(alloc, kept.text),
        read_notes(alloc, kept.form, notes),
    ) {
        (Ok(text), Ok(notes)) => is_kept_by(alloc, block, kept, text, notes),
        (Ok(_), Err(fault)) => fault != NotesFault::OutOfMemory,
        _ => false,
    }
}

/// How many of the other values of a byte do not keep the answer.
fn others_at(
    alloc: Global,
    block: &mut Block,
    kept: Kept<'_>,
    notes: &mut [u8],
    place: usize,
) -> u64 {
    let mut others: u64 = 0;
    for bits in 1..=255 {
        change(notes, place, bits);
        if !is_kept(alloc, block, kept, notes) {
            others = others.wrapping_add(1);
        }
        change(notes, place, bits);
    }
    others
}

fn print_replaced(
    rt: &impl Print,
    alloc: Global,
    block: &mut Block,
    kept: Kept<'_>,
    notes: &mut [u8],
) -> io::Result<()> {
    let mut others: u64 = 0;
    for place in 0..notes.len() {
        others = others.wrapping_add(others_at(alloc, block, kept, notes, place));
    }
    println!(rt; " tried {} bytes, other {others}", notes.len())
}

fn beginnings(rt: &impl Print, alloc: Global, rest: &str) -> io::Result<()> {
    let (word, digits) = rest.split_once(' ').unwrap_or((rest, ""));
    match (kind_of(word), bytes(alloc, digits)) {
        (Some(kind), Some(bytes)) => print_beginnings(rt, alloc, kind, bytes.as_slice()),
        _ => println!(rt; " ?"),
    }
}

fn changed(rt: &impl Print, alloc: Global, rest: &str) -> io::Result<()> {
    let (word, rest) = rest.split_once(' ').unwrap_or((rest, ""));
    let (count, digits) = rest.split_once(' ').unwrap_or((rest, ""));
    match (kind_of(word), number(count), bytes(alloc, digits)) {
        (Some(kind), Some(count), Some(mut bytes)) => {
            print_changed(rt, alloc, kind, count, bytes.as_mut_slice())
        }
        _ => println!(rt; " ?"),
    }
}

/// What is to be kept of a text with these bytes: the form of its notes, the answer, the steps and the values.
fn kept_of<'a>(form: &str, numbers: &'a [u64], text: &'a [u8]) -> Option<Kept<'a>> {
    let [acc, steps, values @ ..] = numbers else {
        return None;
    };
    Some(Kept {
        text,
        form: form_of(form)?,
        values,
        ended: Ended {
            acc: *acc,
            steps: *steps,
        },
    })
}

fn replaced(rt: &impl Print, alloc: Global, block: &mut Block, rest: &str) -> io::Result<()> {
    let (form, rest) = rest.split_once(' ').unwrap_or((rest, ""));
    let (words, rest) = rest.split_once(" = ").unwrap_or((rest, ""));
    let (text, notes) = rest.split_once(" = ").unwrap_or((rest, ""));
    let numbers = numbers(alloc, words)?;
    match (numbers, bytes(alloc, text), bytes(alloc, notes)) {
        (Some(numbers), Some(text), Some(mut notes)) => {
            match kept_of(form, numbers.as_slice(), text.as_slice()) {
                Some(kept) => print_replaced(rt, alloc, block, kept, notes.as_mut_slice()),
                None => println!(rt; " ?"),
            }
        }
        _ => println!(rt; " ?"),
    }
}

/// Prints what comes of a line about bytes that are cut short or changed.
pub(crate) fn answer(
    rt: &impl Print,
    alloc: Global,
    block: &mut Block,
    verb: &str,
    rest: &str,
) -> io::Result<()> {
    match verb {
        "beginnings" => beginnings(rt, alloc, rest),
        "changed" => changed(rt, alloc, rest),
        _ => replaced(rt, alloc, block, rest),
    }
}
