//! Calls that take memory: `memory NAME`, each with values of its own. Where memory is refused they are made once more,
//! so that whichever one request for it is refused, the same is printed: each call gives its answer, or tells the want
//! of memory.
//!
//! - `memory source`: what is written of a source with a label, once it is assembled.
//! - `memory text`: how many bytes are written of 64 units `exit` that were read, and whether they are the same.
//! - `memory flow`: the longest path of `exit`.
//! - `memory notes`: how many notes five bytes spell in the second form.
//! - `memory spelled`: how many bytes are written of the same in the first form, and whether they are the same.
//! - `memory found`: how many notes are found of `mov64 r0, 0 / exit`.

use crate::refusal::print_refusal;
use crate::text::{exit_bytes, print_lines};
use bq_asm::{AsmFault, assemble, disassemble};
use bq_check::{CheckFault, Notes, NotesFault};
use bq_flow::{Flow, FlowFault};
use bq_insn::{DecodeFault, decode, encode};
use bq_verify::verify;
use reasons::Reason;
use std::alloc::{AllocError, Global};
use std::io;

/// One note, by which nothing is known.
const NOTE: [u8; 5] = [1, 0, 0, 0, 0];

fn no_memory(_error: AllocError) -> Reason {
    Reason::OutOfMemory
}

/// So many bytes, and whether they are what was read.
fn same_bytes(alloc: Global, written: &[u8], read: &[u8]) -> Result<String, AllocError> {
    format!(in alloc; "{} {}", written.len(), written == read)
}

fn source(alloc: Global) -> Result<String, Reason> {
    let text = assemble(alloc, "ja over\nexit\nover:\nexit\n").map_err(AsmFault::reason)?;
    disassemble(alloc, &text).map_err(no_memory)
}

fn text_again(alloc: Global, exits: &[u8]) -> Result<String, Reason> {
    let text = decode(alloc, exits).map_err(DecodeFault::reason)?;
    let written = encode(alloc, &text).map_err(no_memory)?;
    same_bytes(alloc, written.as_slice(), exits).map_err(no_memory)
}

fn text(alloc: Global) -> Result<String, Reason> {
    let exits = exit_bytes(alloc, 64).map_err(no_memory)?;
    text_again(alloc, exits.as_slice())
}

fn flow(alloc: Global) -> Result<String, Reason> {
    let text = decode(alloc, b"\x95\0\0\0\0\0\0\0").map_err(DecodeFault::reason)?;
    let flow = Flow::of(alloc, &text).map_err(FlowFault::reason)?;
    format!(in alloc; "{}", flow.longest()).map_err(no_memory)
}

fn notes(alloc: Global) -> Result<String, Reason> {
    let notes = Notes::read(alloc, &NOTE).map_err(NotesFault::reason)?;
    format!(in alloc; "{}", notes.len()).map_err(no_memory)
}

fn spelled(alloc: Global) -> Result<String, Reason> {
    let notes = Notes::read_v1(alloc, &NOTE).map_err(NotesFault::reason)?;
    let written = notes.bytes_v1(alloc).map_err(NotesFault::reason)?;
    same_bytes(alloc, written.as_slice(), &NOTE).map_err(no_memory)
}

fn found(alloc: Global) -> Result<String, Reason> {
    let text = decode(alloc, b"\xb7\0\0\0\0\0\0\0\x95\0\0\0\0\0\0\0").map_err(DecodeFault::reason)?;
    let notes = verify(alloc, &text).map_err(CheckFault::reason)?;
    format!(in alloc; "{}", notes.len()).map_err(no_memory)
}

/// What comes of the calls of this name.
fn made(alloc: Global, name: &str) -> Result<String, Reason> {
    match name {
        "source" => source(alloc),
        "text" => text(alloc),
        "flow" => flow(alloc),
        "notes" => notes(alloc),
        "spelled" => spelled(alloc),
        "found" => found(alloc),
        _ => String::from_str(alloc, "?").map_err(no_memory),
    }
}

/// The same, and once more where memory is refused.
fn made_again(alloc: Global, name: &str) -> Result<String, Reason> {
    match made(alloc, name) {
        Err(Reason::OutOfMemory) => made(alloc, name),
        other => other,
    }
}

/// Prints what comes of the calls of this name.
pub(crate) fn answer(rt: &impl Print, alloc: Global, name: &str) -> io::Result<()> {
    match made_again(alloc, name) {
        Ok(lines) => print_lines(rt, lines.as_str()),
        Err(reason) => print_refusal(rt, reason, None),
    }
}
