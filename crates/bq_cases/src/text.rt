//! Texts: their bytes in hexadecimal digits, and their listing.
//!
//! - `asm SOURCE`: the bytes that a source is assembled to, and what is written of these bytes.
//! - `decode HEX`: what is written of the text that these bytes spell.
//! - `opcodes FIELDS HEX`: for each opcode of the digits the fault of a unit with these seven bytes behind it, or 0.
//! - `over N LINE`: a source of a line, N lines `exit` and the label `end`: its units, its bytes, how many of the units
//!   are `exit`, and its first unit.
//! - `exits N`: the same of the bytes of N units `exit`.
//! - `register N`: the register of this number.

use crate::refusal::print_refusal;
use crate::words::{assembled, bytes, number, print_digits};
use bq_asm::{AsmFault, assemble, disassemble};
use bq_insn::{DecodeFault, Register, Text, decode, encode};
use std::alloc::{AllocError, Global};
use std::io;

const EXIT: [u8; 8] = [0x95, 0, 0, 0, 0, 0, 0, 0];

fn print_fault(rt: &impl Print, fault: AsmFault) -> io::Result<()> {
    let reason = fault.reason();
    match fault {
        AsmFault::Syntax { line } | AsmFault::Label { line } => {
            println!(rt; " refused {reason} at line {line}")
        }
        _ => print_refusal(rt, reason, None),
    }
}

pub(crate) fn print_decode_fault(rt: &impl Print, fault: DecodeFault) -> io::Result<()> {
    let unit = match fault {
        DecodeFault::At { unit, .. } => Some(unit),
        _ => None,
    };
    print_refusal(rt, fault.reason(), unit)
}

pub(crate) fn print_lines(rt: &impl Print, lines: &str) -> io::Result<()> {
    for line in lines.split_terminator('\n') {
        println!(rt; " {line}")?;
    }
    Ok(())
}

/// Prints what is written of a text.
fn print_listing(rt: &impl Print, alloc: Global, text: &Text) -> io::Result<()> {
    print_lines(rt, disassemble(alloc, text)?.as_str())
}

/// Prints what is written of the text that bytes spell.
fn print_text(rt: &impl Print, alloc: Global, bytes: &[u8]) -> io::Result<()> {
    match decode(alloc, bytes) {
        Ok(text) => print_listing(rt, alloc, &text),
        Err(fault) => print_decode_fault(rt, fault),
    }
}

/// Prints bytes in hexadecimal digits, and what is written of the text that they spell.
fn print_bytes(rt: &impl Print, alloc: Global, bytes: &[u8]) -> io::Result<()> {
    print_digits(rt, alloc, bytes)?;
    print_text(rt, alloc, bytes)
}

pub(crate) fn print_assembled(rt: &impl Print, alloc: Global, text: &Text) -> io::Result<()> {
    print_bytes(rt, alloc, encode(alloc, text)?.as_slice())
}

fn asm(rt: &impl Print, alloc: Global, rest: &str) -> io::Result<()> {
    match assembled(alloc, rest)? {
        Ok(text) => print_assembled(rt, alloc, &text),
        Err(fault) => print_fault(rt, fault),
    }
}

/// The fault of bytes, or 0.
pub(crate) fn fault_of(alloc: Global, bytes: &[u8]) -> u8 {
    match decode(alloc, bytes) {
        Ok(_) => 0,
        Err(fault) => fault.reason().number(),
    }
}

/// The fault of a unit with these fields, or 0.
fn unit_fault(alloc: Global, opcode: u8, fields: &[u8]) -> Result<u8, AllocError> {
    let mut unit = Vec::new(alloc);
    unit.push(opcode)?;
    unit.extend_from_slice(fields)?;
    Ok(fault_of(alloc, unit.as_slice()))
}

/// Prints for each opcode the fault of a unit with these fields, or 0.
fn print_faults(rt: &impl Print, alloc: Global, fields: &[u8], opcodes: &[u8]) -> io::Result<()> {
    for opcode in opcodes {
        print!(rt; " {}", unit_fault(alloc, *opcode, fields)?)?;
    }
    println!(rt; "")
}

fn opcodes(rt: &impl Print, alloc: Global, rest: &str) -> io::Result<()> {
    let (fields, opcodes) = rest.split_once(' ').unwrap_or((rest, ""));
    match (bytes(alloc, fields), bytes(alloc, opcodes)) {
        (Some(fields), Some(opcodes)) => {
            print_faults(rt, alloc, fields.as_slice(), opcodes.as_slice())
        }
        _ => println!(rt; " ?"),
    }
}

fn is_exit(unit: &[u8]) -> bool {
    matches!(unit, [0x95, 0, 0, 0, 0, 0, 0, 0])
}

/// Prints the size of a text by its bytes, and its units as far as they are alike.
fn print_units(rt: &impl Print, alloc: Global, units: usize, bytes: &[u8]) -> io::Result<()> {
    let exits = bytes.chunks(8).filter(|unit| is_exit(unit)).count();
    print!(rt; " units {units} bytes {} exits {exits} first", bytes.len())?;
    print_digits(rt, alloc, bytes.get(..8).unwrap_or(&[]))
}

fn print_size(rt: &impl Print, alloc: Global, text: &Text) -> io::Result<()> {
    print_units(rt, alloc, text.units(), encode(alloc, text)?.as_slice())
}

/// A line, so many lines `exit` and the label `end`.
fn source_over(alloc: Global, count: u64, line: &str) -> Result<String, AllocError> {
    let mut source = String::from_str(alloc, line)?;
    source.push('\n')?;
    for _ in 0..count {
        source.push_str("exit\n")?;
    }
    source.push_str("end:\n")?;
    Ok(source)
}

fn over(rt: &impl Print, alloc: Global, count: u64, line: &str) -> io::Result<()> {
    match assemble(alloc, source_over(alloc, count, line)?.as_str()) {
        Ok(text) => print_size(rt, alloc, &text),
        Err(fault) => print_fault(rt, fault),
    }
}

/// The bytes of so many units `exit`.
pub(crate) fn exit_bytes(alloc: Global, count: u64) -> Result<Vec<u8>, AllocError> {
    let mut bytes = Vec::new(alloc);
    for _ in 0..count {
        bytes.extend_from_slice(&EXIT)?;
    }
    Ok(bytes)
}

fn exits(rt: &impl Print, alloc: Global, count: u64) -> io::Result<()> {
    match decode(alloc, exit_bytes(alloc, count)?.as_slice()) {
        Ok(text) => print_size(rt, alloc, &text),
        Err(fault) => print_decode_fault(rt, fault),
    }
}

fn print_register(rt: &impl Print, number: u64) -> io::Result<()> {
    match u8::try_from(number).ok().and_then(Register::new) {
        Some(register) => println!(rt; " r{}", register.number()),
        None => println!(rt; " none"),
    }
}

/// Prints what comes of a line that begins with a number.
fn numbered(rt: &impl Print, alloc: Global, verb: &str, rest: &str) -> io::Result<()> {
    let (word, line) = rest.split_once(' ').unwrap_or((rest, ""));
    match (verb, number(word)) {
        ("over", Some(count)) => over(rt, alloc, count, line),
        ("exits", Some(count)) => exits(rt, alloc, count),
        ("register", Some(number)) => print_register(rt, number),
        _ => println!(rt; " ?"),
    }
}

/// Prints what comes of a line about texts.
pub(crate) fn answer(rt: &impl Print, alloc: Global, verb: &str, rest: &str) -> io::Result<()> {
    match verb {
        "asm" => asm(rt, alloc, rest),
        "decode" => match bytes(alloc, rest) {
            Some(bytes) => print_text(rt, alloc, bytes.as_slice()),
            None => println!(rt; " ?"),
        },
        "opcodes" => opcodes(rt, alloc, rest),
        _ => numbered(rt, alloc, verb, rest),
    }
}
