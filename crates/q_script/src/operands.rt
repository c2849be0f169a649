ghost use Rattle.std.specs.Prelude.{◌≡◌, ◌↔◌, IsTrue};
ghost use Rattle.q_script.specs.Line.{IsCode, IsWord, IsProgram, IsStore, IsAsk, IsDeliver, IsJournal, Judges};
ghost use Rattle.q_script.specs.Records.{AreDigits, IsNumber, IsValue};
ghost use Rattle.q_script.specs.Words.{IsNumeral, IsPair};

use crate::call_line::CallLine;
use crate::line::{LineFault, ScriptLine};
use crate::numeral::{leading, number, pair};
use crate::records::value_bytes;
use crate::text::cut;
use hex::FromHexError;
use std::alloc::Global;

/// The bytes that hexadecimal digits spell.
fn decoded(alloc: Global, digits: &str) -> Result<Vec<u8>, LineFault>
    ensures { Judges (λ text bytes. AreDigits text bytes.items) digits.now result }
{
    match hex::decode(alloc, digits) {
        Ok(bytes) => Ok(bytes),
        Err(FromHexError::OutOfMemory) => Err(LineFault::OutOfMemory),
        Err(_) => Err(LineFault::Form),
    }
}

/// The bytes that hexadecimal digits spell, one byte at least.
pub fn code(alloc: Global, digits: &str) -> Result<Vec<u8>, LineFault>
    ensures { Judges (λ text code. IsCode text code.items) digits.now result }
{
    if digits.is_empty() {
        return Err(LineFault::Form);
    }
    decoded(alloc, digits)
}

/// The bytes of the number that a text spells, as they are stored.
fn numbered(alloc: Global, text: &str) -> Result<Vec<u8>, LineFault>
    ensures { Judges (λ text bytes. IsNumber text bytes.items) text.now result }
{
    let Some(number) = number(text) else {
        return Err(LineFault::Form);
    };
    let value = value_bytes(number);
    match Vec::from_slice(alloc, value.bytes()) {
        Ok(bytes) => Ok(bytes),
        Err(_) => Err(LineFault::OutOfMemory),
    }
}

/// The bytes of the value that a text spells, however many.
pub fn value(alloc: Global, text: &str) -> Result<Vec<u8>, LineFault>
    ensures { Judges (λ text value. IsValue text value.items) text.now result }
{
    match text.strip_prefix('x') {
        Some(digits) => decoded(alloc, digits),
        None => numbered(alloc, text),
    }
}

/// The event of `program` with the operands that a text spells.
pub fn program(alloc: Global, text: &str) -> Result<ScriptLine, LineFault>
    ensures { Judges IsProgram text.now result }
{
    let Some((node, digits)) = leading(text, ' ') else {
        return Err(LineFault::Form);
    };
    match code(alloc, digits) {
        Ok(code) => Ok(ScriptLine::Call(CallLine::Program { node, code })),
        Err(fault) => Err(fault),
    }
}

/// The event of `store` with the operands that a text spells.
pub fn store(alloc: Global, text: &str) -> Result<ScriptLine, LineFault>
    ensures { Judges IsStore text.now result }
{
    let Some((node, rest)) = leading(text, ' ') else {
        return Err(LineFault::Form);
    };
    let value = value(alloc, rest)?;
    Ok(ScriptLine::Call(CallLine::Store { node, value }))
}

/// The event of `ask` with the operands that a text spells.
pub fn ask(text: &str) -> Result<ScriptLine, LineFault>
    ensures { Judges IsAsk text.now result }
{
    let Some((node, rest)) = leading(text, ' ') else {
        return Err(LineFault::Form);
    };
    let (program, start) = two(rest)?;
    Ok(ScriptLine::Call(CallLine::Ask {
        node,
        program,
        start,
    }))
}

/// The event of `deliver` with the operands that a text spells.
pub fn deliver(text: &str) -> Result<ScriptLine, LineFault>
    ensures { Judges IsDeliver text.now result }
{
    let (message, node) = two(text)?;
    Ok(ScriptLine::Deliver { message, node })
}

/// The two numbers with a space between that are operands of a command.
fn two(text: &str) -> Result<(u64, u64), LineFault>
    ensures { Judges (IsPair 32) text.now result }
{
    match pair(text, ' ') {
        Some(numbers) => Ok(numbers),
        None => Err(LineFault::Form),
    }
}

/// The one number that is the operand of a command.
pub fn one(text: &str) -> Result<u64, LineFault>
    ensures { Judges IsNumeral text.now result }
{
    match number(text) {
        Some(number) => Ok(number),
        None => Err(LineFault::Form),
    }
}

/// One byte at least, and no space.
fn is_word(text: &str) -> bool
    ensures { IsTrue result ↔ IsWord text.now }
{
    match cut(text, ' ') {
        Some(_) => false,
        None => !text.is_empty(),
    }
}

/// The event of `journal` with the operands that a text spells.
pub fn journal(alloc: Global, text: &str) -> Result<ScriptLine, LineFault>
    ensures { Judges IsJournal text.now result }
{
    let Some((node, file)) = leading(text, ' ') else {
        return Err(LineFault::Form);
    };
    if !is_word(file) {
        return Err(LineFault::Form);
    }
    match String::from_str(alloc, file) {
        Ok(file) => Ok(ScriptLine::Journal { node, file }),
        Err(_) => Err(LineFault::OutOfMemory),
    }
}
