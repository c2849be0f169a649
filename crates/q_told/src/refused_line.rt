//! A line of a script that was refused, in words for a person.

use crate::refusal::{Refusal, RefusedLine};
use bq_explain::{explain_bytes, explain_code, of_event, write_shown};
use bq_state::Bounds;
use q_script::{CallLine, Line, LineFault as Unread, ScriptLine};
use std::alloc::{AllocError, Global};

/// The bytes of the program that a line registers; none where it registers none.
fn code_of(alloc: Global, text: &str) -> Result<Vec<u8>, AllocError> {
    match ScriptLine::read(alloc, text) {
        Ok(ScriptLine::Call(CallLine::Program { code, .. })) => Ok(code),
        Ok(_) | Err(Unread::Form) => Ok(Vec::new(alloc)),
        Err(Unread::OutOfMemory) => Err(AllocError),
    }
}

/// Writes which instruction of the program of these bytes is refused, with what is known there; nothing of a refusal
/// that is of no program.
///
/// The one error is that memory ran out (99 OutOfMemory); a part may have been written then.
pub fn write_instruction(
    alloc: Global,
    out: &mut String,
    code: &[u8],
    refusal: &Refusal,
) -> Result<(), AllocError> {
    let told = match refusal {
        Refusal::Program(fault) => explain_code(alloc, code, Bounds::all(), *fault)?,
        Refusal::Bytes(fault) => explain_bytes(alloc, code, *fault)?,
        _ => None,
    };
    match told {
        Some(told) => out.push_str(told.as_str()),
        None => Ok(()),
    }
}

/// What would satisfy what refuses a line with this text.
fn write_reason(
    alloc: Global,
    out: &mut String,
    text: &str,
    refusal: &Refusal,
) -> Result<(), AllocError> {
    match refusal {
        Refusal::Program(_) | Refusal::Bytes(_) => {
            let code = code_of(alloc, text)?;
            write_instruction(alloc, out, code.as_slice(), refusal)
        }
        refusal => {
            let words = of_event(refusal.reason());
            if words.is_empty() {
                return Ok(());
            }
            writeln!(out, "{words}")
        }
    }
}

/// Writes the number of a line of a script that was refused and the line itself; then its refusal; and then what would
/// satisfy it, of a program the instruction with what is known there.
///
/// The one error is that memory ran out (99 OutOfMemory); a part may have been written then.
pub fn write_refused_line(
    alloc: Global,
    out: &mut String,
    fault: RefusedLine,
    text: &str,
) -> Result<(), AllocError> {
    let RefusedLine { line, refusal } = fault;
    write!(out, "line {line}: ")?;
    write_shown(out, text)?;
    writeln!(out, "\n{refusal}")?;
    write_reason(alloc, out, text, &refusal)
}
