//! The scripts of a client.

ghost use Rattle.std.specs.Prelude.{IfErr, IfOk};
ghost use Rattle.q_script.specs.Line.{Judges};
ghost use Rattle.q_asker.specs.Script.{AreLines, IsFault, SpellsLine};

use crate::operands::{ask, program, store};
use q_script::{LineFault, ScriptFault, without_last_feed};
use std::alloc::Global;

/// A line of a client's script.
#[derive(Drop)]
pub enum ClientLine {
    /// `program HEX`: register the program whose bytes are spelled in hexadecimal digits.
    Program {
        /// The program's bytes, one at least.
        code: Vec<u8>,
    },
    /// `store VALUE`: store a value.
    Store {
        /// The value's bytes, however many.
        value: Vec<u8>,
    },
    /// `ask PROGRAM START`: ask for a program's answer.
    Ask {
        /// The program's number at the node.
        program: u64,
        /// The accumulator that the program begins with.
        start: u64,
    },
}

/// The line that a text spells.
pub(crate) fn read_line(alloc: Global, text: &str) -> Result<ClientLine, LineFault>
    ensures { Judges SpellsLine text.now result }
{
    if let Some(digits) = text.strip_prefix("program ") {
        return program(alloc, digits);
    }
    if let Some(value) = text.strip_prefix("store ") {
        return store(alloc, value);
    }
    if let Some(numbers) = text.strip_prefix("ask ") {
        return ask(numbers);
    }
    Err(LineFault::Form)
}

/// The lines that a text spells; an empty text has none. Refused are 9 Syntax, with the least line that is of another
/// form, counted from 1, and 99.
pub fn read_client_script(alloc: Global, source: &str) -> Result<Vec<ClientLine>, ScriptFault>
    ensures read { IfOk result (λ lines. AreLines source.now lines.items) }
    ensures fault { IfErr result (IsFault source.now) }
{
    let mut lines = Vec::new(alloc);
    if source.is_empty() {
        return Ok(lines);
    }
    for text in without_last_feed(source).split('\n') {
        let line = match read_line(alloc, text) {
            Ok(line) => line,
            Err(LineFault::Form) => {
                return Err(ScriptFault::Syntax {
                    line: lines.len() + 1,
                });
            }
            Err(LineFault::OutOfMemory) => return Err(ScriptFault::OutOfMemory),
        };
        if lines.push(line).is_err() {
            return Err(ScriptFault::OutOfMemory);
        }
    }
    Ok(lines)
}
