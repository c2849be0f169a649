//! The operands of lines, behind the word and its space.

ghost use Rattle.q_script.specs.Line.{Judges};
ghost use Rattle.q_asker.specs.Script.{IsAsk, IsProgram, IsStore};

use crate::script::ClientLine;
use q_script::{LineFault, code, pair, value};
use std::alloc::Global;

/// The line `program` with these digits.
pub fn program(alloc: Global, digits: &str) -> Result<ClientLine, LineFault>
    ensures { Judges IsProgram digits.now result }
{
    match code(alloc, digits) {
        Ok(code) => Ok(ClientLine::Program { code }),
        Err(fault) => Err(fault),
    }
}

/// The line `store` with this value.
pub fn store(alloc: Global, text: &str) -> Result<ClientLine, LineFault>
    ensures { Judges IsStore text.now result }
{
    match value(alloc, text) {
        Ok(value) => Ok(ClientLine::Store { value }),
        Err(fault) => Err(fault),
    }
}

/// The line `ask` with these two numbers.
pub fn ask(text: &str) -> Result<ClientLine, LineFault>
    ensures { Judges IsAsk text.now result }
{
    match pair(text, ' ') {
        Some((program, start)) => Ok(ClientLine::Ask { program, start }),
        None => Err(LineFault::Form),
    }
}
