//! The lines that call a node.

ghost use Rattle.std.specs.Prelude.{◌≡◌};
ghost use Rattle.q_script.specs.Line.{node_of};

use crate::line::{Line, LineFault, ScriptLine};
use std::alloc::Global;

/// A line that calls a node.
#[derive(Drop)]
pub enum CallLine {
    /// `program NODE HEX`: register at a node the program whose bytes are spelled in hexadecimal digits.
    Program {
        /// The node.
        node: u64,
        /// The program's bytes, one at least.
        code: Vec<u8>,
    },
    /// `store NODE VALUE`: begin to store a value at a node.
    Store {
        /// The node.
        node: u64,
        /// The bytes of the value, however many.
        value: Vec<u8>,
    },
    /// `ask NODE PROGRAM START`: ask a node for a program's answer.
    Ask {
        /// The node.
        node: u64,
        /// The program's number at this node.
        program: u64,
        /// The accumulator that the program begins with.
        start: u64,
    },
}

impl CallLine {
    /// The node that the line names.
    pub fn node(&self) -> u64
        ensures { result ≡ node_of self.now }
    {
        match self {
            CallLine::Program { node, .. }
            | CallLine::Store { node, .. }
            | CallLine::Ask { node, .. } => *node,
        }
    }
}

impl Line for CallLine {
    ghost use Rattle.q_script.specs.Line.{SpellsCall};

    ghost spells = { SpellsCall };

    fn read(alloc: Global, text: &str) -> Result<CallLine, LineFault> {
        match ScriptLine::read(alloc, text) {
            Ok(ScriptLine::Call(line)) => Ok(line),
            Ok(_) => Err(LineFault::Form),
            Err(fault) => Err(fault),
        }
    }
}
