//! What a line of assembler text says.

use crate::jump::Jump;
use bq_insn::Insn;

/// An instruction, or a jump to a label.
#[derive(Clone, Copy)]
pub enum Statement<'a> {
    /// An instruction that says all of itself.
    Complete(Insn),
    /// A jump that tells its distance by the name of a label.
    JumpTo {
        /// The jump.
        jump: Jump,
        /// The name.
        label: &'a str,
    },
}

/// What a line says.
#[derive(Clone, Copy)]
pub enum Line<'a> {
    /// Nothing.
    Blank,
    /// It defines this name.
    Label(&'a str),
    /// A statement.
    Instruction(Statement<'a>),
}
