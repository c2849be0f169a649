//! Laws of sources and texts, the first three of them contracts of functions that do nothing.

ghost use Rattle.std.specs.Prelude.{◌≡◌, ℕ, List, MatchResult};
ghost use Rattle.bq_insn.specs.Slots.{IsText};
ghost use Rattle.bq_asm.specs.Source.{IsSource, HasOneFault, disassembly};

use crate::assembler::assemble;
use crate::disassembler::disassemble;
use crate::fault::AsmFault;
use bq_insn::{Insn, Text};
use std::alloc::Global;

/// A source spells one text at most.
pub fn one_text()
    ensures { (source : List ℕ) (t u : List Insn) → IsSource source t → IsSource source u → t ≡ u }
{}

/// A source has one fault at most, besides want of memory.
pub fn one_fault()
    ensures { (source : List ℕ) → HasOneFault source }
{}

/// What is written of a text spells it.
pub fn disassembly_spells_the_text()
    ensures { (t : List Insn) → IsText t → IsSource (disassembly t) t }
{}

/// What is written of a text is assembled to that text: the one error is that memory ran out.
pub fn written_and_assembled(alloc: Global, text: &Text) -> Result<Text, AsmFault>
    ensures { MatchResult result (λ t. t ≡ text.now) (λ e. e ≡ AsmFault.OutOfMemory) }
{
    let source = disassemble(alloc, text)?;
    disassembly_spells_the_text();
    assemble(alloc, source.as_str())
}
