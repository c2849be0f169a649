//! A caller of `bq_asm`.

ghost use Rattle.std.specs.Prelude.{◌≡◌, List, IfOk};
ghost use Rattle.std.specs.String.{string_bytes};
ghost use Rattle.bq_insn.specs.declared.insn.Insn.{Insn};
ghost use Rattle.bq_insn.specs.Slots.{IsText};
ghost use Rattle.bq_asm.specs.Source.{IsSource};

use bq_asm::laws::disassembly_spells_the_text;
use bq_asm::{AsmFault, assemble, disassemble};
use std::alloc::Global;

/// A source in the one form that has no labels, comments and spaces to spare: it spells the same text.
pub fn written_anew(alloc: Global, source: &str) -> Result<String, AsmFault>
    ensures { (t : List Insn) → IsText t → IsSource source.now t
        → IfOk result (λ anew. IsSource (string_bytes anew) t) }
{
    disassembly_spells_the_text();
    let text = assemble(alloc, source)?;
    let anew = disassemble(alloc, &text)?;
    Ok(anew)
}
