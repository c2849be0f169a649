//! A caller of `bq_insn`.

ghost use Rattle.std.specs.Prelude.{◌≡◌, List, IfOk};
ghost use Rattle.bq_insn.specs.Slots.{insn_at, spelling, IsText};
ghost use Rattle.bq_insn.specs.declared.insn.Insn.{Insn as Decoded};

use bq_insn::{DecodeFault, Insn, decode};
use std::alloc::Global;

/// The instruction that begins at a unit of the text that the bytes spell, if one does.
pub fn instruction_at(alloc: Global, bytes: &[u8], unit: usize) -> Result<Option<Insn>, DecodeFault>
    ensures { (text : List Decoded) → IsText text → bytes.now ≡ spelling text
        → IfOk result (λ insn. insn ≡ insn_at text unit) }
{
    let text = decode(alloc, bytes)?;
    Ok(text.at(unit))
}
