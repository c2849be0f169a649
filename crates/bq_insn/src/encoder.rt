//! Texts to bytes.

ghost use Rattle.std.specs.Prelude.{◌≡◌, ◌++◌, ◌<◌, IfOk, OnOk};
ghost use Rattle.bq_insn.specs.Insn.{unit_bytes, insn_bytes};
ghost use Rattle.bq_insn.specs.Slots.{spelling, IsText};

use crate::fields::{Fields, ZERO};
use crate::insn::Insn;
use crate::text::Text;
use std::alloc::{AllocError, Global};

impl Fields {
    /// The eight bytes of a unit (section 3.1), the offset and the `imm` in little-endian order.
    #[tactic(auto, unfolding(crate::specs::Insn::unit_bytes))]
    fn bytes(&self) -> [u8; 8]
        requires dst { self.now.dst < 16 }
        requires src { self.now.src < 16 }
        ensures { result ≡ unit_bytes self.now }
    {
        let [o0, o1] = self.offset.to_le_bytes();
        let [i0, i1, i2, i3] = self.imm.to_le_bytes();
        [
            self.opcode,
            self.dst + 16 * self.src,
            o0,
            o1,
            i0,
            i1,
            i2,
            i3,
        ]
    }
}

/// Appends the bytes of an instruction: 16 of a wide one, else 8. After an error the vector may hold
/// a part of them.
fn push_bytes(bytes: &mut Vec<u8>, insn: &Insn) -> Result<(), AllocError>
    ensures { OnOk result (bytes.new.items ≡ bytes.old.items ++ insn_bytes insn.now) }
{
    bytes.extend_from_slice(&insn.fields().bytes())?;
    if let Insn::Wide { value, .. } = insn {
        let high = Fields {
            imm: (*value / 0x1_0000_0000) as u32,
            ..ZERO
        };
        bytes.extend_from_slice(&high.bytes())?;
    }
    Ok(())
}

/// The bytes of a text, 8 for each unit. They are the only bytes that [`decode`] reads as this text.
///
/// The one error is that memory ran out (99 OutOfMemory).
///
/// [`decode`]: crate::decode
pub fn encode(alloc: Global, text: &Text) -> Result<Vec<u8>, AllocError>
    ensures text { IsText text.now }
    ensures spelled { IfOk result (λ bytes. bytes.items ≡ spelling text.now) }
{
    let mut bytes = Vec::new(alloc);
    for slot in &text.slots {
        if let Some(insn) = slot {
            push_bytes(&mut bytes, insn)?;
        }
    }
    Ok(bytes)
}
