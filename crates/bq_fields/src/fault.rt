//! What can be wrong at a unit, and the reason that is told of it.

ghost use Rattle.std.specs.Prelude.{◌≡◌};
ghost use Rattle.bq_fields.specs.Reasons.{unit_reason};

use reasons::{Reason, told};

/// What is wrong at a unit.
#[derive(Clone, Copy, Debug, PartialEq, Eq)]
pub enum UnitFault {
    /// 3: the first byte is neither an opcode that is taken nor one that is left out.
    BadOpcode,
    /// 4: a register number is above 10, whether or not the opcode uses that register.
    BadRegister,
    /// 5: a field that the opcode does not use is not 0, or in the second unit of a wide instruction
    /// something stands beside its `imm`.
    UnusedField,
    /// 6: a used field has a value that its opcode does not list: an offset of a division or a
    /// remainder above 1, an offset of a move that is no size of a sign extension at its width, or an
    /// `imm` of a byte swap that is not 16, 32 or 64.
    BadField,
    /// 7: the second unit of a wide instruction is missing.
    CutWide,
    /// 8: an instruction of RFC 9669 that is left out: CALL (0x85), an atomic operation
    /// (0xc3, 0xdb), legacy packet access (0x20, 0x28, 0x30, 0x40, 0x48, 0x50), or 0x18 with `src`
    /// not 0 (maps, variables and code addresses).
    LeftOut,
}

impl UnitFault {
    /// The reason by which the fault is told, 3 to 8.
    pub fn reason(self) -> Reason
        ensures { result ≡ unit_reason self }
    {
        told!(self, UnitFault: BadOpcode, BadRegister, UnusedField, BadField, CutWide, LeftOut)
    }
}
