//! What an opcode makes of the fields of a unit.

ghost use Rattle.std.specs.Prelude.{◌≡◌};
ghost use Rattle.bq_fields.specs.Uses.{keeps_zero, is_listed, keep_zeros, are_listed, fields_fault};

use crate::fault::UnitFault;

/// What an opcode makes of a field.
#[derive(Clone, Copy, Debug, PartialEq, Eq)]
pub enum FieldUse {
    /// It is 0.
    Unused,
    /// It has any value. A register number is at most 10 in any field.
    Free,
    /// 0 or 1, for unsigned or signed.
    ZeroOrOne,
    /// 0, 8 or 16, the bits of a sign extension to 32 bits.
    ExtensionTo32,
    /// 0, 8, 16 or 32, the bits of a sign extension to 64 bits.
    ExtensionTo64,
    /// 16, 32 or 64, the bits of a byte swap.
    SwapBits,
}

/// What an opcode makes of each field.
#[derive(Clone, Copy, Debug, PartialEq, Eq)]
pub struct FieldUses {
    /// The use of `dst`: a register.
    pub dst: FieldUse,
    /// The use of `src`: a register.
    pub src: FieldUse,
    /// The use of `offset`: a distance, or what kind of operation it is.
    pub offset: FieldUse,
    /// The use of `imm`: a number, a distance, or the bits of a byte swap.
    pub imm: FieldUse,
}

impl FieldUse {
    /// A field that is not used is 0.
    fn keeps_zero(self, value: u32) -> bool
        ensures { result ≡ keeps_zero self value }
    {
        match self {
            FieldUse::Unused => value == 0,
            _ => true,
        }
    }

    /// A field that is used has one of the values that are listed for it.
    fn lists(self, value: u32) -> bool
        ensures { result ≡ is_listed self value }
    {
        match self {
            FieldUse::ZeroOrOne => value < 2,
            FieldUse::ExtensionTo32 => value == 0 || value == 8 || value == 16,
            FieldUse::ExtensionTo64 => value == 0 || value == 8 || value == 16 || value == 32,
            FieldUse::SwapBits => value == 16 || value == 32 || value == 64,
            FieldUse::Unused | FieldUse::Free => true,
        }
    }
}

impl FieldUses {
    /// All fields that are not used are 0.
    fn keep_zeros(self, dst: u8, src: u8, offset: u16, imm: u32) -> bool
        ensures { result ≡ keep_zeros self dst src offset imm }
    {
        self.dst.keeps_zero(u32::from(dst))
            && self.src.keeps_zero(u32::from(src))
            && self.offset.keeps_zero(u32::from(offset))
            && self.imm.keeps_zero(imm)
    }

    /// All fields that are used have listed values.
    fn list(self, offset: u16, imm: u32) -> bool
        ensures { result ≡ are_listed self offset imm }
    {
        self.offset.lists(u32::from(offset)) && self.imm.lists(imm)
    }

    /// What is first wrong in the fields of a unit with these uses: 4 BadRegister for a register number above 10,
    /// 8 LeftOut for a wide instruction with a source, 5 UnusedField for a field that is not used and not 0,
    /// 6 BadField for a value that is not listed.
    pub fn fault(self, wide: bool, dst: u8, src: u8, offset: u16, imm: u32) -> Option<UnitFault>
        ensures { result ≡ fields_fault self wide dst src offset imm }
    {
        if dst > 10 || src > 10 {
            Some(UnitFault::BadRegister)
        } else if wide && src != 0 {
            Some(UnitFault::LeftOut)
        } else if !self.keep_zeros(dst, src, offset, imm) {
            Some(UnitFault::UnusedField)
        } else if !self.list(offset, imm) {
            Some(UnitFault::BadField)
        } else {
            None
        }
    }
}
