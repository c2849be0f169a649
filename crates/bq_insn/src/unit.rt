//! The first unit of an instruction: its opcode and its fields.

ghost use Rattle.std.specs.Prelude.{◌≡◌, ◌<◌};
ghost use Rattle.bq_insn.specs.Insn.{source_of, src_of, imm_of, extension_width, extension_bits, opcode_of, fields_of};
ghost use Rattle.bq_word.specs.Word.{sign_bits, swap_bits};

use crate::fields::{Fields, ZERO};
use crate::insn::{Extension, Insn, Operand};
use crate::opcode::{AluCode, Opcode, Source};
use crate::operation::{alu_code, signed_offset};
use bq_word::{SignBits, SwapBits, Width};

impl Operand {
    /// Where it stands.
    fn source(&self) -> Source
        ensures { result ≡ source_of self.now }
    {
        match self {
            Operand::Register(_) => Source::Register,
            Operand::Number(_) => Source::Number,
        }
    }

    /// What it makes of the field `src`.
    fn src(&self) -> u8
        ensures value { result ≡ src_of self.now }
        ensures bound { result < 16 }
    {
        match self {
            Operand::Register(register) => register.number(),
            Operand::Number(_) => 0,
        }
    }

    /// What it makes of the field `imm`.
    fn imm(&self) -> u32
        ensures { result ≡ imm_of self.now }
    {
        match self {
            Operand::Register(_) => 0,
            Operand::Number(number) => number.cast_unsigned(),
        }
    }
}

impl Extension {
    /// How wide the result is.
    pub fn width(self) -> Width
        ensures { result ≡ extension_width self }
    {
        match self {
            Extension::W32From8 | Extension::W32From16 => Width::W32,
            Extension::W64From8 | Extension::W64From16 | Extension::W64From32 => Width::W64,
        }
    }

    /// The low bits of the source that are read with their sign.
    pub fn source(self) -> SignBits
        ensures { sign_bits result ≡ extension_bits self }
    {
        match self {
            Extension::W32From8 | Extension::W64From8 => SignBits::B8,
            Extension::W32From16 | Extension::W64From16 => SignBits::B16,
            Extension::W64From32 => SignBits::B32,
        }
    }

    /// How many low bits of the source are read, which is the offset of the instruction.
    fn bits(self) -> u16
        ensures { result ≡ extension_bits self }
    {
        match self {
            Extension::W32From8 | Extension::W64From8 => 8,
            Extension::W32From16 | Extension::W64From16 => 16,
            Extension::W64From32 => 32,
        }
    }
}

/// The `imm` of a byte swap.
fn swap_number(bits: SwapBits) -> u32
    ensures { result ≡ swap_bits bits }
{
    match bits {
        SwapBits::B16 => 16,
        SwapBits::B32 => 32,
        SwapBits::B64 => 64,
    }
}

impl Insn {
    /// What its first byte says.
    fn opcode(&self) -> Opcode
        ensures { result ≡ opcode_of self.now }
    {
        match self {
            Insn::Alu {
                width,
                op,
                operand,
                ..
            } => Opcode::Alu(*width, alu_code(*op), operand.source()),
            Insn::Negate { width, .. } => Opcode::Negate(*width),
            Insn::Extend { extension, .. } => Opcode::Alu(
                extension.width(),
                AluCode::Mov,
                Source::Register,
            ),
            Insn::Order { order, .. } => Opcode::Order(*order),
            Insn::Jump { .. } => Opcode::Jump,
            Insn::JumpFar { .. } => Opcode::JumpFar,
            Insn::Branch {
                width,
                relation,
                operand,
                ..
            } => Opcode::Branch(*width, *relation, operand.source()),
            Insn::Exit => Opcode::Exit,
            Insn::Load { size, .. } => Opcode::Load(*size),
            Insn::LoadSigned { size, .. } => Opcode::LoadSigned(*size),
            Insn::Store { size, value, .. } => Opcode::Store(*size, value.source()),
            Insn::Wide { .. } => Opcode::Wide,
        }
    }

    /// The fields of its first unit. Those that the opcode does not use are 0.
    pub(crate) fn fields(&self) -> Fields
        ensures value { result ≡ fields_of self.now }
        ensures dst { result.dst < 16 }
        ensures src { result.src < 16 }
    {
        let unit = Fields {
            opcode: self.opcode().byte(),
            ..ZERO
        };
        match self {
            Insn::Alu {
                op,
                dst,
                operand,
                ..
            } => Fields {
                dst: dst.number(),
                src: operand.src(),
                offset: signed_offset(*op),
                imm: operand.imm(),
                ..unit
            },
            Insn::Negate { dst, .. } => Fields {
                dst: dst.number(),
                ..unit
            },
            Insn::Extend {
                extension,
                dst,
                src,
            } => Fields {
                dst: dst.number(),
                src: src.number(),
                offset: extension.bits(),
                ..unit
            },
            Insn::Order { bits, dst, .. } => Fields {
                dst: dst.number(),
                imm: swap_number(*bits),
                ..unit
            },
            Insn::Jump { offset } => Fields {
                offset: offset.cast_unsigned(),
                ..unit
            },
            Insn::JumpFar { distance } => Fields {
                imm: distance.cast_unsigned(),
                ..unit
            },
            Insn::Branch {
                dst,
                operand,
                offset,
                ..
            } => Fields {
                dst: dst.number(),
                src: operand.src(),
                offset: offset.cast_unsigned(),
                imm: operand.imm(),
                ..unit
            },
            Insn::Exit => unit,
            Insn::Load {
                dst,
                base,
                offset,
                ..
            }
            | Insn::LoadSigned {
                dst,
                base,
                offset,
                ..
            } => Fields {
                dst: dst.number(),
                src: base.number(),
                offset: offset.cast_unsigned(),
                ..unit
            },
            Insn::Store {
                base,
                offset,
                value,
                ..
            } => Fields {
                dst: base.number(),
                src: value.src(),
                offset: offset.cast_unsigned(),
                imm: value.imm(),
                ..unit
            },
            Insn::Wide { dst, value } => Fields {
                dst: dst.number(),
                imm: (*value & 0xffff_ffff) as u32,
                ..unit
            },
        }
    }
}
