//! The first byte of a unit, by its parts (RFC 9669, section 3): the class in its low three bits,
//! above them the source of an operation or the mode and size of an access, then the code.

ghost use Rattle.std.specs.Prelude.{◌≡◌, ◌<◌};
ghost use Rattle.bq_insn.specs.Opcode.{source_bit, alu_code, relation_code, size_bits, byte_of};

use crate::insn::{ByteOrder, Size};
use crate::opcode::{AluCode, Opcode, Source};
use bq_word::{Relation, SignBits, Width};

impl Source {
    /// The bit that tells a register from a number (section 4: K is 0, X is 8).
    fn bit(self) -> u8
        ensures { result ≡ source_bit self }
    {
        match self {
            Source::Number => 0,
            Source::Register => 8,
        }
    }
}

impl AluCode {
    /// The code of an operation (section 4.1).
    fn number(self) -> u8
        ensures value { result ≡ alu_code self }
        ensures bound { result < 16 }
    {
        self as u8
    }
}

/// The code of a conditional jump (section 4.3).
fn relation_number(relation: Relation) -> u8
    ensures value { result ≡ relation_code relation }
    ensures bound { result < 16 }
{
    match relation {
        Relation::Equal => 1,
        Relation::Greater => 2,
        Relation::GreaterOrEqual => 3,
        Relation::CommonBit => 4,
        Relation::NotEqual => 5,
        Relation::SignedGreater => 6,
        Relation::SignedGreaterOrEqual => 7,
        Relation::Less => 10,
        Relation::LessOrEqual => 11,
        Relation::SignedLess => 12,
        Relation::SignedLessOrEqual => 13,
    }
}

impl Size {
    /// The two bits of a size (section 5: W, H, B, DW).
    fn bits(self) -> u8
        ensures { result ≡ size_bits self }
    {
        match self {
            Size::B4 => 0,
            Size::B2 => 8,
            Size::B1 => 16,
            Size::B8 => 24,
        }
    }
}

impl Opcode {
    /// The byte of an opcode.
    pub(crate) fn byte(self) -> u8
        ensures { result ≡ byte_of self }
    {
        match self {
            Opcode::Alu(Width::W32, code, source) => 4 + source.bit() + 16 * code.number(),
            Opcode::Alu(Width::W64, code, source) => 7 + source.bit() + 16 * code.number(),
            Opcode::Negate(Width::W32) => 0x84,
            Opcode::Negate(Width::W64) => 0x87,
            Opcode::Order(ByteOrder::Little) => 0xd4,
            Opcode::Order(ByteOrder::Big) => 0xdc,
            Opcode::Order(ByteOrder::Swapped) => 0xd7,
            Opcode::Jump => 0x05,
            Opcode::JumpFar => 0x06,
            Opcode::Branch(Width::W32, relation, source) => 6
                + source.bit()
                + 16 * relation_number(relation),
            Opcode::Branch(Width::W64, relation, source) => 5
                + source.bit()
                + 16 * relation_number(relation),
            Opcode::Exit => 0x95,
            Opcode::Load(size) => 0x61 + size.bits(),
            Opcode::LoadSigned(SignBits::B32) => 0x81,
            Opcode::LoadSigned(SignBits::B16) => 0x89,
            Opcode::LoadSigned(SignBits::B8) => 0x91,
            Opcode::Store(size, Source::Number) => 0x62 + size.bits(),
            Opcode::Store(size, Source::Register) => 0x63 + size.bits(),
            Opcode::Wide => 0x18,
        }
    }
}
