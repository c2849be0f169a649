ghost use Rattle.std.specs.Prelude.{◌≡◌, ◌++◌, find};
ghost use Rattle.std.specs.Str.{bytes_eq};
ghost use Rattle.bq_asm.specs.Mnemonic.{name, op_name, width_name, relation_name, extension_name, order_name, bits_name, all_mnemonics, mnemonic_at};

use bq_insn::{ByteOrder, Extension, Size};
use bq_word::{AluOp, Relation, SignBits, SwapBits, Width};

/// What the first word of an instruction says.
#[derive(Clone, Copy)]
pub enum Mnemonic {
    /// Arithmetic of two operands, as `add64`.
    Alu(Width, AluOp),
    /// `neg64` and `neg32`.
    Negate(Width),
    /// A move with sign extension, as `mov64s8`.
    Extend(Extension),
    /// A byte order, as `be16`.
    Order(ByteOrder, SwapBits),
    /// `ja`.
    Jump,
    /// `ja32`.
    JumpFar,
    /// A conditional jump, as `jeq64`.
    Branch(Width, Relation),
    /// `exit`.
    Exit,
    /// A load, as `load8`.
    Load(Size),
    /// A load with sign extension, as `loads4`.
    LoadSigned(SignBits),
    /// A store, as `store8`.
    Store(Size),
    /// `wide`.
    Wide,
}

// Every mnemonic, of these operations, orders, relations and sizes.
macro_rules! mnemonics {
    ($($op:ident)*; $($order:ident)*; $($relation:ident)*; $($size:ident)*) => {
        [
            $(Mnemonic::Alu(Width::W64, AluOp::$op),)*
            $(Mnemonic::Alu(Width::W32, AluOp::$op),)*
            Mnemonic::Negate(Width::W64),
            Mnemonic::Negate(Width::W32),
            Mnemonic::Extend(Extension::W32From8),
            Mnemonic::Extend(Extension::W32From16),
            Mnemonic::Extend(Extension::W64From8),
            Mnemonic::Extend(Extension::W64From16),
            Mnemonic::Extend(Extension::W64From32),
            $(
                Mnemonic::Order(ByteOrder::$order, SwapBits::B16),
                Mnemonic::Order(ByteOrder::$order, SwapBits::B32),
                Mnemonic::Order(ByteOrder::$order, SwapBits::B64),
            )*
            Mnemonic::Jump,
            Mnemonic::JumpFar,
            Mnemonic::Exit,
            Mnemonic::Wide,
            $(Mnemonic::Branch(Width::W64, Relation::$relation),)*
            $(Mnemonic::Branch(Width::W32, Relation::$relation),)*
            $(Mnemonic::Load(Size::$size),)*
            Mnemonic::LoadSigned(SignBits::B8),
            Mnemonic::LoadSigned(SignBits::B16),
            Mnemonic::LoadSigned(SignBits::B32),
            $(Mnemonic::Store(Size::$size),)*
        ]
    };
}

/// Every mnemonic.
static MNEMONICS: [Mnemonic; 81] = mnemonics!(
    Add Sub Mul Div SignedDiv Or And ShiftLeft ShiftRight Mod SignedMod Xor Mov ArithmeticShiftRight;
    Little Big Swapped;
    Equal Greater GreaterOrEqual CommonBit NotEqual SignedGreater SignedGreaterOrEqual Less LessOrEqual SignedLess
        SignedLessOrEqual;
    B1 B2 B4 B8
);

// The text of a mnemonic, by the variant of one of its parts, where it ends in the same letters for all of them.
macro_rules! named {
    ($part:ident, $type:ident, $end:literal: $($variant:ident $text:literal),*) => {
        match $part {
            $($type::$variant => concat!($text, $end),)*
        }
    };
}

macro_rules! op_named {
    ($op:ident, $bits:literal) => {
        named!(
            $op, AluOp, $bits: Add "add", Sub "sub", Mul "mul", Div "div", SignedDiv "sdiv", Or "or", And "and",
            ShiftLeft "lsh", ShiftRight "rsh", Mod "mod", SignedMod "smod", Xor "xor", Mov "mov",
            ArithmeticShiftRight "arsh"
        )
    };
}

macro_rules! relation_named {
    ($relation:ident, $bits:literal) => {
        named!(
            $relation, Relation, $bits: Equal "jeq", Greater "jgt", GreaterOrEqual "jge", CommonBit "jset",
            NotEqual "jne", SignedGreater "jsgt", SignedGreaterOrEqual "jsge", Less "jlt", LessOrEqual "jle",
            SignedLess "jslt", SignedLessOrEqual "jsle"
        )
    };
}

fn alu_name(width: Width, op: AluOp) -> &'static str
    ensures { result.now ≡ op_name op ++ width_name width }
{
    match width {
        Width::W64 => op_named!(op, "64"),
        Width::W32 => op_named!(op, "32"),
    }
}

fn branch_name(width: Width, relation: Relation) -> &'static str
    ensures { result.now ≡ relation_name relation ++ width_name width }
{
    match width {
        Width::W64 => relation_named!(relation, "64"),
        Width::W32 => relation_named!(relation, "32"),
    }
}

fn extension_name(extension: Extension) -> &'static str
    ensures { result.now ≡ extension_name extension }
{
    match extension {
        Extension::W32From8 => "mov32s8",
        Extension::W32From16 => "mov32s16",
        Extension::W64From8 => "mov64s8",
        Extension::W64From16 => "mov64s16",
        Extension::W64From32 => "mov64s32",
    }
}

fn order_name(order: ByteOrder, bits: SwapBits) -> &'static str
    ensures { result.now ≡ order_name order ++ bits_name bits }
{
    match (order, bits) {
        (ByteOrder::Little, SwapBits::B16) => "le16",
        (ByteOrder::Little, SwapBits::B32) => "le32",
        (ByteOrder::Little, SwapBits::B64) => "le64",
        (ByteOrder::Big, SwapBits::B16) => "be16",
        (ByteOrder::Big, SwapBits::B32) => "be32",
        (ByteOrder::Big, SwapBits::B64) => "be64",
        (ByteOrder::Swapped, SwapBits::B16) => "swap16",
        (ByteOrder::Swapped, SwapBits::B32) => "swap32",
        (ByteOrder::Swapped, SwapBits::B64) => "swap64",
    }
}

impl Mnemonic {
    /// Every mnemonic.
    pub fn all() -> &'static [Mnemonic]
        ensures { result.now ≡ all_mnemonics }
    {
        &MNEMONICS
    }

    /// The text of a mnemonic.
    pub fn name(self) -> &'static str
        ensures { result.now ≡ name self }
    {
        match self {
            Mnemonic::Alu(width, op) => alu_name(width, op),
            Mnemonic::Negate(Width::W64) => "neg64",
            Mnemonic::Negate(Width::W32) => "neg32",
            Mnemonic::Extend(extension) => extension_name(extension),
            Mnemonic::Order(order, bits) => order_name(order, bits),
            Mnemonic::Jump => "ja",
            Mnemonic::JumpFar => "ja32",
            Mnemonic::Branch(width, relation) => branch_name(width, relation),
            Mnemonic::Exit => "exit",
            Mnemonic::Load(size) =>
                named!(size, Size, "": B1 "load1", B2 "load2", B4 "load4", B8 "load8"),
            Mnemonic::LoadSigned(bits) =>
                named!(bits, SignBits, "": B8 "loads1", B16 "loads2", B32 "loads4"),
            Mnemonic::Store(size) =>
                named!(size, Size, "": B1 "store1", B2 "store2", B4 "store4", B8 "store8"),
            Mnemonic::Wide => "wide",
        }
    }

    /// The mnemonic of this text, where there is one.
    pub(crate) fn read(text: &str) -> Option<Mnemonic>
        ensures { result ≡ mnemonic_at text.now }
    {
        find(&MNEMONICS, text)
    }
}

/// The one of these mnemonics that has this text.
fn find(mnemonics: &[Mnemonic], text: &str) -> Option<Mnemonic>
    ensures { result ≡ find (λ m. bytes_eq (name m) text.now) mnemonics.now }
{
    for mnemonic in mnemonics {
        if mnemonic.name() == text {
            return Some(*mnemonic);
        }
    }
    None
}
