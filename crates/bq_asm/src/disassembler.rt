ghost use Rattle.std.specs.Prelude.{◌≡◌, ◌++◌, OnOk, IfOk, codes};
ghost use Rattle.std.specs.Fmt.{decimal, signed_decimal};
ghost use Rattle.std.specs.String.{string_bytes};
ghost use Rattle.bq_asm.specs.Mnemonic.{name};
ghost use Rattle.bq_insn.specs.Slots.{IsText};
ghost use Rattle.bq_asm.specs.Operands.{register, operand, distance, memory, mnemonic_of, operands_of};
ghost use Rattle.bq_asm.specs.Source.{insn_line, spaced, disassembly};

use crate::mnemonic::Mnemonic;
use bq_insn::{Insn, Operand, Register, Text};
use std::alloc::{AllocError, Global};

fn push_register(out: &mut String, source: Register) -> Result<(), AllocError>
    ensures { OnOk result (string_bytes out.new ≡ string_bytes out.old ++ register source) }
{
    let number = source.number();
    write!(out, "r{number}")
}

fn push_operand(out: &mut String, value: Operand) -> Result<(), AllocError>
    ensures { OnOk result (string_bytes out.new ≡ string_bytes out.old ++ operand value) }
{
    match value {
        Operand::Register(register) => push_register(out, register),
        Operand::Number(number) => write!(out, "{number}"),
    }
}

/// A number with its sign.
fn push_distance(out: &mut String, number: i32) -> Result<(), AllocError>
    ensures { OnOk result (string_bytes out.new ≡ string_bytes out.old ++ distance number) }
{
    if number >= 0 {
        out.push_str("+")?;
    }
    write!(out, "{number}")
}

fn push_memory(out: &mut String, base: Register, offset: i16) -> Result<(), AllocError>
    ensures { OnOk result (string_bytes out.new ≡ string_bytes out.old ++ memory base offset) }
{
    out.push_str("[")?;
    push_register(out, base)?;
    push_distance(out, i32::from(offset))?;
    out.push_str("]")
}

/// The mnemonic of an instruction.
fn mnemonic(insn: &Insn) -> Mnemonic
    ensures { result ≡ mnemonic_of insn.now }
{
    match insn {
        Insn::Alu { width, op, .. } => Mnemonic::Alu(*width, *op),
        Insn::Negate { width, .. } => Mnemonic::Negate(*width),
        Insn::Extend { extension, .. } => Mnemonic::Extend(*extension),
        Insn::Order { order, bits, .. } => Mnemonic::Order(*order, *bits),
        Insn::Jump { .. } => Mnemonic::Jump,
        Insn::JumpFar { .. } => Mnemonic::JumpFar,
        Insn::Branch {
            width,
            relation,
            ..
        } => Mnemonic::Branch(*width, *relation),
        Insn::Exit => Mnemonic::Exit,
        Insn::Load { size, .. } => Mnemonic::Load(*size),
        Insn::LoadSigned { size, .. } => Mnemonic::LoadSigned(*size),
        Insn::Store { size, .. } => Mnemonic::Store(*size),
        Insn::Wide { .. } => Mnemonic::Wide,
    }
}

/// A first operand that is a register.
fn push_first(out: &mut String, dst: Register) -> Result<(), AllocError>
    ensures { OnOk result (string_bytes out.new ≡ string_bytes out.old ++ (codes " " ++ register dst)) }
{
    out.push_str(" ")?;
    push_register(out, dst)
}

/// A later operand that is a register or a number.
fn push_next(out: &mut String, value: Operand) -> Result<(), AllocError>
    ensures { OnOk result (string_bytes out.new ≡ string_bytes out.old ++ (codes ", " ++ operand value)) }
{
    out.push_str(", ")?;
    push_operand(out, value)
}

/// A later operand that is a place in memory.
fn push_place(out: &mut String, base: Register, offset: i16) -> Result<(), AllocError>
    ensures { OnOk result (string_bytes out.new ≡ string_bytes out.old ++ (codes ", " ++ memory base offset)) }
{
    out.push_str(", ")?;
    push_memory(out, base, offset)
}

/// The operands of an instruction, and the space before them.
fn push_operands(out: &mut String, insn: &Insn) -> Result<(), AllocError>
    ensures { OnOk result (string_bytes out.new ≡ string_bytes out.old ++ spaced (operands_of insn.now)) }
{
    match insn {
        Insn::Alu { dst, operand, .. } => {
            push_first(out, *dst)?;
            push_next(out, *operand)
        }
        Insn::Negate { dst, .. } | Insn::Order { dst, .. } => push_first(out, *dst),
        Insn::Extend { dst, src, .. } => {
            push_first(out, *dst)?;
            push_next(out, Operand::Register(*src))
        }
        Insn::Jump { offset } => {
            out.push_str(" ")?;
            push_distance(out, i32::from(*offset))
        }
        Insn::JumpFar { distance } => {
            out.push_str(" ")?;
            push_distance(out, *distance)
        }
        Insn::Branch {
            dst,
            operand,
            offset,
            ..
        } => {
            push_first(out, *dst)?;
            push_next(out, *operand)?;
            out.push_str(", ")?;
            push_distance(out, i32::from(*offset))
        }
        Insn::Exit => Ok(()),
        Insn::Load {
            dst,
            base,
            offset,
            ..
        }
        | Insn::LoadSigned {
            dst,
            base,
            offset,
            ..
        } => {
            push_first(out, *dst)?;
            push_place(out, *base, *offset)
        }
        Insn::Store {
            base,
            offset,
            value,
            ..
        } => {
            out.push_str(" ")?;
            push_memory(out, *base, *offset)?;
            push_next(out, *value)
        }
        Insn::Wide { dst, value } => {
            push_first(out, *dst)?;
            out.push_str(", ")?;
            write!(out, "{value}")
        }
    }
}

/// An instruction on a line of its own.
fn push_line(out: &mut String, insn: &Insn) -> Result<(), AllocError>
    ensures { OnOk result (string_bytes out.new ≡ string_bytes out.old ++ insn_line insn.now) }
{
    out.push_str(mnemonic(insn).name())?;
    push_operands(out, insn)?;
    out.push_str("\n")
}

/// The one spelling of a text that has no labels and no comments, one space behind each mnemonic, a
/// comma and a space between operands, and a line feed at the end of each line. Every text has it,
/// also one whose jumps go back or outside. The one error is that memory ran out (99 OutOfMemory).
pub fn disassemble(alloc: Global, text: &Text) -> Result<String, AllocError>
    ensures text { IsText text.now }
    ensures written { IfOk result (λ source. string_bytes source ≡ disassembly text.now) }
{
    let mut out = String::new(alloc);
    for unit in 0..text.units() {
        if let Some(insn) = text.at(unit) {
            push_line(&mut out, &insn)?;
        }
    }
    Ok(out)
}
