//! What is known of the registers at the instructions of a program, in words.

ghost use Rattle.std.specs.Prelude.{◌≡◌, ◌++◌, IfOk, OnOk, codes, string_bytes};
ghost use Rattle.bq_asm.specs.Source.{insn_line};
ghost use Rattle.bq_explain.specs.Known.{bounds_text, label_text, length_text, note_text, offsets_text, place_text, pointer_text, range_text, register_line, state_text, states_text, unit_line, unit_text};

use bq_asm::disassemble;
use bq_check::Notes;
use bq_insn::{Insn, Text};
use bq_range::Range;
use bq_state::{Bounds, Kind, Offsets, Region, State};
use std::alloc::{AllocError, Global};

fn write_range(out: &mut String, range: Range) -> Result<(), AllocError>
    ensures { OnOk result (string_bytes out.new ≡ string_bytes out.old ++ range_text range) }
{
    let (lo, hi) = (range.lo(), range.hi());
    if lo == hi {
        write!(out, "the number {lo}")
    } else if lo == 0 && hi == u64::MAX {
        out.push_str("any number")
    } else {
        write!(out, "a number from {lo} to {hi}")
    }
}

fn write_offsets(out: &mut String, offsets: Offsets) -> Result<(), AllocError>
    ensures { OnOk result (string_bytes out.new ≡ string_bytes out.old ++ offsets_text offsets) }
{
    let (lo, hi) = (offsets.lo(), offsets.hi());
    if lo == hi {
        write!(out, "{lo}")
    } else {
        write!(out, "{lo} to {hi}")
    }
}

fn write_place(out: &mut String, region: Region, offsets: Offsets) -> Result<(), AllocError>
    ensures { OnOk result (string_bytes out.new ≡ string_bytes out.old ++ place_text region offsets) }
{
    out.push_str(region.name())?;
    out.push_str("'s start plus ")?;
    write_offsets(out, offsets)
}

fn write_pointer(out: &mut String, region: Region, offsets: Offsets) -> Result<(), AllocError>
    ensures { OnOk result (string_bytes out.new ≡ string_bytes out.old ++ pointer_text region offsets) }
{
    out.push_str("a pointer to the ")?;
    write_place(out, region, offsets)
}

fn write_bounds(out: &mut String, lengths: Bounds) -> Result<(), AllocError>
    ensures { OnOk result (string_bytes out.new ≡ string_bytes out.old ++ bounds_text lengths) }
{
    let (least, most) = (lengths.least(), lengths.most());
    write!(out, "{least} to {most}")
}

fn write_length(out: &mut String, lengths: Bounds) -> Result<(), AllocError>
    ensures { OnOk result (string_bytes out.new ≡ string_bytes out.old ++ length_text lengths) }
{
    out.push_str("the record's length, ")?;
    write_bounds(out, lengths)
}

/// What stands before what is known of a register.
fn write_label(out: &mut String, register: u8) -> Result<(), AllocError>
    ensures { OnOk result (string_bytes out.new ≡ string_bytes out.old ++ label_text register) }
{
    write!(out, "  r{register}: ")
}

/// The line of a register; nothing is written where nothing is known of it.
fn write_register(
    out: &mut String,
    register: u8,
    kind: Kind,
    lengths: Bounds,
) -> Result<(), AllocError>
    ensures { OnOk result (string_bytes out.new ≡ string_bytes out.old ++ register_line lengths register kind) }
{
    match kind {
        Kind::Unset => Ok(()),
        Kind::Number(range) => {
            write_label(out, register)?;
            write_range(out, range)?;
            out.push_str("\n")
        }
        Kind::Pointer(region, offsets) => {
            write_label(out, register)?;
            write_pointer(out, region, offsets)?;
            out.push_str("\n")
        }
        Kind::Length => {
            write_label(out, register)?;
            write_length(out, lengths)?;
            out.push_str("\n")
        }
    }
}

/// A line for each register of which something is known, that of r0 first: `  rK: ` and what is known.
pub fn write_state(out: &mut String, state: &State) -> Result<(), AllocError>
    ensures { OnOk result (string_bytes out.new ≡ string_bytes out.old ++ state_text state.now) }
{
    for register in 0..11_u8 {
        write_register(out, register, state.kind(register), state.lengths())?;
    }
    Ok(())
}

/// The line of a unit where an instruction begins: `unit U: ` and the instruction as assembler text.
pub fn write_unit(
    alloc: Global,
    out: &mut String,
    unit: usize,
    insn: Insn,
) -> Result<(), AllocError>
    ensures { OnOk result (string_bytes out.new ≡ string_bytes out.old ++ unit_line unit insn) }
{
    let Ok(alone) = Text::of(alloc, &[insn]) else {
        return Err(AllocError);
    };
    let line = disassemble(alloc, &alone)?;
    write!(out, "unit {unit}: {line}")
}

/// The lines of a unit where an instruction begins.
fn write_known(
    alloc: Global,
    out: &mut String,
    unit: usize,
    insn: Insn,
    state: Option<State>,
) -> Result<(), AllocError>
    ensures { OnOk result (string_bytes out.new ≡ string_bytes out.old ++ (unit_line unit insn ++ note_text state)) }
{
    write_unit(alloc, out, unit, insn)?;
    match state {
        Some(state) => write_state(out, &state),
        None => Ok(()),
    }
}

/// What is known at each instruction of a text by these notes: the line of its unit, and a line for each register of
/// which something is known. Where no run comes, no register's line is written.
///
/// The one error is that memory ran out (99 OutOfMemory).
pub fn states(alloc: Global, text: &Text, notes: &Notes) -> Result<String, AllocError>
    ensures { IfOk result (λ told. string_bytes told ≡ states_text text.now notes.now) }
{
    let mut out = String::new(alloc);
    for unit in 0..text.units() {
        if let Some(insn) = text.at(unit) {
            write_known(alloc, &mut out, unit, insn, notes.at(unit))?;
        }
    }
    Ok(out)
}
