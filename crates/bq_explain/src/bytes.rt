//! Why bytes are no program.

ghost use Rattle.std.specs.Prelude.{◌↔◌, ◌≡◌, IfOk, None};
ghost use Rattle.bq_insn.specs.declared.fault.DecodeFault.TheVariants.{OutOfMemory};

use bq_insn::{DecodeFault, UnitFault};
use std::alloc::{AllocError, Global};

/// What is told of bytes that are an object file.
pub const OBJECT_FILE: &str =
    "It is an object file. Take the program out of it, and pass that with --bytes:\nllvm-objcopy -O binary --only-section=.text FILE.o FILE.bin";

/// Whether bytes are an object file, by how they begin.
pub fn is_object_file(bytes: &[u8]) -> bool {
    bytes.starts_with(b"\x7fELF")
}

/// What is wrong with the bytes of a unit.
fn of_unit(fault: UnitFault) -> &'static str {
    match fault {
        UnitFault::BadOpcode =>
            "Its first byte is no opcode. The bytes are those of instructions alone, with the\nlowest byte first, for -target bpf, not bpfeb.",
        UnitFault::BadRegister => "It names a register above r10.",
        UnitFault::UnusedField => "A field that the instruction does not use is not 0.",
        UnitFault::BadField =>
            "A field has a value that the instruction does not take: an offset of a division above\n1, a move's size that is none, or a byte order's width that is not 16, 32 or 64.",
        UnitFault::CutWide => "It is a wide instruction, and its second unit is missing.",
        UnitFault::LeftOut =>
            "It is an instruction that is left out: a call, an atomic operation, a packet access,\nor a load of an address (a table, a global variable). clang makes calls of functions\nthat are not inlined, and of memcpy and memset: mark functions as always_inline, and\nwrite such a copy as a loop that is unrolled. Tables become tests or arithmetic.",
    }
}

/// The bytes of a unit.
fn write_bytes(out: &mut String, code: &[u8], unit: usize) -> Result<(), AllocError> {
    for byte in code.iter().skip(unit.saturating_mul(8)).take(8) {
        write!(out, " {byte:02x}")?;
    }
    Ok(())
}

/// Why these bytes are refused for this fault, in a few lines; none where memory ran out.
///
/// The one error is that memory ran out (99 OutOfMemory).
pub fn explain_bytes(
    alloc: Global,
    code: &[u8],
    fault: DecodeFault,
) -> Result<Option<String>, AllocError>
    ensures told { IfOk result (λ told. (told ≡ None) ↔ (fault ≡ OutOfMemory)) }
{
    let mut out = String::new(alloc);
    match fault {
        DecodeFault::BadLength => out.push_str(
            "The bytes are no positive multiple of 8, which units have.\n",
        )?,
        DecodeFault::TooLong => out.push_str("The program has more than 4096 units.\n")?,
        DecodeFault::At { unit, fault } => {
            write!(out, "unit {unit}:")?;
            write_bytes(&mut out, code, unit)?;
            let words = of_unit(fault);
            writeln!(out, "\n{words}")?;
        }
        DecodeFault::OutOfMemory => return Ok(None),
    }
    Ok(Some(out))
}
