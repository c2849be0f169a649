//! The text that lists the units of a program.

ghost use Rattle.std.specs.Prelude.{◌≡◌, IfOk, string_bytes};
ghost use Rattle.bq_insn.specs.Slots.{spelling};
ghost use Rattle.q_command.specs.Listing.{listing_of};

use bq_insn::{Text, encode};
use std::alloc::{AllocError, Global};

/// The lines of these bytes, eight bytes a line. Bytes behind the last whole eight are left out.
fn unit_lines(alloc: Global, bytes: &[u8]) -> Result<String, AllocError>
    ensures { IfOk result (λ lines. string_bytes lines ≡ listing_of bytes.now) }
{
    let mut lines = String::new(alloc);
    for unit in bytes.chunks_exact(8) {
        let digits = hex::encode(alloc, unit)?;
        lines.push_str(digits.as_str())?;
        lines.push('\n')?;
    }
    Ok(lines)
}

/// Each unit of a program as 16 lower-case hexadecimal digits, one a line, in rising order. The
/// digits are those of the unit's bytes in turn (RFC 9669, section 3.1).
///
/// The one error is that memory ran out (99 OutOfMemory).
pub fn listing(alloc: Global, text: &Text) -> Result<String, AllocError>
    ensures { IfOk result (λ lines. string_bytes lines ≡ listing_of (spelling text.now)) }
{
    let bytes = encode(alloc, text)?;
    unit_lines(alloc, bytes.as_slice())
}
