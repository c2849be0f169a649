//! Numbers written at the end of bytes. The one error is that memory ran out; the bytes stay as they were then.

ghost use Rattle.std.specs.Prelude.{◌≡◌, ◌<◌, ◌^◌, ◌++◌, OnOk, OnErr};
ghost use Rattle.spelling.specs.Numbers.{number_bytes};

use std::alloc::AllocError;

/// Writes a number in two bytes.
#[tactic(auto, unfolding(crate::specs::Numbers::number_bytes))]
pub fn put_u16(out: &mut Vec<u8>, number: u16) -> Result<(), AllocError>
    ensures fits { number < 2 ^ 16 }
    ensures written { OnOk result (out.new.items ≡ out.old.items ++ number_bytes 2 number) }
    ensures kept { OnErr result (out.new.items ≡ out.old.items) }
{
    out.extend_from_slice(&number.to_le_bytes())
}

/// Writes a number in four bytes.
#[tactic(auto, unfolding(crate::specs::Numbers::number_bytes))]
pub fn put_u32(out: &mut Vec<u8>, number: u32) -> Result<(), AllocError>
    ensures fits { number < 2 ^ 32 }
    ensures written { OnOk result (out.new.items ≡ out.old.items ++ number_bytes 4 number) }
    ensures kept { OnErr result (out.new.items ≡ out.old.items) }
{
    out.extend_from_slice(&number.to_le_bytes())
}

/// Writes a number in eight bytes.
#[tactic(auto, unfolding(crate::specs::Numbers::number_bytes))]
pub fn put_u64(out: &mut Vec<u8>, number: u64) -> Result<(), AllocError>
    ensures fits { number < 2 ^ 64 }
    ensures written { OnOk result (out.new.items ≡ out.old.items ++ number_bytes 8 number) }
    ensures kept { OnErr result (out.new.items ≡ out.old.items) }
{
    out.extend_from_slice(&number.to_le_bytes())
}
