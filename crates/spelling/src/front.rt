//! What stands at the front of bytes. The slice that is passed is left with what stands behind it.

ghost use Rattle.std.specs.Prelude.{◌≡◌, ◌<◌, ◌^◌, ◌++◌, ◌∷◌, [], length, All, IfSome, IfNone};
ghost use Rattle.spelling.specs.Numbers.{number_bytes};

use byteorder::{ByteOrder, LittleEndian};

/// The first bytes, so many, and those behind them; none where there are fewer.
fn split(bytes: &[u8], count: usize) -> Option<(&[u8], &[u8])>
    ensures len { IfSome result (λ x. length x.0.now ≡ count) }
    ensures bytes { IfSome result (λ x. All (λ b. b < 256) x.0.now) }
    ensures parts { IfSome result (λ x. bytes.now ≡ x.0.now ++ x.1.now) }
    ensures few { IfNone result (length bytes.now < count) }
{
    bytes.split_at_checked(count)
}

/// The first bytes, so many; none where there are fewer.
pub fn take_front<'a>(bytes: &mut &'a [u8], count: usize) -> Option<&'a [u8]>
    ensures len { IfSome result (λ front. length front.now ≡ count) }
    ensures bytes { IfSome result (λ front. All (λ b. b < 256) front.now) }
    ensures parts { IfSome result (λ front. bytes.old.now ≡ front.now ++ bytes.new.now) }
    ensures few { IfNone result (length bytes.old.now < count) }
    ensures kept { IfNone result (bytes.new.now ≡ bytes.old.now) }
{
    let (front, rest) = split(bytes, count)?;
    *bytes = rest;
    Some(front)
}

/// The first byte; none where there is no byte.
pub fn take_byte(bytes: &mut &[u8]) -> Option<u8>
    ensures parts { IfSome result (λ b. bytes.old.now ≡ b ∷ bytes.new.now) }
    ensures few { IfNone result (bytes.old.now ≡ []) }
    ensures kept { IfNone result (bytes.new.now ≡ bytes.old.now) }
{
    let [byte, rest @ ..] = *bytes else {
        return None;
    };
    *bytes = rest;
    Some(*byte)
}

/// The number in the first two bytes; none where there are fewer.
pub fn take_u16(bytes: &mut &[u8]) -> Option<u16>
    ensures fits { IfSome result (λ n. n < 2 ^ 16) }
    ensures parts { IfSome result (λ n. bytes.old.now ≡ number_bytes 2 n ++ bytes.new.now) }
    ensures few { IfNone result (length bytes.old.now < 2) }
    ensures kept { IfNone result (bytes.new.now ≡ bytes.old.now) }
{
    let front = take_front(bytes, 2)?;
    Some(LittleEndian::read_u16(front))
}

/// The number in the first four bytes; none where there are fewer.
pub fn take_u32(bytes: &mut &[u8]) -> Option<u32>
    ensures fits { IfSome result (λ n. n < 2 ^ 32) }
    ensures parts { IfSome result (λ n. bytes.old.now ≡ number_bytes 4 n ++ bytes.new.now) }
    ensures few { IfNone result (length bytes.old.now < 4) }
    ensures kept { IfNone result (bytes.new.now ≡ bytes.old.now) }
{
    let front = take_front(bytes, 4)?;
    Some(LittleEndian::read_u32(front))
}

/// The number in the first eight bytes; none where there are fewer.
pub fn take_u64(bytes: &mut &[u8]) -> Option<u64>
    ensures fits { IfSome result (λ n. n < 2 ^ 64) }
    ensures parts { IfSome result (λ n. bytes.old.now ≡ number_bytes 8 n ++ bytes.new.now) }
    ensures few { IfNone result (length bytes.old.now < 8) }
    ensures kept { IfNone result (bytes.new.now ≡ bytes.old.now) }
{
    let front = take_front(bytes, 8)?;
    Some(LittleEndian::read_u64(front))
}
