// What an operation of one operand leaves, and what a load can give.

ghost use Rattle.std.specs.Prelude.{◌≡◌, ℕ, ◌≤◌, ◌<◌, ◌+◌, ◌*◌, ◌^◌, ◌-◌, ◌%◌};
ghost use Rattle.bq_word.specs.Word.{bits_of, swap_bits, sign_bits, operation, low, swapped, extended};
ghost use Rattle.bq_range.specs.Interval.{IsIn, whole, all_words, top};
ghost use Rattle.bq_range.specs.Table.{negated, negatives, sign_extended, extensions, low_range, swapped_range};

use super::Range;
use super::width::{top, whole};
use bq_word::{AluOp, SignBits, SwapBits, Width, alu, extend, low_bits, swap};

impl Range {
    /// What negation at a width leaves (NEG, RFC 9669, section 4.1).
    ///
    /// At 32 bits the operand is cut to its low half first.
    pub fn negate(width: Width, a: Range) -> Range
        ensures row { result ≡ negated (bits_of width) a }
        ensures covers { (x : ℕ) → IsIn x a → IsIn (operation (bits_of width) AluOp.Sub 0 x) result }
    {
        if a.is_single() {
            Range::single(alu(width, AluOp::Sub, 0, a.lo))
        } else {
            negatives(width, a.cut(width))
        }
    }

    /// What the low bits of words leave, read with their sign, at the width `to` (MOVSX, RFC 9669,
    /// section 4.1).
    pub fn extend(from: SignBits, to: Width, a: Range) -> Range
        ensures row { result ≡ sign_extended (sign_bits from) (bits_of to) a }
        ensures covers { (x : ℕ) → IsIn x a → IsIn (extended (sign_bits from) (bits_of to) x) result }
    {
        if a.is_single() {
            Range::single(extend(from, to, a.lo))
        } else {
            extensions(from, to, a.cut(to))
        }
    }

    /// The low bits of words: what a byte swap to little-endian order leaves on a little-endian
    /// host (RFC 9669, section 4.2).
    pub fn low_bits(bits: SwapBits, a: Range) -> Range
        ensures row { result ≡ low_range (swap_bits bits) a }
        ensures covers { (x : ℕ) → IsIn x a → IsIn (low (swap_bits bits) x) result }
    {
        if a.is_single() {
            Range::single(low_bits(bits, a.lo))
        } else if a.hi <= greatest(bits) {
            a
        } else {
            Range::up_to(greatest(bits))
        }
    }

    /// The low bits of words with their bytes in the opposite order: what a swap to big-endian
    /// order leaves on a little-endian host, and an unconditional swap (RFC 9669, section 4.2).
    pub fn swap(bits: SwapBits, a: Range) -> Range
        ensures row { result ≡ swapped_range (swap_bits bits) a }
        ensures covers { (x : ℕ) → IsIn x a → IsIn (swapped (swap_bits bits) x) result }
    {
        if a.is_single() {
            Range::single(swap(bits, a.lo))
        } else {
            Range::up_to(greatest(bits))
        }
    }

    /// What a load of so many bytes, 1 to 8, can give (RFC 9669, section 5.1): zero-extended.
    pub fn of_load(bytes: u32) -> Range
        requires some { 1 ≤ bytes }
        requires word { bytes ≤ 8 }
        ensures row { result ≡ whole (8 * bytes) }
        ensures covers { (x : ℕ) → x < 2 ^ (8 * bytes) → IsIn x result }
    {
        Range::up_to(u64::MAX >> (64 - 8 * bytes))
    }

    /// What a sign-extending load can give (RFC 9669, section 5.2): any word at all.
    pub fn of_signed_load() -> Range
        ensures row { result ≡ all_words }
        ensures covers { (x : ℕ) → x < 2 ^ 64 → IsIn x result }
    {
        Range::full()
    }
}

// 2^width less a number, of numbers of the width.
fn negatives(width: Width, a: Range) -> Range
    requires { a.hi < 2 ^ bits_of width }
    ensures { result ≡ negatives (bits_of width) a }
{
    if 1 <= a.lo {
        let top = top(width);
        Range {
            lo: top - (a.hi - 1),
            hi: top - (a.lo - 1),
        }
    } else {
        whole(width)
    }
}

// A number below the sign is left as it is.
fn extensions(from: SignBits, to: Width, a: Range) -> Range
    ensures { result ≡ extensions (sign_bits from) (bits_of to) a }
{
    if a.hi < sign(from) { a } else { whole(to) }
}

// The least number of so many bits whose sign is set.
fn sign(bits: SignBits) -> u64
    ensures { result ≡ 2 ^ (sign_bits bits - 1) }
{
    match bits {
        SignBits::B8 => 0x80,
        SignBits::B16 => 0x8000,
        SignBits::B32 => 0x8000_0000,
    }
}

// The greatest number of so many bits.
fn greatest(bits: SwapBits) -> u64
    ensures value { result ≡ top (swap_bits bits) }
    ensures power { result + 1 ≡ 2 ^ swap_bits bits }
{
    match bits {
        SwapBits::B16 => 0xffff,
        SwapBits::B32 => 0xffff_ffff,
        SwapBits::B64 => u64::MAX,
    }
}
