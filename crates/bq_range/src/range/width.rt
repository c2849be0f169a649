// The numbers of a width.

ghost use Rattle.std.specs.Prelude.{◌≡◌, ℕ, ◌≤◌, ◌<◌, ◌+◌, ◌^◌, ◌-◌};
ghost use Rattle.bq_word.specs.Word.{bits_of, low};
ghost use Rattle.bq_range.specs.Interval.{IsIn, top, whole, cut};

use super::Range;
use bq_word::Width;

impl Range {
    // What the low bits of its words can be. Where all of them have the same high bits those are
    // dropped; else the low bits run over every number of the width.
    pub(crate) fn cut(self, width: Width) -> Range
        ensures row { result ≡ cut (bits_of width) self }
        ensures bound { result.hi < 2 ^ bits_of width }
        ensures covers { (x : ℕ) → IsIn x self → IsIn (low (bits_of width) x) result }
    {
        match width {
            Width::W32 => {
                if self.lo >> 32 == self.hi >> 32 {
                    Range {
                        lo: self.lo & 0xffff_ffff,
                        hi: self.hi & 0xffff_ffff,
                    }
                } else {
                    Range::up_to(0xffff_ffff)
                }
            }
            Width::W64 => self,
        }
    }
}

// How many bits.
pub(crate) fn bits(width: Width) -> u64
    ensures value { result ≡ bits_of width }
    ensures few { result ≤ 64 }
    ensures some { 0 < result }
{
    match width {
        Width::W32 => 32,
        Width::W64 => 64,
    }
}

// The greatest number.
pub(crate) fn top(width: Width) -> u64
    ensures value { result ≡ top (bits_of width) }
    ensures power { result + 1 ≡ 2 ^ bits_of width }
{
    match width {
        Width::W32 => 0xffff_ffff,
        Width::W64 => u64::MAX,
    }
}

// The least number whose sign is set.
pub(crate) fn sign(width: Width) -> u64
    ensures { result ≡ 2 ^ (bits_of width - 1) }
{
    match width {
        Width::W32 => 0x8000_0000,
        Width::W64 => 0x8000_0000_0000_0000,
    }
}

// Every number.
pub(crate) fn whole(width: Width) -> Range
    ensures { result ≡ whole (bits_of width) }
{
    Range::up_to(top(width))
}
