//! Offsets of pointers.

ghost use Rattle.std.specs.Prelude.{◌≡◌, ◌≤◌, ◌^◌, ◌-◌, ℤ, pos, negsuc, ◌≤ℤ◌, ◌↔◌, IsTrue, IfSome};
ghost use Rattle.bq_state.specs.Offsets.{Span, IsSpan, SpanWithin, IsOffset, at_offset, join_spans, moved_on, moved_back, signed_of, limited, fits};
ghost use Rattle.bq_range.specs.Interval.{Interval};
ghost use Rattle.std.specs.Option.{SomeIff};

use bq_range::Range;
use std::marker::Model;

/// The least and the greatest offset that a pointer may have.
const LIMIT: i32 = 65_536;

/// Offsets from the start of a region, from `lo` to `hi`, both within -65,536 to 65,536.
#[derive(Clone, Copy, Debug, PartialEq, Eq)]
pub struct Offsets {
    lo: i32,
    hi: i32,
}

impl Model for Offsets {
    ghost use Rattle.bq_state.specs.Offsets.{Span, IsSpan};

    ghost Value = { Span };

    ghost view = { λ o. record { lo = o.lo; hi = o.hi } };

    ghost invariant = { λ o. IsSpan (record { lo = o.lo; hi = o.hi }) };

    ghost inverse = { λ s. record { lo = s.lo; hi = s.hi } };
}

/// A range of words read with their sign.
#[derive(Clone, Copy)]
struct Signed {
    lo: i128,
    hi: i128,
}

impl Signed {
    fn of(range: Range) -> Signed
        ensures lo { result.lo ≡ (signed_of range).lo }
        ensures hi { result.hi ≡ (signed_of range).hi }
        ensures ordered { result.lo ≤ℤ result.hi }
        ensures low { negsuc (2 ^ 63 - 1) ≤ℤ result.lo }
        ensures high { result.hi ≤ℤ pos (2 ^ 63 - 1) }
    {
        let (lo, hi) = (range.lo(), range.hi());
        if hi < 1 << 63 {
            Signed {
                lo: i128::from(lo),
                hi: i128::from(hi),
            }
        } else if lo >= 1 << 63 {
            Signed {
                lo: i128::from(lo) - (1 << 64),
                hi: i128::from(hi) - (1 << 64),
            }
        } else {
            Signed {
                lo: i128::from(i64::MIN),
                hi: i128::from(i64::MAX),
            }
        }
    }
}

impl Offsets {
    /// The offsets from `lo` to `hi`, if they are in order and within the limit.
    pub fn new(lo: i32, hi: i32) -> Option<Offsets>
        ensures { SomeIff result (IsSpan (record { lo = lo; hi = hi })) (record { lo = lo; hi = hi }) }
    {
        if -LIMIT <= lo && lo <= hi && hi <= LIMIT {
            Some(Offsets { lo, hi })
        } else {
            None
        }
    }

    /// One offset.
    pub fn at(offset: i32) -> Offsets
        requires low { negsuc 65535 ≤ℤ offset }
        requires high { offset ≤ℤ pos 65536 }
        ensures { result ≡ at_offset offset }
    {
        Offsets {
            lo: offset,
            hi: offset,
        }
    }

    /// The least offset.
    pub fn lo(self) -> i32
        ensures value { result ≡ self.lo }
        ensures legal { IsSpan self }
    {
        self.lo
    }

    /// The greatest offset.
    pub fn hi(self) -> i32
        ensures value { result ≡ self.hi }
        ensures legal { IsSpan self }
    {
        self.hi
    }

    /// Whether each of the other's offsets is one of these.
    pub fn covers(self, other: Offsets) -> bool
        ensures { IsTrue result ↔ SpanWithin other self }
    {
        self.lo <= other.lo && other.hi <= self.hi
    }

    /// The least offsets that cover both.
    pub fn join(self, other: Offsets) -> Offsets
        ensures row { result ≡ join_spans self other }
    {
        Offsets {
            lo: self.lo.min(other.lo),
            hi: self.hi.max(other.hi),
        }
    }

    // The offsets from one to another, where they stay within the limit.
    fn limited(lo: i128, hi: i128) -> Option<Offsets>
        requires { lo ≤ℤ hi }
        ensures { result ≡ limited (record { lo = lo; hi = hi }) }
    {
        if i128::from(-LIMIT) <= lo && hi <= i128::from(LIMIT) {
            Some(Offsets {
                lo: lo as i32,
                hi: hi as i32,
            })
        } else {
            None
        }
    }

    /// These offsets moved on by a number of the range, read with its sign; none where they leave the limit.
    pub fn moved_on(self, by: Range) -> Option<Offsets>
        ensures row { result ≡ moved_on self by }
    {
        let by = Signed::of(by);
        Offsets::limited(i128::from(self.lo) + by.lo, i128::from(self.hi) + by.hi)
    }

    /// These offsets moved back by a number of the range, read with its sign; none where they leave the limit.
    pub fn moved_back(self, by: Range) -> Option<Offsets>
        ensures row { result ≡ moved_back self by }
    {
        let by = Signed::of(by);
        Offsets::limited(i128::from(self.lo) - by.hi, i128::from(self.hi) - by.lo)
    }

    /// Whether `size` bytes at a distance from each of these offsets lie in a region of `len` bytes.
    pub fn fits(self, offset: i16, size: u32, len: u32) -> bool
        ensures { result ≡ fits self offset size len }
    {
        let (lo, hi) = (i64::from(self.lo), i64::from(self.hi));
        let offset = i64::from(offset);
        lo + offset >= 0 && hi + offset + i64::from(size) <= i64::from(len)
    }
}
