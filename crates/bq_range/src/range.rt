// The type of a range, and how ranges are compared and combined.

ghost use Rattle.std.specs.Prelude.{◌≡◌, ℕ, ◌≤◌, ◌<◌, ◌^◌, ◌↔◌, IsTrue, IfSome, IfNone};
ghost use Rattle.std.specs.Option.{SomeIff};
ghost use Rattle.bq_range.specs.Interval.{Interval, IsInterval, IsIn, Within, between, single, is_single, all_words, join, meet};

use std::marker::Model;

mod arithmetic;
mod branch;
mod one_operand;
mod width;

/// The words from a least one to a greatest one, both included: unsigned numbers of 64 bits, of
/// which there is at least one.
#[derive(Clone, Copy, Debug, PartialEq, Eq)]
pub struct Range {
    lo: u64,
    hi: u64,
}

impl Model for Range {
    ghost use Rattle.std.specs.Prelude.{◌≤◌};
    ghost use Rattle.bq_range.specs.Interval.{Interval};

    ghost Value = { Interval };

    ghost view = { λ r. record { lo = r.lo; hi = r.hi } };

    ghost invariant = { λ r. r.lo ≤ r.hi };

    ghost inverse = { λ i. record { lo = i.lo; hi = i.hi } };
}

impl Range {
    /// The words from `lo` to `hi`, both included; none where `lo` is above `hi`.
    pub fn new(lo: u64, hi: u64) -> Option<Range>
        ensures { SomeIff result (lo ≤ hi) (between lo hi) }
    {
        if lo <= hi {
            Some(Range { lo, hi })
        } else {
            None
        }
    }

    /// One word.
    pub fn single(word: u64) -> Range
        ensures { result ≡ single word }
    {
        Range { lo: word, hi: word }
    }

    /// The words from 0 to `hi`.
    pub fn up_to(hi: u64) -> Range
        ensures { result ≡ between 0 hi }
    {
        Range { lo: 0, hi }
    }

    /// Every word.
    pub fn full() -> Range
        ensures { result ≡ all_words }
    {
        Range::up_to(u64::MAX)
    }

    /// The least word.
    pub fn lo(self) -> u64
        ensures value { result ≡ self.lo }
        ensures words { IsInterval self }
    {
        self.lo
    }

    /// The greatest word.
    pub fn hi(self) -> u64
        ensures value { result ≡ self.hi }
        ensures words { IsInterval self }
    {
        self.hi
    }

    /// Whether there is one word alone.
    pub fn is_single(self) -> bool
        ensures { result ≡ is_single self }
    {
        self.lo == self.hi
    }

    /// Whether each word of the other lies inside.
    pub fn covers(self, other: Range) -> bool
        ensures ends { IsTrue result ↔ Within other self }
        ensures words { IsTrue result ↔ ((x : ℕ) → IsIn x other → IsIn x self) }
    {
        self.lo <= other.lo && other.hi <= self.hi
    }

    /// The least range that covers both.
    pub fn join(self, other: Range) -> Range
        ensures row { result ≡ join self other }
        ensures left { Within self result }
        ensures right { Within other result }
        ensures least { (c : Interval) → Within self c → Within other c → Within result c }
    {
        Range {
            lo: self.lo.min(other.lo),
            hi: self.hi.max(other.hi),
        }
    }

    /// The words that lie in both; none where there is no such word.
    pub fn meet(self, other: Range) -> Option<Range>
        ensures row { result ≡ meet self other }
        ensures some { IfSome result (λ r. (x : ℕ) → IsIn x r ↔ (IsIn x self × IsIn x other)) }
        ensures none { IfNone result ((x : ℕ) → IsIn x self → IsIn x other → ⊥) }
    {
        Range::new(self.lo.max(other.lo), self.hi.min(other.hi))
    }
}
