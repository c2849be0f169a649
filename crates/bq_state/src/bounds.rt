//! The lengths that records may have.

ghost use Rattle.std.specs.Prelude.{◌≡◌, ◌↔◌, IsTrue};
ghost use Rattle.std.specs.Option.{SomeIff};
ghost use Rattle.bq_range.specs.Interval.{Within, between, join, meet};
ghost use Rattle.bq_state.specs.Kinds.{AreLengths, all_lengths, length_kind, view_lengths};

use crate::kind::Kind;
use bq_meaning::{LEAST_RECORD, RECORD_LENGTH, RECORD_ROOM};
use bq_range::Range;
use std::marker::Model;

/// How many bytes a record may have: from a least to a greatest length, both within 16 to 128.
#[derive(Clone, Copy, Debug, PartialEq, Eq)]
pub struct Bounds {
    range: Range,
}

impl Model for Bounds {
    ghost use Rattle.bq_range.specs.Interval.{Interval};
    ghost use Rattle.bq_state.specs.Kinds.{AreLengths};

    ghost Value = { Interval };

    ghost view = { λ b. b.range };

    ghost invariant = { λ b. AreLengths b.range };

    ghost inverse = { λ l. record { range = l } };
}

impl Bounds {
    /// The lengths from `least` to `most`, if they are in order and within 16 to 128.
    pub fn new(least: u8, most: u8) -> Option<Bounds>
        ensures { SomeIff result (AreLengths (between least most)) (between least most) }
    {
        let range = Range::new(u64::from(least), u64::from(most))?;
        if usize::from(least) >= LEAST_RECORD && usize::from(most) <= RECORD_ROOM {
            Some(Bounds { range })
        } else {
            None
        }
    }

    /// 16 to 128 bytes: all lengths that records may have.
    pub fn all() -> Bounds
        ensures { result ≡ all_lengths }
    {
        Bounds {
            range: Range::single(LEAST_RECORD as u64).join(Range::single(RECORD_ROOM as u64)),
        }
    }

    /// The length of a view's records in the first version, 64 bytes, alone.
    pub fn of_views() -> Bounds
        ensures { result ≡ view_lengths }
    {
        Bounds {
            range: Range::single(RECORD_LENGTH as u64),
        }
    }

    /// The least length.
    pub fn least(self) -> u8
        ensures value { result ≡ self.lo }
        ensures lengths { AreLengths self }
    {
        self.range.lo() as u8
    }

    /// The greatest length.
    pub fn most(self) -> u8
        ensures value { result ≡ self.hi }
        ensures lengths { AreLengths self }
    {
        self.range.hi() as u8
    }

    // The lengths as a range of words.
    pub(crate) fn range(self) -> Range
        ensures { result ≡ self }
    {
        self.range
    }

    // Whether each of the other lengths is one of these.
    pub(crate) fn covers(self, other: Bounds) -> bool
        ensures { IsTrue result ↔ Within other self }
    {
        self.range.covers(other.range)
    }

    // The least bounds that cover both.
    pub(crate) fn join(self, other: Bounds) -> Bounds
        ensures { result ≡ join self other }
    {
        Bounds {
            range: self.range.join(other.range),
        }
    }

    // Those of the lengths that lie in a range, if there is one.
    pub(crate) fn meet(self, range: Range) -> Option<Bounds>
        ensures { result ≡ meet self range }
    {
        Some(Bounds {
            range: self.range.meet(range)?,
        })
    }

    // What is known of a record's length: a number where there is one length alone.
    pub(crate) fn kind(self) -> Kind
        ensures { result ≡ length_kind self }
    {
        if self.range.is_single() {
            Kind::Number(self.range)
        } else {
            Kind::Length
        }
    }
}
