//! Kinds: what is known of one register.

ghost use Rattle.std.specs.Prelude.{◌≡◌, ◌↔◌, IsTrue, Ok, Err, if◌then◌else◌};
ghost use Rattle.bq_state.specs.Kinds.{KindCovers, as_number, join_kinds};
ghost use Rattle.bq_state.specs.Offsets.{fits};
ghost use Rattle.bq_state.specs.Plain.{IsPlainKind};
ghost use Rattle.bq_state.specs.Rules.{inside, known, number, readable, storable, sum_kind, difference_kind, pointer_kind, operated_kind, alu_kind};

use crate::bounds::Bounds;
use crate::offsets::Offsets;
use crate::region::Region;
use crate::rule::Rule;
use bq_meaning::FRAME_LENGTH;
use bq_range::Range;
use bq_word::{AluOp, Width};

/// What is known of a register.
#[derive(Clone, Copy, Debug, PartialEq, Eq)]
pub enum Kind {
    /// Nothing: it may be unset.
    Unset,
    /// A number in a range.
    Number(Range),
    /// The start of a region plus one of these offsets.
    Pointer(Region, Offsets),
    /// The number of the record's bytes.
    Length,
}

// Whether so many bytes at a distance from there lie in the region.
fn in_region(
    lengths: Bounds,
    region: Region,
    at: Offsets,
    offset: i16,
    size: u32,
) -> Result<(), Rule>
    ensures { result ≡ inside lengths region at offset size }
{
    if at.fits(offset, size, region.length(lengths)) {
        Ok(())
    } else {
        Err(region.outside())
    }
}

// Whether so many bytes at a distance from there lie in the frame.
fn in_frame(at: Offsets, offset: i16, size: u32) -> Result<(), Rule>
    ensures { result ≡ (if fits at offset size 512 then Ok tt else Err Rule.OutsideFrame) }
{
    if at.fits(offset, size, FRAME_LENGTH as u32) {
        Ok(())
    } else {
        Err(Rule::OutsideFrame)
    }
}

impl Kind {
    // Whether what holds of the other, where records have these lengths, holds of this one.
    pub(crate) fn covers(self, other: Kind, lengths: Bounds) -> bool
        ensures { IsTrue result ↔ KindCovers lengths self other }
    {
        match self {
            Kind::Unset => true,
            Kind::Number(a) => match other {
                Kind::Number(b) => a.covers(b),
                Kind::Length => a.covers(lengths.range()),
                _ => false,
            },
            Kind::Pointer(region, a) => match other {
                Kind::Pointer(into, b) => region == into && a.covers(b),
                _ => false,
            },
            Kind::Length => match other {
                Kind::Length => true,
                _ => false,
            },
        }
    }

    // The least kind that covers both, each where records have its lengths.
    pub(crate) fn join(self, lengths: Bounds, other: Kind, others: Bounds) -> Kind
        ensures { result ≡ join_kinds lengths others self other }
    {
        match self {
            Kind::Unset => Kind::Unset,
            Kind::Number(a) => match other {
                Kind::Number(b) => Kind::Number(a.join(b)),
                Kind::Length => Kind::Number(a.join(others.range())),
                _ => Kind::Unset,
            },
            Kind::Length => match other {
                Kind::Number(b) => Kind::Number(lengths.range().join(b)),
                Kind::Length => Kind::Length,
                _ => Kind::Unset,
            },
            Kind::Pointer(region, a) => match other {
                Kind::Pointer(into, b) => {
                    if region == into {
                        Kind::Pointer(region, a.join(b))
                    } else {
                        Kind::Unset
                    }
                }
                _ => Kind::Unset,
            },
        }
    }

    // Whether something is known.
    pub(crate) fn is_set(self) -> bool
        ensures { (IsTrue result → ⊥) → self ≡ Kind.Unset }
    {
        match self {
            Kind::Unset => false,
            _ => true,
        }
    }

    // Whether it is known by more than being the record's length.
    pub(crate) fn is_plain(self) -> bool
        ensures { IsTrue result ↔ IsPlainKind self }
    {
        match self {
            Kind::Length => false,
            _ => true,
        }
    }

    // What it is where its number is asked for: a length is one of these.
    pub(crate) fn as_number(self, lengths: Bounds) -> Kind
        ensures { result ≡ as_number lengths self }
    {
        match self {
            Kind::Length => Kind::Number(lengths.range()),
            kind => kind,
        }
    }

    // The kind of a register that is read, which is set.
    pub(crate) fn known(self) -> Result<Kind, Rule>
        ensures { result ≡ known self }
    {
        match self {
            Kind::Unset => Err(Rule::UnsetRegister),
            kind => Ok(kind),
        }
    }

    // The range of a number; of any other kind this rule is broken.
    pub(crate) fn number(self, rule: Rule) -> Result<Range, Rule>
        ensures { result ≡ number rule self }
    {
        match self {
            Kind::Number(range) => Ok(range),
            _ => Err(rule),
        }
    }

    // Whether so many bytes may be read at a distance from there.
    pub(crate) fn readable(self, lengths: Bounds, offset: i16, size: u32) -> Result<(), Rule>
        ensures { result ≡ readable lengths self offset size }
    {
        match self {
            Kind::Pointer(region, at) => in_region(lengths, region, at, offset, size),
            _ => Err(Rule::WrongKind),
        }
    }

    // Whether a value of this kind may be written at a distance from there.
    pub(crate) fn storable(self, value: Kind, offset: i16, size: u32) -> Result<(), Rule>
        ensures { result ≡ storable self value offset size }
    {
        let Kind::Number(_) = value else {
            return Err(Rule::WrongKind);
        };
        match self {
            Kind::Pointer(region, at) => match region {
                Region::Frame => in_frame(at, offset, size),
                Region::Record => Err(Rule::RecordWritten),
            },
            _ => Err(Rule::WrongKind),
        }
    }

    // A pointer moved on by a number, in either order.
    fn sum(self, other: Kind) -> Option<Kind>
        ensures { result ≡ sum_kind self other }
    {
        match self {
            Kind::Number(by) => match other {
                Kind::Pointer(region, at) => Some(Kind::Pointer(region, at.moved_on(by)?)),
                _ => None,
            },
            Kind::Pointer(region, at) => match other {
                Kind::Number(by) => Some(Kind::Pointer(region, at.moved_on(by)?)),
                _ => None,
            },
            _ => None,
        }
    }

    // A pointer moved back by a number.
    fn difference(self, other: Kind) -> Option<Kind>
        ensures { result ≡ difference_kind self other }
    {
        let Kind::Number(by) = other else {
            return None;
        };
        match self {
            Kind::Pointer(region, at) => Some(Kind::Pointer(region, at.moved_back(by)?)),
            _ => None,
        }
    }

    // What an operation makes of two kinds of which one is no number.
    fn pointer(width: Width, op: AluOp, a: Kind, b: Kind) -> Option<Kind>
        ensures { result ≡ pointer_kind width op a b }
    {
        match width {
            Width::W32 => None,
            Width::W64 => match op {
                AluOp::Add => a.sum(b),
                AluOp::Sub => a.difference(b),
                _ => None,
            },
        }
    }

    // What an operation makes of two kinds whose numbers it takes, where it is allowed.
    fn operated(width: Width, op: AluOp, a: Kind, b: Kind) -> Option<Kind>
        ensures { result ≡ operated_kind width op a b }
    {
        match a {
            Kind::Number(x) => match b {
                Kind::Number(y) => Some(Kind::Number(Range::alu(width, op, x, y))),
                _ => Kind::pointer(width, op, a, b),
            },
            _ => Kind::pointer(width, op, a, b),
        }
    }

    // What an operation makes of two kinds, where it is allowed: a move of 64 bits copies the second.
    pub(crate) fn alu(lengths: Bounds, width: Width, op: AluOp, a: Kind, b: Kind) -> Option<Kind>
        ensures { result ≡ alu_kind lengths width op a b }
    {
        match (width, op) {
            (Width::W64, AluOp::Mov) => Some(b),
            _ => Kind::operated(width, op, a, b.as_number(lengths)),
        }
    }
}
