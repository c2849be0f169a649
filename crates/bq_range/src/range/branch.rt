// What a branch leaves of the ranges of its two operands.
//
// One pair of functions, `ahead` and `behind`, serves the eight relations of order, signed and
// unsigned, strict and not: they go by an order of words that begins at a given word.

ghost use Rattle.std.specs.Prelude.{◌≡◌, ℕ, ◌≤◌, ◌<◌, ◌+◌, ◌^◌, ◌-◌, if◌then◌else◌, IfSome};
ghost use Rattle.std.specs.Option.{IsSomeAnd, option_and_then};
ghost use Rattle.bq_word.specs.Word.{bits_of, relates};
ghost use Rattle.bq_range.specs.Interval.{IsIn, Within};
ghost use Rattle.bq_range.specs.Narrow.{below, from, hull, first, last, ahead, behind, sign, narrowed_to, opposite, converse, narrowed_by, by_common_bit, by_opposite, branched, IsNarrowing};

use super::Range;
use super::width::{sign, top};
use bq_word::{Relation, Width, relates};

impl Range {
    /// What an edge of a branch on a relation (RFC 9669, section 4.3) leaves of its two operands:
    /// the edge where the relation holds, with `taken`, or the one where it does not.
    ///
    /// None where no two words lead to that edge. Else each operand has the least range of its
    /// words that some word of the other leads there with. Two cases learn less: a branch on
    /// common bits is decided by two single words alone, and at 32 bits ranges that reach 2^32 stay
    /// as they are.
    #[inline(always)]
    pub fn narrow(
        width: Width,
        relation: Relation,
        taken: bool,
        a: Range,
        b: Range,
    ) -> Option<(Range, Range)>
        ensures row { result ≡ branched (bits_of width) relation taken a b }
        ensures covers { (x y : ℕ) → IsIn x a → IsIn y b → relates (bits_of width) relation x y ≡ taken → IsSomeAnd result (λ p. IsIn x p.0 × IsIn y p.1) }
        ensures inside { IfSome result (λ p. Within p.0 a × Within p.1 b) }
        ensures least { (relation ≡ Relation.CommonBit → ⊥) → a.hi < 2 ^ bits_of width → b.hi < 2 ^ bits_of width → IsNarrowing (λ x y. relates (bits_of width) relation x y ≡ taken) a b result }
    {
        if a.hi <= top(width) && b.hi <= top(width) {
            by_opposite(width, relation, opposite(relation), taken, a, b)
        } else {
            Some((a, b))
        }
    }

    // The words below `t`; with `inclusive` also `t` itself.
    fn before(self, t: u64, inclusive: bool) -> Option<Range>
        ensures { result ≡ below (t + (if inclusive then 1 else 0)) self }
    {
        if inclusive {
            Range::new(self.lo, self.hi.min(t))
        } else if self.lo < t {
            Some(Range {
                lo: self.lo,
                hi: self.hi.min(t - 1),
            })
        } else {
            None
        }
    }

    // The words above `t`; with `inclusive` also `t` itself.
    fn after(self, t: u64, inclusive: bool) -> Option<Range>
        ensures { result ≡ from (t + (if inclusive then 0 else 1)) self }
    {
        if inclusive {
            Range::new(self.lo.max(t), self.hi)
        } else if t < self.hi {
            Some(Range {
                lo: self.lo.max(t + 1),
                hi: self.hi,
            })
        } else {
            None
        }
    }
}

// The least range that covers what there is of two.
fn hull(a: Option<Range>, b: Option<Range>) -> Option<Range>
    ensures { result ≡ hull a b }
{
    match a {
        None => b,
        Some(r) => match b {
            None => Some(r),
            Some(s) => Some(r.join(s)),
        },
    }
}

// The first word of a range in the order of words that begins at `start` and goes on with 0 after
// the greatest word: from 0 that is the words' own order, from the least number whose sign is set
// the order of signed numbers.
fn first(start: u64, a: Range) -> u64
    ensures { result ≡ first start a }
{
    if a.lo < start && start <= a.hi {
        start
    } else {
        a.lo
    }
}

// The last word of a range in that order.
fn last(start: u64, a: Range) -> u64
    ensures { result ≡ last start a }
{
    if a.lo < start && start <= a.hi {
        start - 1
    } else {
        a.hi
    }
}

// The least range of the words that come before `t` in that order; with `inclusive` also `t`.
fn ahead(start: u64, inclusive: bool, t: u64, a: Range) -> Option<Range>
    ensures { result ≡ ahead start (if inclusive then 1 else 0) t a }
{
    let low = a.before(start, false);
    let high = a.after(start, true);
    if t < start {
        hull(before(low, t, inclusive), high)
    } else {
        before(high, t, inclusive)
    }
}

// The least range of the words that come after `t` in that order; with `inclusive` also `t`.
fn behind(start: u64, inclusive: bool, t: u64, a: Range) -> Option<Range>
    ensures { result ≡ behind start (if inclusive then 0 else 1) t a }
{
    let low = a.before(start, false);
    let high = a.after(start, true);
    if t < start {
        after(low, t, inclusive)
    } else {
        hull(low, after(high, t, inclusive))
    }
}

// Of the words that there are, those below `t`, or up to it.
fn before(a: Option<Range>, t: u64, inclusive: bool) -> Option<Range>
    ensures { result ≡ option_and_then (below (t + (if inclusive then 1 else 0))) a }
{
    match a {
        None => None,
        Some(a) => a.before(t, inclusive),
    }
}

// Of the words that there are, those above `t`, or from it on.
fn after(a: Option<Range>, t: u64, inclusive: bool) -> Option<Range>
    ensures { result ≡ option_and_then (from (t + (if inclusive then 0 else 1))) a }
{
    match a {
        None => None,
        Some(a) => a.after(t, inclusive),
    }
}

// The least range of the words of `a` that stand in a relation to some word of `b`.
#[inline(always)]
fn narrowed_to(width: Width, relation: Relation, a: Range, b: Range) -> Option<Range>
    ensures { result ≡ narrowed_to (bits_of width) relation a b }
{
    let sign = sign(width);
    match relation {
        Relation::Equal => a.meet(b),
        Relation::NotEqual => {
            if b.is_single() {
                hull(a.before(b.lo, false), a.after(b.lo, false))
            } else {
                Some(a)
            }
        }
        Relation::Less => ahead(0, false, last(0, b), a),
        Relation::LessOrEqual => ahead(0, true, last(0, b), a),
        Relation::Greater => behind(0, false, first(0, b), a),
        Relation::GreaterOrEqual => behind(0, true, first(0, b), a),
        Relation::SignedLess => ahead(sign, false, last(sign, b), a),
        Relation::SignedLessOrEqual => ahead(sign, true, last(sign, b), a),
        Relation::SignedGreater => behind(sign, false, first(sign, b), a),
        Relation::SignedGreaterOrEqual => behind(sign, true, first(sign, b), a),
        Relation::CommonBit => Some(a),
    }
}

// The relation that holds where this one does not; common bits have none.
fn opposite(relation: Relation) -> Option<Relation>
    ensures { result ≡ opposite relation }
{
    Some(match relation {
        Relation::Equal => Relation::NotEqual,
        Relation::NotEqual => Relation::Equal,
        Relation::Less => Relation::GreaterOrEqual,
        Relation::LessOrEqual => Relation::Greater,
        Relation::Greater => Relation::LessOrEqual,
        Relation::GreaterOrEqual => Relation::Less,
        Relation::SignedLess => Relation::SignedGreaterOrEqual,
        Relation::SignedLessOrEqual => Relation::SignedGreater,
        Relation::SignedGreater => Relation::SignedLessOrEqual,
        Relation::SignedGreaterOrEqual => Relation::SignedLess,
        Relation::CommonBit => return None,
    })
}

// The same relation, asked from the other side.
fn converse(relation: Relation) -> Relation
    ensures { result ≡ converse relation }
{
    match relation {
        Relation::Less => Relation::Greater,
        Relation::LessOrEqual => Relation::GreaterOrEqual,
        Relation::Greater => Relation::Less,
        Relation::GreaterOrEqual => Relation::LessOrEqual,
        Relation::SignedLess => Relation::SignedGreater,
        Relation::SignedLessOrEqual => Relation::SignedGreaterOrEqual,
        Relation::SignedGreater => Relation::SignedLess,
        Relation::SignedGreaterOrEqual => Relation::SignedLessOrEqual,
        same => same,
    }
}

// Both operands where a relation holds.
fn narrowed_by(width: Width, relation: Relation, a: Range, b: Range) -> Option<(Range, Range)>
    ensures { result ≡ narrowed_by (bits_of width) relation a b }
{
    let left = narrowed_to(width, relation, a, b)?;
    let right = narrowed_to(width, converse(relation), b, a)?;
    Some((left, right))
}

// Two single words decide an edge on common bits; else nothing is learnt.
fn by_common_bit(width: Width, taken: bool, a: Range, b: Range) -> Option<(Range, Range)>
    ensures { result ≡ by_common_bit (bits_of width) taken a b }
{
    if a.is_single() && b.is_single() && relates(width, Relation::CommonBit, a.lo, b.lo) != taken {
        None
    } else {
        Some((a, b))
    }
}

// Both operands on an edge of a branch on a relation that has this opposite.
fn by_opposite(
    width: Width,
    relation: Relation,
    opposite: Option<Relation>,
    taken: bool,
    a: Range,
    b: Range,
) -> Option<(Range, Range)>
    ensures { result ≡ by_opposite (bits_of width) relation opposite taken a b }
{
    match opposite {
        None => by_common_bit(width, taken, a, b),
        Some(other) => narrowed_by(width, if taken { relation } else { other }, a, b),
    }
}
