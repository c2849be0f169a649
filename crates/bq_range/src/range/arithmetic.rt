// What an operation of two operands leaves: a function for each row of the table. Unless one says
// otherwise, the operands are ranges of numbers of the width.

ghost use Rattle.std.specs.Prelude.{◌≡◌, ℕ, ◌≤◌, ◌<◌, ◌+◌, ◌^◌, ◌-◌, ◌%◌};
ghost use Rattle.bq_word.specs.Word.{bits_of, operation};
ghost use Rattle.bq_range.specs.Interval.{IsIn};
ghost use Rattle.bq_range.specs.Table.{operated, row, sums, differences, products, quotients, remainders, ones, conjunctions, disjunctions, exclusive_disjunctions, shifted_left, left_shifts, right_shifts, arithmetic_right_shifts};

use super::Range;
use super::width::{bits, sign, top, whole};
use bq_word::{AluOp, Width, alu};

impl Range {
    /// What an operation at a width leaves of two operands (RFC 9669, section 4.1), of which `a` is
    /// the destination.
    ///
    /// Of two single words it is the exact result. At 32 bits each operand is cut to its low half
    /// first: to all of 0 to 2^32 - 1 where its words differ above bit 31.
    pub fn alu(width: Width, op: AluOp, a: Range, b: Range) -> Range
        ensures row { result ≡ operated (bits_of width) op a b }
        ensures covers { (x y : ℕ) → IsIn x a → IsIn y b → IsIn (operation (bits_of width) op x y) result }
    {
        if a.is_single() && b.is_single() {
            Range::single(alu(width, op, a.lo, b.lo))
        } else {
            row(width, op, a.cut(width), b.cut(width))
        }
    }
}

// The row of an operation. One that has none may leave any number of the width.
fn row(width: Width, op: AluOp, a: Range, b: Range) -> Range
    requires left { a.hi < 2 ^ bits_of width }
    requires right { b.hi < 2 ^ bits_of width }
    ensures { result ≡ row (bits_of width) op a b }
{
    match op {
        AluOp::Add => sums(width, a, b),
        AluOp::Sub => differences(width, a, b),
        AluOp::Mul => products(width, a, b),
        AluOp::Div => quotients(a, b),
        AluOp::Or => disjunctions(a, b),
        AluOp::And => conjunctions(a, b),
        AluOp::ShiftLeft => left_shifts(width, a, b),
        AluOp::ShiftRight => right_shifts(width, a, b),
        AluOp::Mod => remainders(a, b),
        AluOp::Xor => exclusive_disjunctions(a, b),
        AluOp::Mov => b,
        AluOp::ArithmeticShiftRight => arithmetic_right_shifts(width, a, b),
        _ => whole(width),
    }
}

fn sums(width: Width, a: Range, b: Range) -> Range
    requires left { a.hi < 2 ^ bits_of width }
    requires right { b.hi < 2 ^ bits_of width }
    ensures { result ≡ sums (bits_of width) a b }
{
    let modulus = u128::from(top(width)) + 1;
    let lo = u128::from(a.lo) + u128::from(b.lo);
    let hi = u128::from(a.hi) + u128::from(b.hi);
    if hi < modulus {
        Range {
            lo: lo as u64,
            hi: hi as u64,
        }
    } else if modulus <= lo {
        Range {
            lo: (lo - modulus) as u64,
            hi: (hi - modulus) as u64,
        }
    } else {
        whole(width)
    }
}

fn differences(width: Width, a: Range, b: Range) -> Range
    requires left { a.hi < 2 ^ bits_of width }
    requires right { b.hi < 2 ^ bits_of width }
    ensures { result ≡ differences (bits_of width) a b }
{
    if b.hi <= a.lo {
        Range {
            lo: a.lo - b.hi,
            hi: a.hi - b.lo,
        }
    } else if a.hi < b.lo {
        let top = top(width);
        Range {
            lo: top - (b.hi - a.lo - 1),
            hi: top - (b.lo - a.hi - 1),
        }
    } else {
        whole(width)
    }
}

fn products(width: Width, a: Range, b: Range) -> Range
    ensures { result ≡ products (bits_of width) a b }
{
    match a.hi.checked_mul(b.hi) {
        Some(hi) if hi <= top(width) => Range {
            lo: a.lo * b.lo,
            hi,
        },
        _ => whole(width),
    }
}

fn quotients(a: Range, b: Range) -> Range
    ensures { result ≡ quotients a b }
{
    if 1 <= b.lo {
        Range {
            lo: a.lo / b.hi,
            hi: a.hi / b.lo,
        }
    } else {
        Range::up_to(a.hi)
    }
}

fn remainders(a: Range, b: Range) -> Range
    ensures { result ≡ remainders a b }
{
    if 1 <= b.lo {
        if a.hi < b.lo {
            a
        } else {
            Range::up_to(a.hi.min(b.hi - 1))
        }
    } else {
        Range::up_to(a.hi)
    }
}

// The least 2^k - 1 that is at least `x`.
fn ones(x: u64) -> u64
    ensures value { result ≡ ones x }
    ensures above { x ≤ result }
    ensures least { (k : ℕ) → x < 2 ^ k → result < 2 ^ k }
{
    if x == 0 {
        0
    } else {
        u64::MAX >> x.leading_zeros()
    }
}

fn conjunctions(a: Range, b: Range) -> Range
    ensures { result ≡ conjunctions a b }
{
    Range::up_to(a.hi.min(b.hi))
}

fn disjunctions(a: Range, b: Range) -> Range
    ensures { result ≡ disjunctions a b }
{
    let hi = a.hi.max(b.hi);
    Range {
        lo: a.lo.max(b.lo),
        hi: ones(hi),
    }
}

fn exclusive_disjunctions(a: Range, b: Range) -> Range
    ensures { result ≡ exclusive_disjunctions a b }
{
    Range::up_to(ones(a.hi.max(b.hi)))
}

fn shifted_left(width: Width, a: Range, count: u64) -> Range
    requires { count < 64 }
    ensures { result ≡ shifted_left (bits_of width) a count }
{
    if a.hi <= top(width) >> count {
        Range {
            lo: a.lo << count,
            hi: a.hi << count,
        }
    } else {
        whole(width)
    }
}

fn left_shifts(width: Width, a: Range, b: Range) -> Range
    ensures { result ≡ left_shifts (bits_of width) a b }
{
    if b.is_single() {
        shifted_left(width, a, b.lo % bits(width))
    } else {
        whole(width)
    }
}

fn right_shifts(width: Width, a: Range, b: Range) -> Range
    ensures { result ≡ right_shifts (bits_of width) a b }
{
    if b.is_single() {
        let count = b.lo % bits(width);
        Range {
            lo: a.lo >> count,
            hi: a.hi >> count,
        }
    } else {
        Range::up_to(a.hi)
    }
}

fn arithmetic_right_shifts(width: Width, a: Range, b: Range) -> Range
    requires { a.hi < 2 ^ bits_of width }
    ensures { result ≡ arithmetic_right_shifts (bits_of width) a b }
{
    let half = sign(width);
    if b.is_single() {
        if a.hi < half || half <= a.lo {
            let op = AluOp::ArithmeticShiftRight;
            Range {
                lo: alu(width, op, a.lo, b.lo),
                hi: alu(width, op, a.hi, b.lo),
            }
        } else {
            whole(width)
        }
    } else if a.hi < half {
        Range::up_to(a.hi)
    } else {
        whole(width)
    }
}
