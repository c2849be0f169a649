//! Ranges of words, and what BPF's instructions (RFC 9669) make of them.
//!
//! A [`Range`](range::Range) is the words from one number to another, both included. It stands for
//! what a register can hold, and a checker of programs computes with it in place of the word.
//!
//! - `alu`, `negate`, `extend`, `low_bits` and `swap` give the range that an operation leaves
//!   (sections 4.1 and 4.2), `of_load` and `of_signed_load` that of a load (sections 5.1 and 5.2).
//! - `narrow` gives what a branch leaves of its two operands (section 4.3), on the edge
//!   that is taken and on the one that is not, or says that no words lead there.
//! - `join`, `meet` and `covers` combine and compare ranges.
//!
//! Each of these is a table, which `specs/Interval.antt`, `specs/Table.antt` and
//! `specs/Narrow.antt` write down in plain arithmetic, row by row: the clause `row` of a call
//! says that its result is that row. The clause `covers` says that the row is right: what the
//! operation leaves of any words of the operands, by the definitions of `bq_word`, lies in the
//! range. Of single words the range is the exact result. What a branch leaves is the least range
//! of the words that can be there.
//!
//! The rows are monotone too: smaller ranges in, smaller ranges out (`specs/Monotone.antt` and the law
//! [`rows_are_monotone`](laws::rows_are_monotone)).
//!
//! The same facts stand as lemmas over the tables in `proofs/Covers.antt`, for proofs of crates
//! above that speak of no call. What the tables say at telling operands, worked by hand, is the
//! contract of [`worked`](worked::worked).
//!
//! No call refuses an input, and none takes memory. States of registers and the checker of
//! programs stand on this crate.
#![tactic(auto)]

pub mod laws;
mod range;
pub mod worked;

pub use range::Range;
