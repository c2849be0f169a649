//! How numbers are spelled: in decimal, and in bytes from the lowest.
//!
//! - [`natural`] reads the number below 2^64 that a text stands for: digits, with no zero in front of others and no
//!   sign. What it reads is what is written of a number, and nothing else: [`laws`].
//! - [`take_byte`], [`take_u16`], [`take_u32`], [`take_u64`] and [`take_front`] read what stands at the front of bytes,
//!   and leave what stands behind it. Where there are too few bytes, nothing is taken.
//! - [`put_u16`], [`put_u32`] and [`put_u64`] write numbers at the end of bytes.
//!
//! The bytes of messages, notes, journals, requests and replies are all spelled by these, and told apart by the lemmas
//! on prefix codes: codes of which no value's bytes begin another's.
#![tactic(auto)]

mod front;
pub mod laws;
mod numeral;
mod put;
pub mod worked;

pub use front::{take_byte, take_front, take_u16, take_u32, take_u64};
pub use numeral::natural;
pub use put::{put_u16, put_u32, put_u64};
