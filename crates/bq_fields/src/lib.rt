//! The fields of an instruction's unit (RFC 9669, section 3.1): what an opcode makes of them, and what is first
//! wrong in them.
//!
//! - [`FieldUses`] tells of each field whether it is 0, has any value, or has one of a few that are listed.
//! - [`FieldUses::fault`] answers what is first wrong in the fields of a unit: a register number above 10, a wide
//!   instruction that is left out, a field that is not used and not 0, a value that is not listed.
//! - [`UnitFault`] is what can be wrong at a unit, with the reason that is told of it.
//!
//! The definitions are `Uses` and `Reasons` of `specs/`. Which opcode makes what of its fields is a table of the crate
//! above, which reads and writes instructions.
#![tactic(auto)]

mod fault;
mod uses;

pub use fault::UnitFault;
pub use uses::{FieldUse, FieldUses};
