//! Where control may go in a text, and how long its longest path is.
//!
//! A jump at unit `i` by distance `d` goes to unit `i + 1 + d` (RFC 9669, section 4.3), a conditional
//! one there or to the unit behind it, EXIT nowhere, and each other instruction to the unit behind it,
//! which for a wide instruction is `i + 2`. A text's flow is legal where each successor of each
//! instruction, reachable or not, lies forward, in the text and at an instruction's start. So a run
//! ends after at most as many instructions as the text has.
//!
//! - [`Flow::of`] answers the flow of a text exactly where it is legal, and else the first fault, in
//!   rising order of the instructions.
//! - [`Flow::successors`] gives the units where control may be next.
//! - [`Flow::longest`] gives the greatest number of instructions on a path from unit 0 to an EXIT. It
//!   is found in one pass from the end.
//!
//! The faults are 11 Backward, 12 OutsideText, 13 IntoWide, 14 FallsOff and 99 OutOfMemory. That
//! jumps go forward is this project's own rule.
//!
//! The definitions are in `specs/`: `Successors` has the successors of an instruction, `Paths` legal
//! flow, paths and the longest one, and `Faults` which fault stands first. What they say of small texts,
//! worked by hand, is the contract of [`worked`](worked::worked).
//!
//! The checker and the verifier stand on this crate.
#![tactic(auto)]

mod check;
mod fault;
mod flow;
pub mod laws;
mod longest;
mod successors;
pub mod worked;

pub use fault::{FlowFault, FlowRule};
pub use flow::Flow;
pub use successors::Successors;
