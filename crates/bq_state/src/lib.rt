//! What is known of a machine at a unit of a program, and the rules of the checker.
//!
//! A [`State`] says which lengths the record may have, its [`Bounds`], and of each of the eleven registers what is
//! known of it, its [`Kind`]: nothing, a number in a range, a pointer to a [`Region`], the frame or the record, plus
//! one of a range of [`Offsets`], or that it holds the record's length. Offsets lie within -65,536 to 65,536, lengths
//! within 16 to 128. A length is a number wherever a number is allowed, a move of 64 bits copies it, and a branch on
//! it narrows the lengths that the record may have.
//!
//! - [`State::entry`] is the state at the entry of a run over a record.
//! - [`State::transfer`] gives the state that an instruction leaves, or the first [`Rule`] that it
//!   breaks, in the order of the tests: registers that are read are set (23 UnsetRegister), the one
//!   that is written is not r10 (28 FramePointerWritten), operands have the kinds that the operation
//!   takes (24 WrongKind, and 30 AnswerKind for the answer), a store's region is the frame (27
//!   RecordWritten), and the bytes of an access lie in its region (25 OutsideFrame, 26
//!   OutsideRecord); the record has as many bytes as its least length.
//! - [`State::edges`] gives the units where control may go on, each with its state: a branch narrows
//!   the ranges that it compares, and an edge that no numbers lead to is left out.
//! - [`way_on`] tells where control goes on from an instruction that is no branch, whatever its state.
//! - [`State::covers`] compares states, and [`State::join`] gives the least that covers two.
//! - [`State::apply`], [`State::follow`] and [`State::join_with`] change one state in place, as
//!   [`State::transfer`], one of [`State::edges`] and [`State::join`] say: a state is large, and copies cost time.
//!
//! Pointers move by numbers at 64 bits alone, may be moved from register to register and nothing
//! else, and never are stored, compared or answered.
//!
//! The tables stand in `specs/`, apart from the code: `Offsets`, `Kinds`, `Rules` with what each
//! instruction makes of a state, `Edges`, `InPlace` with one way on and what calls make of a state in
//! place, `Onward` with how control goes on, `Listed` with the list that a call's edges are, and
//! `Reasons`. `Covers` says what a state says of a machine's registers under a placement, and `Monotone`
//! that of less an instruction leaves less.
//! `laws` has what follows for all states. No call takes memory, and none refuses an input.
//!
//! The soundness of the rules, the checker and the verifier stand on this crate.
#![tactic(auto)]

mod bounds;
mod edges;
mod kind;
pub mod laws;
mod offsets;
mod region;
mod rule;
mod state;
mod transfer;
pub mod worked;

pub use bounds::Bounds;
pub use edges::{Edge, Edges, Onward, way_on};
pub use kind::Kind;
pub use offsets::Offsets;
pub use region::Region;
pub use rule::Rule;
pub use state::State;
