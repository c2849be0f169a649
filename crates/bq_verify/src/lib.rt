//! The states of a program, found by one pass.
//!
//! [`verify_within`] gives the notes of a text that needs no jump back, for records of some lengths: in
//! rising order of the units, the state of each is the join of what its feasible predecessors leave (at
//! the first unit, of the entry too), and a unit that none of them reaches has none. Where it gives notes,
//! they pass the checker, so that `bq_check::check_within` certifies the text with them. Else it names the
//! first fault of the flow, or the first rule that an instruction breaks in its state. [`verify`] is for
//! records of all lengths, 16 to 128 bytes.
//!
//! The notes are the best that there are: each state is covered by the state there of all notes that
//! pass, and for a text that is refused, want of memory aside, no notes pass.
//!
//! [`state_at`] gives what is known where one instruction begins, from the units below it alone, so that it
//! can be asked of the instruction that breaks a rule.
//!
//! The definitions are in `specs/`: `States` has the states of a text, `Refused` what is refused and
//! `Least` what makes the states the best. `laws` has that they are, for all texts.
//!
//! A caller, proved in `callers`: notes with which a text passes the checker, or none where no notes do.
//!
//! ```rust
//! pub fn notes_if_any(alloc: Global, text: &Text) -> Result<Option<Notes>, AllocError>
//!     ensures { IfOk result (λ found.
//!         MatchOption found (NonePass all_lengths text.now) (Passes all_lengths text.now)) }
//! {
//!     match verify(alloc, text) {
//!         Ok(notes) => Ok(Some(notes)),
//!         Err(CheckFault::OutOfMemory) => Err(AllocError),
//!         Err(_) => Ok(None),
//!     }
//! }
//! ```
#![tactic(auto)]

pub mod laws;
mod verifier;
pub mod worked;

pub use verifier::{state_at, verify, verify_within};
