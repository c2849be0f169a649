//! The checker: untrusted notes are tested, and a text whose notes pass becomes a certificate.
//!
//! [`Notes`] give for each unit of a text a state, what is known of the registers there, or none.
//! They pass for a text and records of some lengths where each unit has one note, and a second half of
//! a wide instruction none; the text's flow is legal; the state at unit 0 covers the entry of a run over
//! a record; and at each unit with a state the instruction breaks no rule, and each feasible successor
//! has a state that covers what the instruction leaves. Where records have one length alone, states tell
//! it by its number.
//!
//! - [`check_within`] answers a [`Certified`] of the very text, notes and lengths handed in exactly where
//!   they pass, unless memory runs out, and else the first fault. Notes are never trusted: it makes no
//!   matter where they come from. [`check`] is for records of all lengths, 16 to 128 bytes.
//! - [`Certified`] can be made by `check_within` alone. It gives back the text, the notes, the lengths and
//!   the longest path.
//! - [`Notes::read`] and [`Notes::bytes`] take notes from bytes and to bytes. Only the bytes of notes
//!   are read, and what is written is read again. [`Notes::read_v1`] and [`Notes::bytes_v1`] are of an
//!   older form, for records of 64 bytes alone.
//!
//! The faults stand in this order: 21 WrongCount, 11 to 14 of the flow, 31 NoteForm, 22 Entry, and at
//! the units in rising order 23 to 28 and 30 of the rules, then 29 NotCovered. 31 is also the refusal
//! of bytes that are no notes, and 99 OutOfMemory may stand in place of any answer.
//!
//! The definitions are in `specs/`: `Faults` has which fault is the first, `Certificate` what a
//! certificate holds, `Spelling` the bytes of notes, and `Reasons` what is told of faults. When
//! notes pass is defined one crate below. `laws` has what follows: notes that pass have no fault,
//! others have one first fault, and notes have bytes of their own in each form.
//!
//! A caller, proved in `callers`: a program out of a text and notes that nobody needs to trust.
//!
//! ```rust
//! pub fn safe_program(alloc: Global, text: Text, notes: Notes) -> Result<Certified, CheckFault>
//!     ensures text { IfOk result (λ program. program.text ≡ text) }
//!     ensures safe { IfOk result (λ program. (len : ℕ) → IsIn len all_lengths → IsSafe len text program.longest) }
//! {
//!     let program = check(alloc, text, notes)?;
//!     program.is_safe();
//!     Ok(program)
//! }
//! ```
#![tactic(auto)]

mod certified;
mod checker;
mod fault;
mod form;
mod kept;
pub mod laws;
mod lengths;
mod notes;
mod reading;
mod run;
pub mod worked;
mod writing;

pub use certified::Certified;
pub use checker::{check, check_within};
pub use fault::{CheckFault, NotesFault};
pub use form::NotesForm;
pub use notes::Notes;
