//! What is told, as lines: refusals, what an event tells, its messages, where stores and collects met. And programs
//! with their certificates, or why there is none.
//!
//! - [`Refusal`] is each reason for which an event or a command is refused, with the line that is printed of it;
//!   [`RefusalPlace`] is where it arose, as its line tells it, and [`RefusedLine`] a line of a script with its refusal.
//! - [`put_line`] writes the line of a refusal by its reason and its place, and [`put_refusal`] that of a [`Refusal`],
//!   which carries both. They take no memory, so that want of memory can still be told. Where a write fails, which the
//!   writer counts, a part of the line may have been written.
//! - [`print_told`] and [`print_messages`] print the lines of what an accepted event tells and of its messages.
//! - [`print_pairs`] and [`print_ended_pairs`] print where stores and collects met.
//! - [`certified_code`] and [`certified_text`] make programs with their certificates, of bytes and of instructions:
//!   with the least notes that pass, or refused with what decoding and then the verifier refuse, or with 99.
//! - [`write_refused_line`] tells a person of a line of a script that was refused, and [`write_instruction`] which
//!   instruction of a program is: they take memory, and no contract speaks of their words.
//!
//! Each other contract of a line says what is written, to the last byte, by `specs/Printing`, `Refusal` and `Line`;
//! which programs get a certificate, and why one is refused, is `specs/Programs`.
//!
//! Scripts that are run over a cluster in memory stand on it (`q_sim`), and so do nodes in threads, nodes apart, their
//! clients and the command line of `bqview`.
#![tactic(auto)]

mod line;
mod meetings;
mod printing;
mod program;
mod refusal;
mod refused_line;
pub mod worked;

pub use line::{put_line, put_refusal};
pub use meetings::{print_ended_pairs, print_pairs};
pub use printing::{print_messages, print_told};
pub use program::{certified_code, certified_text};
pub use refusal::{Refusal, RefusalPlace, RefusedLine};
pub use refused_line::{write_instruction, write_refused_line};
