//! The programs that a query may name: certified texts by their ids.
//!
//! A table holds at most 1,024 programs of distinct texts. A text that is registered again keeps its id and its first
//! certificate, and a new one gets the next id: [`Programs`]. Owners share a program: [`Program`]. A table finds a text
//! by its bytes, which are written once for a program that is asked for and then registered: [`EncodedProgram`]. A new
//! text is refused with 52 where the table is full, and 99 says that memory ran out: [`TableFault`]. After a refusal
//! the table is as it was.
//!
//! `specs/Programs` says what registering does to the list of the certificates.
//!
//! A caller, proved in `callers`: a program gets its id in a new table.
//!
//! ```rust
//! pub fn table_of_one(
//!     alloc: Global,
//!     certified: Certified,
//! ) -> Result<(Programs, ProgramId), TableFault>
//!     ensures { IfOk result (λ made. registered [] certified ≡ Ok (made.1, made.0)) }
//! {
//!     let program = Program::new(alloc, certified)?;
//!     let mut programs = Programs::new(alloc);
//!     let id = programs.register(&program)?;
//!     Ok((programs, id))
//! }
//! ```
#![tactic(auto)]

mod encoded;
mod program;
mod programs;
pub mod worked;

pub use encoded::EncodedProgram;
pub use program::{Program, ProgramId};
pub use programs::{MOST_PROGRAMS, Programs, TableFault};
