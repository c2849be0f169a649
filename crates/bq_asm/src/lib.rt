//! Assembler text of RFC 9669 instructions.
//!
//! A source is lines of ASCII, each ended by a line feed (the last need not be). A line is blank, a
//! comment from `#` to its end, a label `name:` alone, or an instruction with or without a comment
//! behind it. An instruction is a mnemonic, spaces, and operands with commas between them; spaces may
//! stand at both ends of a line and about a comma.
//!
//! - [`assemble`] gives the text that a source spells, or the first fault: 9 Syntax at the least line
//!   that is of no form, then 10 Label at the least line that defines a name a second time or whose
//!   jump names a label that no later line defines or that is too far, then 1 BadLength for no
//!   instruction, then 2 TooLong for more than 4,096 units. 99 OutOfMemory may stand in place of any
//!   but of a first line that is of no form.
//! - [`disassemble`] writes the one spelling of a text that has distances alone.
//! - [`Mnemonic`] is what the first word of an instruction says, and [`Mnemonic::all`] has every one.
//! - What is written of a text is assembled to that text, and a source spells one text at most
//!   ([`laws`]).
//!
//! A label marks the next instruction, or the end of the text. A jump to a name means the first line
//! behind it that defines the name; its distance is the number of units between. An operand has one
//! text: a register is `r0` to `r10`, a number is decimal with no zero in front and `-` if it is below
//! 0, a place in memory is `[r1+16]` with the sign always written, and so is a jump's distance.
//!
//! What a source spells is defined in `specs/`, apart from the code: `Mnemonic` has the mnemonics,
//! `Operands` the operands of each instruction, `Line` the grammar of a line, and `Source` the spellings of a
//! text, the one that is written, and which fault stands first. What lines mean that define names and jump to them is
//! `Labels`, which knows nothing of how lines are spelled; `Jumps` has the jump by a distance.
//!
//! The program that reads files of assembler text stands on this crate.
//!
//! A caller, proved in `callers`: a source written anew, with no labels and comments, spells the same text.
//!
//! ```rust
//! pub fn written_anew(alloc: Global, source: &str) -> Result<String, AsmFault>
//!     ensures { (t : List Insn) → IsText t → IsSource source.now t
//!         → IfOk result (λ anew. IsSource (string_bytes anew) t) }
//! {
//!     disassembly_spells_the_text();
//!     let text = assemble(alloc, source)?;
//!     let anew = disassemble(alloc, &text)?;
//!     Ok(anew)
//! }
//! ```
#![tactic(auto)]

mod assembler;
mod disassembler;
mod fault;
mod jump;
mod labels;
pub mod laws;
mod line;
mod mnemonic;
mod number;
mod operand;
mod statement;
mod text;
pub mod worked;

pub use assembler::assemble;
pub use disassembler::disassemble;
pub use fault::AsmFault;
pub use mnemonic::Mnemonic;
