//! Why a file is refused, in words for a person.
//!
//! - [`explain`] tells of a fault that the verifier found in a text: the instruction as assembler text, what is known
//!   of the registers there, which rule it breaks and what would satisfy it. Something is told exactly of faults at an
//!   instruction. [`explain_code`] tells the same of bytes, and [`explain_bytes`] why bytes are no program.
//! - [`states`] has what is known of the registers at each instruction of a program: its text is exactly that of the
//!   notes.
//! - [`assembler_line`] and [`script_line`] tell what may stand on a line that is of no form, and [`of_label`] what is
//!   wrong with a label.
//! - [`line_of_unit`] is the line of an assembler text where an instruction stands, and [`write_shown`] shows a line.
//! - [`of_event`] tells what an event of a script wants that a cluster refuses.
//!
//! But for `states`, what they say is for reading: no contract speaks of it, and tests show it.
#![tactic(auto)]

mod advice;
mod bytes;
mod event;
mod explainer;
mod lines;
mod listing;
mod shown;
mod source;
pub mod worked;

pub use bytes::{OBJECT_FILE, explain_bytes, is_object_file};
pub use event::of_event;
pub use explainer::{explain, explain_code};
pub use lines::{assembler_line, script_line};
pub use listing::{states, write_state, write_unit};
pub use shown::write_shown;
pub use source::{line_of_unit, of_label};
