//! What programs mean: the instructions of RFC 9669 as steps of a machine that tests each access.
//!
//! A machine has a unit index, eleven registers that hold a word of 64 bits or nothing yet, a frame of
//! 512 bytes ([`FRAME_LENGTH`]) and a record of 16 to 128 bytes ([`LEAST_RECORD`], [`RECORD_ROOM`]). The
//! two lie at the addresses of a [`Placement`], in a space of 2^64 addresses; pointers are plain words,
//! and memory is little-endian.
//!
//! - [`step_checked`] does one instruction. A wide instruction is one step; a backward jump is as good
//!   as any, and a unit index outside the text is a fault of the next step.
//! - [`run_checked`] does steps over one record until an exit, a fault or a limit: r1 is the record's
//!   address, r2 its length, r3 the accumulator and r10 the frame's end, and r0 is the answer.
//!
//! Both answer exactly what the definitions say, at each placement, and take no memory. The faults are
//! 91 ReadUnset, 92 WroteFramePointer, 93 OutsideAccess, 94 WroteRecord, 95 BadPlace and 96 StepsOut;
//! where several hold at a step, the least number is answered, and the frame is as it was.
//!
//! The definitions stand in `specs/`, apart from the code: `Place` has what a placement is, `Memory`
//! where an access lies, `Meaning` what each form of instruction does, `Faults` what each fault says of
//! an instruction, `Runs` what a record run is and how it fails, and `Answers` what a text answers over a
//! list of records, the same at every placement. `laws` has what follows for all texts: the least fault
//! is named, one run, one answer, and an answer over no records. What they say at telling machines,
//! worked by hand, stands in [`worked`].
//!
//! The checker, the loop that runs checked programs without tests, and all that speaks of an answer
//! stand on these definitions.
#![tactic(auto)]

mod fault;
pub mod laws;
mod machine;
mod memory;
mod perform;
mod placement;
mod run;
mod step;
pub mod worked;

pub use fault::Fault;
pub use machine::{Location, Machine};
pub use placement::{FRAME_LENGTH, LEAST_RECORD, Placement, RECORD_LENGTH, RECORD_ROOM};
pub use run::{Ended, run_checked};
pub use step::{Step, step_checked};
