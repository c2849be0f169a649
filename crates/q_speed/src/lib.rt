//! The folds of checked code over records as they lie in memory, as a C program calls them: a static library of the
//! harness in bench/.
//!
//! Each call takes a program's bytes and records of 64 bytes each, finds and checks the program's notes, and folds it
//! over the records so many times, one fold behind the other: by the loop without tests or by the machine that tests
//! every access. The harness takes the time of the folds alone: what is prepared takes memory, and a fold takes none.
//! To give the folds work is all that the functions do, so they promise nothing more than that they end and are safe.
//!
//! The folds over a view are a library of their own (`q_speed_view`): each library calls the loop from one place, as
//! the program does, so LLVM builds it into its caller in each.
#![tactic(auto)]

mod direct;

use bq_insn::encode;
use q_speed_program::{Folded, REFUSED, Way, assembled};
use std::alloc::Global;

/// Puts the bytes of a source into a buffer and answers their number; 0 where the source is refused or too long.
#[unsafe(no_mangle)]
pub extern "C" fn q_speed_assemble(alloc: Global, source: &[u8], buffer: &mut [u8]) -> usize {
    let Some(text) = assembled(alloc, source) else {
        return 0;
    };
    let Ok(bytes) = encode(alloc, &text) else {
        return 0;
    };
    let count = bytes.len();
    if count > buffer.len() {
        return 0;
    }
    buffer[..count].copy_from_slice(&bytes);
    count
}

/// Folds a program over the records as they lie there.
#[unsafe(no_mangle)]
pub extern "C" fn q_speed_flat(alloc: Global, program: &[u8], records: &[u8], way: &Way) -> Folded {
    direct::folded(alloc, program, records, way).unwrap_or(REFUSED)
}
