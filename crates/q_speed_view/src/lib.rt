//! The folds of checked code over a view, as a C program calls them: a static library of the harness in bench/, as
//! `q_speed` is for the folds over records as they lie in memory.
//!
//! Each call makes a view of the records' entries, and folds the program over it as a query is answered, or by the
//! machine that tests every access.
#![tactic(auto)]

mod viewed;

use q_speed_program::{Folded, REFUSED, Way};
use std::alloc::Global;

/// Folds a program over a view of the records.
#[unsafe(no_mangle)]
pub extern "C" fn q_speed_view(alloc: Global, program: &[u8], records: &[u8], way: &Way) -> Folded {
    viewed::folded(alloc, program, records, way).unwrap_or(REFUSED)
}
