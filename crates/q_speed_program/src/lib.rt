//! What both static libraries of the harness in bench/ share: programs from bytes, and what folds come to.
#![tactic(auto)]

mod folded;
mod program;

pub use folded::{Folded, REFUSED, Way};
pub use program::{assembled, certified};
