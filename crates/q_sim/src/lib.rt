//! Scripts, run over a cluster in memory, and what they print.
//!
//! [`simulate`] takes each line of a script in turn. A line is one event of a cluster, whose type keeps that every
//! recorded answer is right and that each node's book is the replay of its journal; or, `all`, deliveries of what was
//! not delivered. The text that `simulate` answers is exactly the lines of what the events tell. So each `answer` line
//! is an answer that the last cluster has recorded, and that is true: [`laws`] says it of all scripts. `simulate` tells
//! beside the text whether a line was refused, and whether a journal was not written.
//!
//! - [`event_of`] is the event that a line of a script is.
//! - [`Delivered`] is the set of deliveries that were made or tried.
//!
//! The lines themselves, and the refusals, are those of `q_told`. The command line of `bqview` stands on it.
#![tactic(auto)]

mod delivered;
pub mod laws;
mod simulation;
pub mod worked;

pub use delivered::Delivered;
pub use simulation::{Printed, event_of, simulate};
