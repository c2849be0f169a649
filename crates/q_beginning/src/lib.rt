//! The longest beginning of bytes that is a journal.
//!
//! A process that was killed, or whose disk was full, leaves a file whose last event is not whole. [`beginning`] finds
//! the longest beginning of the bytes that is the journal of a book, and answers that book and how many bytes it keeps.
//! What is left is too little for an event. Bytes that have no such beginning are refused with what is first wrong with
//! them, and only memory can run out besides.
//!
//! `bqview gather` takes the journals of killed nodes by it, and a node that comes back its own.
#![tactic(auto)]

mod beginnings;
pub mod worked;

pub use beginnings::{Journal, beginning};
