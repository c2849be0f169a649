//! Chunks: entries in rising order of their ids, which copies share.
//!
//! An entry is an id and what is known under it. `chunk` finds an entry, and learns one: in place where no copy shares
//! the chunk, and else in a new chunk. A chunk that is shared is never changed. `newer` says which of two numbers
//! counts.
//!
//! The rows of a view stand on this crate.
#![tactic(auto)]

mod chunk;
mod newer;

pub use chunk::{CHUNK_CAPACITY, Chunk, find, learn, with_entry};
pub use newer::is_larger;
