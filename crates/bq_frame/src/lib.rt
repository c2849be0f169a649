//! The raw memory of a run: one block of 640 bytes.
//!
//! A [`Block`] is one allocation, made by [`Block::new`] and freed once, when the block is dropped. Contracts see it as
//! the list of its 640 bytes. Bytes 0 to 511 are a frame, and from byte 512 on there is room for a record of at most
//! 128 bytes. Under the placement with the frame at address 0 and the record at address 512 a machine's address is the
//! place of a byte in the block.
//!
//! - [`Block::load1`] to [`Block::load8`] read 1, 2, 4 or 8 bytes as a number, and [`Block::store1`] to
//!   [`Block::store8`] write the lowest bytes of one, in little-endian order. Nothing is tested: it is the caller's
//!   condition that the bytes lie in the block. They go through raw pointers, which two functions of one byte each
//!   alone have.
//! - [`Block::clear_frame`], and [`Block::set_record`] or [`Block::set_entry`], prepare a run.
//!
//! Only [`Block::new`] may fail, where memory runs out. No other call takes memory, and none refuses anything.
#![tactic(auto)]

mod block;
mod raw;
pub mod worked;

pub use block::{BLOCK_LENGTH, Block, RECORD_AT, ROOM_LENGTH};
