//! Bytes to messages.
//!
//! Promised, for all bytes and all messages:
//!
//! - [`decode`](decode::decode) and [`decode_v1`](decode::decode_v1) answer the message that the bytes spell, and
//!   answer it for all bytes that spell one; else they name the fault that stands first, `IsFault` of `sc_msg`'s
//!   `specs/Fault.antt`. Want of memory may come in place of either.
//! - What is written and read again is the same, and so are bytes that are read and written again ([`laws`]).
//!
//! Messages, their spelling and the reader of what stands first in bytes are `sc_msg`'s.
#![tactic(auto)]

mod decoder;
pub mod laws;

pub use decoder::{decode, decode_as, decode_v1};
